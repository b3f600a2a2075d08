// The files of cases, as they are read line by line.

use crate::pieces::Piece;
use std::alloc::{AllocError, Global};

/// Files, each a name and its bytes.
pub type Files = Vec<(String, Vec<u8>)>;

// Files that cases may share.
#[derive(Drop)]
struct Shared {
    name: String,
    files: Files,
}

/// Lists of files that cases may share, and the files of the case that is being read, if one is.
#[derive(Drop)]
pub struct FileLists {
    alloc: Global,
    shared: Vec<Shared>,
    files: Option<Files>,
    place: Option<usize>,
}

impl FileLists {
    /// No lists.
    pub fn new(alloc: Global) -> FileLists {
        FileLists {
            alloc,
            shared: Vec::new(alloc),
            files: None,
            place: None,
        }
    }

    /// Begins the files of a case.
    pub fn begin_case(&mut self) {
        self.files = Some(Vec::new(self.alloc));
        self.place = None;
    }

    /// Gives the files of the case that has been read.
    pub fn end_case(&mut self) -> Option<Files> {
        self.place = None;
        self.files.take()
    }

    /// Begins a list that cases may share.
    pub fn begin_shared(&mut self, name: &str) -> Result<(), AllocError> {
        self.files = None;
        self.place = None;
        Ok(
            self.shared.push(Shared {
                name: String::from_str(self.alloc, name)?,
                files: Vec::new(self.alloc),
            })?,
        )
    }

    /// Adds the shared files of this name to those of the case, and says whether there are both.
    pub fn add_shared(&mut self, name: &str) -> Result<bool, AllocError> {
        let Some(files) = &mut self.files else {
            return Ok(false);
        };
        for some in &self.shared {
            if some.name.as_str() == name {
                files.extend_from_slice(&some.files)?;
                return Ok(true);
            }
        }
        Ok(false)
    }

    /// Begins a file, in the place of one of its name, and says whether one may stand here.
    pub fn begin_file(&mut self, name: &str) -> Result<bool, AllocError> {
        let alloc = self.alloc;
        let Some(files) = self.current() else {
            return Ok(false);
        };
        let place = place_of(files, name);
        match files.get_mut(place) {
            Some(file) => file.1.clear(),
            None => files.push((String::from_str(alloc, name)?, Vec::new(alloc)))?,
        }
        self.place = Some(place);
        Ok(true)
    }

    /// Adds bytes to the file that was begun, and says whether one was, and the line spells any.
    pub fn push(&mut self, piece: Piece<'_>) -> Result<bool, AllocError> {
        let alloc = self.alloc;
        match self.bytes() {
            Some(bytes) => piece.push_to(alloc, bytes),
            None => Ok(false),
        }
    }

    // The files of the case that is being read, or else the shared ones.
    fn current(&mut self) -> Option<&mut Files> {
        match &mut self.files {
            Some(files) => Some(files),
            None => Some(&mut self.shared.last_mut()?.files),
        }
    }

    // The bytes of the file that was begun.
    fn bytes(&mut self) -> Option<&mut Vec<u8>> {
        let place = self.place?;
        Some(&mut self.current()?.get_mut(place)?.1)
    }
}

// The place of the file of this name; the number of files where there is none.
fn place_of(files: &Files, name: &str) -> usize {
    for (place, file) in files.iter().enumerate() {
        if file.0.as_str() == name {
            return place;
        }
    }
    files.len()
}
