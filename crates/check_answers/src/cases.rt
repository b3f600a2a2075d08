// How cases are read, line by line.

use case_lists::{FileLists, Files, Piece, calls_of, words_of};
use std::alloc::{AllocError, Global};

/// A check: what it shows, the words of its command line, its files, the calls of the folder and of the printer that fail, and the file
/// that is cut, where the case is many runs.
#[derive(Drop)]
pub(crate) struct Case {
    pub(crate) name: String,
    pub(crate) words: Vec<String>,
    pub(crate) files: Files,
    pub(crate) fails: (u64, u64),
    pub(crate) cut: Option<String>,
}

/// The files that have been read, and the case that is being read.
#[derive(Drop)]
pub(crate) struct Cases {
    alloc: Global,
    lists: FileLists,
    case: Option<Case>,
}

impl Cases {
    pub(crate) fn new(alloc: Global) -> Cases {
        Cases {
            alloc,
            lists: FileLists::new(alloc),
            case: None,
        }
    }

    /// Gives the case that has been read.
    pub(crate) fn end(&mut self) -> Option<Case> {
        let mut case = self.case.take()?;
        case.files = self.lists.end_case()?;
        Some(case)
    }

    /// Takes a line, and says whether it is one that may stand here.
    pub(crate) fn take(&mut self, line: &str) -> Result<bool, AllocError> {
        if line.is_empty() || line.starts_with('#') {
            return Ok(true);
        }
        if let Some(piece) = Piece::of(line) {
            return self.lists.push(piece);
        }
        let (word, rest) = line.split_once(' ').unwrap_or((line, ""));
        match word {
            "case" => self.begin_case(rest),
            "shared" => self.begin_shared(rest),
            "file" => self.lists.begin_file(rest),
            "with" => self.lists.add_shared(rest),
            _ => self.set(word, rest),
        }
    }

    // Takes what is said of the case.
    fn set(&mut self, word: &str, rest: &str) -> Result<bool, AllocError> {
        let Some(case) = &mut self.case else {
            return Ok(false);
        };
        match word {
            "words" => case.words = words_of(self.alloc, rest)?,
            "cuts" => case.cut = Some(String::from_str(self.alloc, rest)?),
            "fails" => match calls_of(rest) {
                Some(fails) => case.fails = fails,
                None => return Ok(false),
            },
            _ => return Ok(false),
        }
        Ok(true)
    }

    fn begin_case(&mut self, name: &str) -> Result<bool, AllocError> {
        self.lists.begin_case();
        self.case = Some(Case {
            name: String::from_str(self.alloc, name)?,
            words: Vec::new(self.alloc),
            files: Vec::new(self.alloc),
            fails: (u64::MAX, u64::MAX),
            cut: None,
        });
        Ok(true)
    }

    fn begin_shared(&mut self, name: &str) -> Result<bool, AllocError> {
        self.lists.begin_shared(name)?;
        Ok(true)
    }
}
