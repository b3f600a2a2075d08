// How cases are read, line by line.

use crate::damage::Damage;
use crate::lines::Line;
use crate::spelling::{Fails, fails_of};
pub(crate) use case_lists::Files;
use case_lists::{FileLists, Piece, words_of};
use std::alloc::{AllocError, Global};

/// A run: what it shows, the words of its command line, its files and its script, which calls fail, and whether it is many runs, of
/// damaged files and scripts.
#[derive(Drop)]
pub(crate) struct Case {
    pub(crate) name: String,
    pub(crate) words: Vec<String>,
    pub(crate) files: Files,
    pub(crate) script: Vec<u8>,
    pub(crate) fails: Fails,
    pub(crate) damage: Option<Damage>,
}

/// The files that have been read, and the case that is being read.
#[derive(Drop)]
pub(crate) struct Cases {
    alloc: Global,
    lists: FileLists,
    case: Option<Case>,
    is_script: bool,
}

impl Cases {
    pub(crate) fn new(alloc: Global) -> Cases {
        Cases {
            alloc,
            lists: FileLists::new(alloc),
            case: None,
            is_script: false,
        }
    }

    /// Gives the case that has been read.
    pub(crate) fn end(&mut self) -> Option<Case> {
        let mut case = self.case.take()?;
        case.files = self.lists.end_case()?;
        Some(case)
    }

    /// Takes a line, and says whether it is one that may stand here.
    pub(crate) fn take(&mut self, line: Line) -> Result<bool, AllocError> {
        match line {
            Line::Remark => Ok(true),
            Line::Case(name) => self.begin_case(name),
            Line::Words(words) => self.set_words(words),
            Line::With(name) => self.lists.add_shared(name),
            Line::Fails(calls) => Ok(self.set_fails(calls)),
            Line::Damage(kind) => Ok(self.set_damage(kind)),
            Line::File(name) => self.begin_file(name),
            Line::Script => Ok(self.begin_script()),
            Line::Shared(name) => self.begin_shared(name),
            Line::Text(text) => self.add(Piece::Line(text)),
            Line::Bytes(text) => self.add(Piece::Spelled(text)),
            Line::Times(text) => self.add(Piece::Times(text)),
            Line::Numbered(text) => self.add(Piece::Numbered(text)),
            Line::Unknown => Ok(false),
        }
    }

    fn begin_case(&mut self, name: &str) -> Result<bool, AllocError> {
        self.lists.begin_case();
        self.is_script = false;
        self.case = Some(Case {
            name: String::from_str(self.alloc, name)?,
            words: Vec::new(self.alloc),
            files: Vec::new(self.alloc),
            script: Vec::new(self.alloc),
            fails: Fails::NEVER,
            damage: None,
        });
        Ok(true)
    }

    fn begin_shared(&mut self, name: &str) -> Result<bool, AllocError> {
        self.lists.begin_shared(name)?;
        self.is_script = false;
        Ok(true)
    }

    fn begin_file(&mut self, name: &str) -> Result<bool, AllocError> {
        self.is_script = false;
        self.lists.begin_file(name)
    }

    fn begin_script(&mut self) -> bool {
        self.is_script = true;
        self.case.is_some()
    }

    fn set_words(&mut self, words: &str) -> Result<bool, AllocError> {
        let Some(case) = &mut self.case else {
            return Ok(false);
        };
        case.words = words_of(self.alloc, words)?;
        Ok(true)
    }

    fn set_fails(&mut self, calls: &str) -> bool {
        let Some(case) = &mut self.case else {
            return false;
        };
        let Some(fails) = fails_of(calls) else {
            return false;
        };
        case.fails = fails;
        true
    }

    fn set_damage(&mut self, kind: &str) -> bool {
        let Some(case) = &mut self.case else {
            return false;
        };
        case.damage = Damage::of(kind);
        case.damage.is_some()
    }

    // Adds bytes to the script or to the file that was begun.
    fn add(&mut self, piece: Piece<'_>) -> Result<bool, AllocError> {
        if !self.is_script {
            return self.lists.push(piece);
        }
        match &mut self.case {
            Some(case) => piece.push_to(self.alloc, &mut case.script),
            None => Ok(false),
        }
    }
}
