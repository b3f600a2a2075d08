// How many runs come out, each way once.

use crate::files::Files;
use crate::spelling::{push_lines, push_spelling};
use std::alloc::{AllocError, Global};

// Runs that print the same, have one status, and change the same files.
#[derive(Drop)]
struct Outcome {
    status: u8,
    printed: Vec<u8>,
    changed: Vec<(String, u64)>,
    first: String,
    count: u32,
}

/// The ways in which runs came out, in the order of their first ones.
#[derive(Drop)]
pub struct Outcomes {
    alloc: Global,
    kinds: Vec<Outcome>,
}

impl Outcomes {
    /// No runs.
    pub fn new(alloc: Global) -> Outcomes {
        Outcomes {
            alloc,
            kinds: Vec::new(alloc),
        }
    }

    /// Adds a run, of which the file of this name was damaged at a place.
    pub fn add(
        &mut self,
        status: u8,
        printed: &[u8],
        changed: &Files,
        name: &str,
        place: usize,
    ) -> Result<(), AllocError> {
        for kind in &mut self.kinds {
            if kind.is_like(status, printed, changed) {
                kind.take(changed);
                return Ok(());
            }
        }
        let mut kind = Outcome {
            status,
            printed: printed.to_vec(self.alloc)?,
            changed: begun(self.alloc, changed)?,
            first: format!(in self.alloc; "{name} {place}")?,
            count: 0,
        };
        kind.take(changed);
        Ok(self.kinds.push(kind)?)
    }

    /// Appends each way: how many runs, the files that they change, the status, and what each prints, spelled.
    pub fn show(&self, to: &mut String) -> Result<(), AllocError> {
        for kind in &self.kinds {
            kind.show_count(to)?;
            kind.show_changed(to)?;
            kind.show_status(to)?;
            push_spelling(&kind.printed, to)?;
        }
        Ok(())
    }

    /// Appends each way of runs that change no file: how many they are, what each prints, in lines, and the status.
    pub fn show_lines(&self, to: &mut String) -> Result<(), AllocError> {
        for kind in &self.kinds {
            kind.show_count(to)?;
            push_lines(&kind.printed, to)?;
            kind.show_status(to)?;
        }
        Ok(())
    }
}

impl Outcome {
    // Whether a run came out so.
    fn is_like(&self, status: u8, printed: &[u8], changed: &Files) -> bool {
        status == self.status
            && printed == self.printed.as_slice()
            && changed.len() == self.changed.len()
            && changed
                .iter()
                .zip(&self.changed)
                .all(|(file, kept)| file.0 == kept.0)
    }

    // Counts a run that came out so.
    fn take(&mut self, changed: &Files) {
        self.count = self.count.saturating_add(1);
        for (kept, file) in self.changed.iter_mut().zip(changed) {
            kept.1 = digest(kept.1, &file.1);
        }
    }

    fn show_count(&self, to: &mut String) -> Result<(), AllocError> {
        Ok(writeln!(to, "{} runs, first {}", self.count, self.first)?)
    }

    fn show_changed(&self, to: &mut String) -> Result<(), AllocError> {
        for (name, sum) in &self.changed {
            writeln!(to, "changed {name} {sum:016x}")?;
        }
        Ok(())
    }

    fn show_status(&self, to: &mut String) -> Result<(), AllocError> {
        Ok(writeln!(to, "status {}", self.status)?)
    }
}

// Files with the digest of nothing.
fn begun(alloc: Global, files: &Files) -> Result<Vec<(String, u64)>, AllocError> {
    let mut names = Vec::new(alloc);
    for (name, _) in files {
        names.push((name.clone()?, 0))?;
    }
    Ok(names)
}

// A digest that goes on over bytes, and over the end of them.
fn digest(before: u64, bytes: &[u8]) -> u64 {
    let mut sum = before;
    for byte in bytes {
        sum = sum
            .wrapping_mul(1_099_511_628_211)
            .wrapping_add(u64::from(*byte) + 1);
    }
    sum.wrapping_mul(1_099_511_628_211)
}
