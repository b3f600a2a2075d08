// Words and folders of runs in memory.
use solver_io::{MemFolder, has_distinct_names};
use std::alloc::Global;
use std::test::Fail;

// The numbers of the calls at which the folder, the source and the sink fail, counted from 0.
pub(crate) type Fails = (u64, u64, u64);

pub(crate) const NEVER: Fails = (u64::MAX, u64::MAX, u64::MAX);

// The words of a line as texts of their own.
pub(crate) fn words(alloc: Global, line: &str) -> Result<Vec<String>, Fail> {
    let mut words = Vec::new(alloc);
    for word in line.split_ascii_whitespace() {
        words.push(String::from_str(alloc, word)?)?;
    }
    Ok(words)
}

// The folder of these files.
pub(crate) fn folder(alloc: Global, files: &[(&str, &str)], fails: u64) -> Result<MemFolder, Fail> {
    let mut held = Vec::new(alloc);
    for (name, text) in files {
        held.push((
            String::from_str(alloc, name)?,
            text.as_bytes().to_vec(alloc)?,
        ))?;
    }
    if !has_distinct_names(&held) {
        return Err(Fail::new("two files have one name"));
    }
    Ok(MemFolder::new(alloc, held, [fails].to_vec(alloc)?))
}
