// How the numbers of calls are spelled in a line.

use case_lists::calls_of;
pub(crate) use case_lists::push_lines;

/// The calls of the folder, the script and the printer that fail, each counted from 0.
#[derive(Clone, Copy)]
pub(crate) struct Fails {
    pub(crate) folder: u64,
    pub(crate) script: u64,
    pub(crate) printer: u64,
}

impl Fails {
    /// No run makes so many calls.
    pub(crate) const NEVER: Fails = Fails {
        folder: u64::MAX,
        script: u64::MAX,
        printer: u64::MAX,
    };
}

/// The calls that three numbers say.
pub(crate) fn fails_of(calls: &str) -> Option<Fails> {
    let (folder, others) = calls.split_once(' ')?;
    let (script, printer) = calls_of(others)?;
    Some(Fails {
        folder: folder.parse::<u64>().ok()?,
        script,
        printer,
    })
}
