// What the words of the command line ask for.
/// How many units a search may spend where nothing is said.
pub const DEFAULT_BUDGET: u64 = 100_000;

/// The greatest size of a workbook that is made up.
pub const MOST_MADE_UP: u64 = 12;

/// The files that the words name.
#[derive(Drop)]
pub struct Named {
    pub names: String,
    /// The files of the sheets, each with a name before its ending.
    pub sheets: Vec<String>,
}

/// Which of the pickers chooses the next node of a search.
#[derive(Clone, Copy)]
pub enum Pick {
    Depth,
    Best,
    Oldest,
}

/// A script over files: how many units a search may spend, and its picker.
#[derive(Drop)]
pub struct Job {
    pub named: Named,
    pub budget: u64,
    pub pick: Pick,
}

/// What the words ask for: a script over files, or the solve of a workbook of a size that is made up.
#[derive(Drop)]
pub enum Asked {
    Script(Job),
    MadeUp(u8),
}
