// How a run ends.
ghost use Rattle.std.specs.Prelude.{◌≡◌};
ghost use Rattle.optcheck_cli.specs.Numbers.{number_of};

/// How a run ends.
#[derive(Clone, Copy, Debug, PartialEq, Eq)]
pub enum CheckStatus {
    /// The claim is true of the sheet.
    Yes,
    /// The check was made, and its answer is no yes: the run says which in one line.
    No,
    /// The words are no command line of this program.
    Usage,
    /// A read of the folder failed.
    ReadFault,
    /// The line couldn't be written.
    WriteFault,
    Memory,
    /// There is too much of something, and no check was made: the run says of what in one line.
    Limit,
    /// A file can't be taken, and no check was made: the run says why in one line.
    BadInput,
}

impl CheckStatus {
    /// The number with which the program ends.
    pub fn number(self) -> u8
        ensures { result ≡ number_of self }
    {
        match self {
            CheckStatus::Yes => 0,
            CheckStatus::No => 1,
            CheckStatus::Usage => 2,
            CheckStatus::ReadFault => 3,
            CheckStatus::WriteFault => 4,
            CheckStatus::Memory => 5,
            CheckStatus::Limit => 6,
            CheckStatus::BadInput => 7,
        }
    }
}
