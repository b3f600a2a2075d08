// How a run ends.
ghost use Rattle.std.specs.Prelude.{◌≡◌};
ghost use Rattle.run_inputs.specs.Numbers.{number_of};

/// How a run ends.
#[derive(Clone, Copy, Debug, PartialEq, Eq)]
pub enum Status {
    /// Every record of the script was answered, and no answer is a refusal.
    Done,
    /// Every record of the script was answered, and an answer is a refusal.
    Refused,
    /// The words are no command line of this program.
    Usage,
    /// A read of the folder or of the script failed.
    ReadFault,
    /// A write failed.
    WriteFault,
    Memory,
    /// There is too much of something, and no record was answered: the run says of what in one line.
    Limit,
    /// A file or the script can't be taken, and no record was answered: the run says why in one line.
    BadInput,
}

impl Status {
    /// The number with which the program ends.
    pub fn number(self) -> u8
        ensures { result ≡ number_of self }
    {
        match self {
            Status::Done => 0,
            Status::Refused => 1,
            Status::Usage => 2,
            Status::ReadFault => 3,
            Status::WriteFault => 4,
            Status::Memory => 5,
            Status::Limit => 6,
            Status::BadInput => 7,
        }
    }
}
