//! Statuses, with their exit codes.
ghost use Rattle.std.specs.Prelude.{◌≡◌};
ghost use Rattle.ixds_run.specs.ExitCodes.{code_of};

/// How a run ended.
#[derive(Clone, Copy, Debug, PartialEq, Eq)]
pub enum Status {
    /// All targets are written, and then the summary.
    Done,
    /// A rule is broken, and `out` took the report.
    Broken,
    /// The words give no command.
    Usage,
    /// A page can't be read.
    ReadFault,
    /// A target or a text can't be written.
    WriteFault,
    /// Want of memory.
    NoMemory,
}

impl Status {
    /// The program's exit status, from 0 to 5.
    pub fn code(self) -> u8
        ensures { result ≡ code_of self }
    {
        match self {
            Status::Done => 0,
            Status::Broken => 1,
            Status::Usage => 2,
            Status::ReadFault => 3,
            Status::WriteFault => 4,
            Status::NoMemory => 5,
        }
    }
}
