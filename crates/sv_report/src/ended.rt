ghost use Rattle.std.specs.Prelude.{◌≡◌};
ghost use Rattle.sv_report.specs.Status.{status_of};

/// How the program ended.
#[derive(Clone, Copy, Debug, PartialEq, Eq)]
pub enum Ended {
    /// The report is written, and every function is verified.
    Holds,
    /// The report is written, and some function isn't verified.
    Unheld,
    /// The error line of the text is written.
    Refused,
    /// The words of the command line aren't taken.
    Usage,
    /// The text couldn't be read.
    ReadFault,
    /// What was due couldn't be written whole.
    WriteFault,
    /// Memory ran out before anything was written.
    NoMemory,
}

impl Ended {
    /// The exit status of the program.
    pub fn status(&self) -> u8
        ensures { result ≡ status_of self.now }
    {
        match self {
            Ended::Holds => 0,
            Ended::Unheld => 1,
            Ended::Refused => 2,
            Ended::Usage => 3,
            Ended::ReadFault => 4,
            Ended::WriteFault => 5,
            Ended::NoMemory => 6,
        }
    }
}
