/// How a call of the program ended. The exit statuses are 0 to 5, in this order.
#[derive(Clone, Copy, Debug, PartialEq, Eq)]
pub enum Status {
    /// Every text that was due stands in its file, and every line on the output.
    Ok,
    /// An input is refused.
    Refused,
    /// The words are no command.
    Usage,
    /// A file was not read.
    ReadFault,
    /// A file was not written, or the output did not take its lines.
    WriteFault,
    NoMemory,
}

impl Status {
    ghost use Rattle.std.specs.Prelude.{◌≡◌};
    ghost use Rattle.keso_cli.specs.ExitCode.{exit_code};

    /// The exit status of the process.
    pub fn code(self) -> u8
        ensures { result ≡ exit_code self }
    {
        match self {
            Status::Ok => 0,
            Status::Refused => 1,
            Status::Usage => 2,
            Status::ReadFault => 3,
            Status::WriteFault => 4,
            Status::NoMemory => 5,
        }
    }
}
