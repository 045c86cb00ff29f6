ghost use Rattle.std.specs.Prelude.{◌≡◌};
ghost use Rattle.mypyc_top_status.specs.Statuses.{number_of};

/// How the command ends.
#[derive(Clone, Copy, Debug, PartialEq, Eq)]
pub enum Status {
    /// What was asked for is done.
    Done,
    /// The module has diagnostics.
    Diagnosed,
    /// The words are no command.
    Usage,
    /// The file cannot be opened.
    OpenFault,
    /// The file cannot be read.
    ReadFault,
    /// The output or the lines on errors cannot be written.
    WriteFault,
    /// The file has more bytes than the limit.
    TooLarge,
    /// The program ended with an exception.
    Raised,
    /// The program had no turns left.
    Cut,
    /// The file is no C text that can be run.
    TextRefused,
    /// The C text broke a rule of ownership.
    Faulted,
    /// A line of the program's input stands too far along.
    InputOver,
    /// There is no memory.
    Memory,
    /// The program's input cannot be read.
    InputFault,
}

/// The number that a status exits with: from 0 on, as the statuses follow one another.
pub fn status_number(status: Status) -> u8
    ensures { result ≡ number_of status }
{
    status as u8
}
