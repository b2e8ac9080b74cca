//! How a command ends.
ghost use Rattle.std.specs.Prelude.{◌≡◌};
ghost use Rattle.ipa_command.specs.Statuses.{number_of};

/// How a command ended. Where several hold, the order is: the words, a read fault or an input that is too long,
/// the document, a triple that is too wide, a specification that is not accepted, the journal.
#[derive(Clone, Copy, Debug, PartialEq, Eq)]
pub enum Status {
    /// The input was read to its end and was accepted, repaired, found legal or written anew.
    Done,
    /// The specification is not accepted, or its repair is stuck, or the journal is bad.
    Rejected,
    /// The words match no row of the table of commands.
    Usage,
    /// The input is too long, the document or the journal has no reading, or a triple is too wide.
    Refused,
    /// The source failed in this call. Nothing was written.
    ReadFault,
    /// The sink failed in this call. The text has gone out in part.
    WriteFault,
    /// Want of memory. Nothing was written.
    NoMemory,
    /// A log was full.
    Full,
}

impl Status {
    /// The number with which the program ends.
    pub fn number(self) -> u8
        ensures { result ≡ number_of self }
    {
        match self {
            Status::Done => 0,
            Status::Rejected => 1,
            Status::Usage => 2,
            Status::Refused => 3,
            Status::ReadFault => 4,
            Status::WriteFault => 5,
            Status::NoMemory => 6,
            Status::Full => 7,
        }
    }
}
