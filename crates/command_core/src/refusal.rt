//! Why a command is refused, and which record is at fault.
ghost use Rattle.std.specs.Prelude.{◌≡◌};
ghost use Rattle.row_core.specs.Refusals.{map_refused};
ghost use Rattle.row_core.specs.declared.failure.Failure.TheVariants.{Refused};
ghost use Rattle.command_core.specs.Refusal.{key_refusal, refusal_text, schema_refusal};

use row_core::{Failure, KeyRefused, SchemaRefused};

/// Why a command is refused.
#[derive(Clone, Copy, Debug, PartialEq, Eq)]
pub enum Refusal {
    /// The word names no command, or a record of the command doesn't have the right form.
    BadCommand,
    /// A text isn't the name of a table or a column.
    BadName,
    /// A text isn't the number that it should be.
    BadNumber,
    /// A start isn't before its end, or two commits aren't in order.
    BadPeriod,
    /// A text isn't a point.
    BadPoint,
    /// A text value isn't UTF-8.
    BadUtf8,
    /// There are 1,000,000 commits, or a table would have more than 1,000,000 versions.
    Full,
    /// The commit that is named wasn't made yet.
    Future,
    /// The table has a key, and two rows that are equal in each of its columns would share an instant.
    KeyOverlap,
    /// The table has no column of that name.
    NoColumn,
    /// No table has that name.
    NoTable,
    /// The command isn't allowed in a block of commands.
    NotInBlock,
    /// There is already a table of that name.
    TableExists,
    /// A text value has more than 4,096 bytes.
    TooLong,
    /// There would be more than 16 columns, or more than 64 tables.
    TooMany,
    /// Two columns have the same name, or a key names a column twice.
    TwiceNamed,
    /// A block has no `end`.
    Unended,
    /// A value isn't of its column's kind.
    WrongKind,
    /// A row doesn't have one value for each column.
    WrongWidth,
}

/// A record at fault.
#[derive(Clone, Copy, Debug, PartialEq, Eq)]
pub struct Fault {
    /// The number of the record, counted from 1.
    pub number: u64,
    /// Why it is refused.
    pub refusal: Refusal,
}

impl Refusal {
    /// Returns the name as it is printed.
    pub fn text(self) -> &'static [u8]
        ensures { result.now ≡ refusal_text self }
    {
        match self {
            Refusal::BadCommand => b"BadCommand",
            Refusal::BadName => b"BadName",
            Refusal::BadNumber => b"BadNumber",
            Refusal::BadPeriod => b"BadPeriod",
            Refusal::BadPoint => b"BadPoint",
            Refusal::BadUtf8 => b"BadUtf8",
            Refusal::Full => b"Full",
            Refusal::Future => b"Future",
            Refusal::KeyOverlap => b"KeyOverlap",
            Refusal::NoColumn => b"NoColumn",
            Refusal::NoTable => b"NoTable",
            Refusal::NotInBlock => b"NotInBlock",
            Refusal::TableExists => b"TableExists",
            Refusal::TooLong => b"TooLong",
            Refusal::TooMany => b"TooMany",
            Refusal::TwiceNamed => b"TwiceNamed",
            Refusal::Unended => b"Unended",
            Refusal::WrongKind => b"WrongKind",
            Refusal::WrongWidth => b"WrongWidth",
        }
    }
}

impl From<Refusal> for Failure<Refusal> {
    ghost from_gives = { λ refusal e. e ≡ Refused refusal };

    fn from(refusal: Refusal) -> Failure<Refusal> {
        Failure::Refused(refusal)
    }
}

/// Returns the refusal for columns that don't make a schema.
fn schema_refusal(why: SchemaRefused) -> Refusal
    ensures { result ≡ schema_refusal why }
{
    match why {
        SchemaRefused::TooMany => Refusal::TooMany,
        SchemaRefused::TwiceNamed => Refusal::TwiceNamed,
    }
}

/// Returns the refusal for columns that don't make a key.
fn key_refusal(why: KeyRefused) -> Refusal
    ensures { result ≡ key_refusal why }
{
    match why {
        KeyRefused::NoColumn => Refusal::NoColumn,
        KeyRefused::TwiceNamed => Refusal::TwiceNamed,
    }
}

/// Converts the failure to make a schema.
pub(crate) fn schema_failure(why: Failure<SchemaRefused>) -> Failure<Refusal>
    ensures { result ≡ map_refused schema_refusal why }
{
    match why {
        Failure::Refused(refused) => Failure::Refused(schema_refusal(refused)),
        Failure::NoMemory => Failure::NoMemory,
    }
}

/// Converts the failure to make a key.
pub(crate) fn key_failure(why: Failure<KeyRefused>) -> Failure<Refusal>
    ensures { result ≡ map_refused key_refusal why }
{
    match why {
        Failure::Refused(refused) => Failure::Refused(key_refusal(refused)),
        Failure::NoMemory => Failure::NoMemory,
    }
}
