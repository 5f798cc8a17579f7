ghost use Rattle.std.specs.Prelude.{◌≡◌};
ghost use Rattle.xdb_script.specs.declared.error.LineNo.TheVariants as line_no;
ghost use Rattle.xdb_script.specs.declared.error.ScriptNo.TheVariants as no;

use std::alloc::{AllocError, AllocFailed};
use thiserror::Error;

/// What is wrong with a script. `Long` comes first, and then the first bad line; of a line's reasons the
/// first of these, in this order. `Token`, `Length`, `Name` and `Number` stand at one place of the order:
/// the first word from the left that has one of them decides.
#[derive(Clone, Copy, Debug, PartialEq, Eq, Error)]
pub enum Why {
    /// The script has more than 1,048,576 bytes.
    #[error("long")]
    Long,
    /// A byte isn't a printable character of ASCII, a space stands at an end, or two stand together.
    #[error("spaces")]
    Spaces,
    /// The first word names nobody who may speak in a script of this form.
    #[error("who")]
    Who,
    /// The second word is no verb of the one who speaks, in a script of this form, or is missing.
    #[error("verb")]
    Verb,
    /// The number of words, a fixed word, the verb of an operation or a count doesn't fit the verb.
    #[error("shape")]
    Shape,
    /// A word is the spelling of no bytes.
    #[error("token")]
    Token,
    /// A key, a bound or a value is shorter or longer than its limits.
    #[error("length")]
    Length,
    /// A word is no name.
    #[error("name")]
    Name,
    /// A word is no number, or one out of its range.
    #[error("number")]
    Number,
    /// The start of a range isn't below its end.
    #[error("range")]
    Range,
    /// A load names a table that no line above defines, or a table is defined again.
    #[error("table")]
    Table,
    /// The keys of a table's points don't rise.
    #[error("order")]
    Order,
}

/// Why bytes are no script.
#[derive(Clone, Copy, Debug, PartialEq, Eq, Error)]
pub enum ScriptNo {
    /// The first bad line, counted from 1, and what is wrong with it. Of a script that is too long it is
    /// the line with the first byte past the limit.
    #[error("line {line}: {why}")]
    BadLine { line: u64, why: Why },
    #[error("out of memory")]
    Memory,
}

impl From<AllocError> for ScriptNo {
    ghost from_gives = { λ _ e. e ≡ no.Memory };

    fn from(_e: AllocError) -> ScriptNo {
        ScriptNo::Memory
    }
}

impl<T: Drop> From<AllocFailed<T>> for ScriptNo {
    ghost from_gives = { λ _ e. e ≡ no.Memory };

    fn from(_e: AllocFailed<T>) -> ScriptNo {
        ScriptNo::Memory
    }
}

/// Why a line, or a part of it, isn't read.
#[derive(Clone, Copy, Debug, PartialEq, Eq)]
pub enum LineNo {
    /// The line's first defect.
    Bad(Why),
    Memory,
}

impl From<AllocError> for LineNo {
    ghost from_gives = { λ _ e. e ≡ line_no.Memory };

    fn from(_e: AllocError) -> LineNo {
        LineNo::Memory
    }
}

impl<T: Drop> From<AllocFailed<T>> for LineNo {
    ghost from_gives = { λ _ e. e ≡ line_no.Memory };

    fn from(_e: AllocFailed<T>) -> LineNo {
        LineNo::Memory
    }
}
