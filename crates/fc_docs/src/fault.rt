// The faults of a block.
ghost use Rattle.std.specs.Prelude.{◌≡◌};
ghost use Rattle.fc_base.specs.declared.error.Refusal.TheVariants.{Fault};

use fc_base::Refusal;
use thiserror::Error;

/// Why a JSON value is no block.
#[derive(Clone, Copy, Debug, Error, PartialEq, Eq)]
pub enum DocFault {
    /// A key names no field.
    #[error("unknown-field")]
    UnknownField,
    /// A value is not of its field's type, a document is no object, or the children are no array.
    #[error("wrong-type")]
    WrongType,
    /// A field of at most one value has several items, be they equal.
    #[error("too-many-values")]
    TooManyValues,
    /// A document has no `id`.
    #[error("no-id")]
    NoId,
    /// A text is longer than 32,766 bytes.
    #[error("long-term")]
    LongTerm,
    /// A child has children.
    #[error("deep-children")]
    DeepChildren,
}

impl From<DocFault> for Refusal<DocFault> {
    ghost from_gives = { λ fault refusal. refusal ≡ Fault fault };

    fn from(fault: DocFault) -> Self {
        Refusal::Fault(fault)
    }
}
