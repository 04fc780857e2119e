// The faults of a script.
ghost use Rattle.std.specs.Prelude.{◌≡◌};
ghost use Rattle.fc_base.specs.declared.error.Refusal.TheVariants.{Fault};
ghost use Rattle.fc_spec.specs.scripts.ScriptFault.{line_fault_name, line_fault_number};
ghost use Rattle.fc_lines.specs.FaultView.{line_fault_view, refusal_at};

use fc_base::Refusal;
use fc_docs::DocFault;
use thiserror::Error;

/// Why a line is refused, or a script without a line at fault.
#[derive(Clone, Copy, Debug, Error, PartialEq, Eq)]
pub enum LineFault {
    /// The line is no JSON that can be read.
    #[error("not-json")]
    NotJson,
    /// The first line that is not blank is no schema line, or there is none.
    #[error("no-schema")]
    NoSchema,
    /// The line has none of the forms.
    #[error("unknown-line")]
    UnknownLine,
    /// The schema is none.
    #[error("bad-schema")]
    BadSchema,
    /// The shard is not one of the schema's.
    #[error("bad-shard")]
    BadShard,
    /// The document is none.
    #[error("bad-document: {0}")]
    BadDocument(DocFault),
    /// The absolute values of an integer field add up to too much.
    #[error("field-total")]
    FieldTotal,
    /// There are too many documents, or too many values in them.
    #[error("too-many-documents")]
    TooManyDocuments,
    /// There are too many sessions.
    #[error("too-many-sessions")]
    TooManySessions,
    /// The line has too many bytes.
    #[error("long-line")]
    LongLine,
    /// The script has too many bytes.
    #[error("too-long")]
    TooLong,
    /// A shard has too many commits.
    #[error("too-many-commits")]
    TooManyCommits,
    /// There are too many sync lines.
    #[error("too-many-syncs")]
    TooManySyncs,
}

/// The first fault of a script, and the number of its line, from 1; 0 where no line is at fault.
#[derive(Clone, Copy, Debug, Error, PartialEq, Eq)]
#[error("line {line}: {fault}")]
pub struct ScriptFault {
    pub line: u32,
    pub fault: LineFault,
}

impl From<LineFault> for Refusal<LineFault> {
    ghost from_gives = { λ fault refusal. refusal ≡ Fault fault };

    fn from(fault: LineFault) -> Self {
        Refusal::Fault(fault)
    }
}

impl LineFault {
    /// Its number; none has the number 7.
    pub fn number(&self) -> u32
        ensures { result ≡ line_fault_number (line_fault_view self.now) }
    {
        match self {
            LineFault::NotJson => 1,
            LineFault::NoSchema => 2,
            LineFault::UnknownLine => 3,
            LineFault::BadSchema => 4,
            LineFault::BadShard => 5,
            LineFault::BadDocument(_) => 6,
            LineFault::FieldTotal => 8,
            LineFault::TooManyDocuments => 9,
            LineFault::TooManySessions => 10,
            LineFault::LongLine => 11,
            LineFault::TooLong => 12,
            LineFault::TooManyCommits => 13,
            LineFault::TooManySyncs => 14,
        }
    }

    /// Its name.
    pub fn name(&self) -> &'static str
        ensures { result.now ≡ line_fault_name (line_fault_view self.now) }
    {
        match self {
            LineFault::NotJson => "not-json",
            LineFault::NoSchema => "no-schema",
            LineFault::UnknownLine => "unknown-line",
            LineFault::BadSchema => "bad-schema",
            LineFault::BadShard => "bad-shard",
            LineFault::BadDocument(_) => "bad-document",
            LineFault::FieldTotal => "field-total",
            LineFault::TooManyDocuments => "too-many-documents",
            LineFault::TooManySessions => "too-many-sessions",
            LineFault::LongLine => "long-line",
            LineFault::TooLong => "too-long",
            LineFault::TooManyCommits => "too-many-commits",
            LineFault::TooManySyncs => "too-many-syncs",
        }
    }
}

/// The refusal of the line of this number, from 1, as the script's.
pub fn at_line(line: u32, refusal: Refusal<LineFault>) -> Refusal<ScriptFault>
    ensures { result ≡ refusal_at line refusal }
{
    match refusal {
        Refusal::Memory => Refusal::Memory,
        Refusal::Fault(fault) => Refusal::Fault(ScriptFault { line, fault }),
    }
}
