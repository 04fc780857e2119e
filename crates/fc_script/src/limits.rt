// How large a script may be.

/// How many documents, and how many values in them, a script may have.
#[derive(Clone, Copy, Debug, PartialEq, Eq)]
pub struct Limits {
    pub documents: u64,
    pub values: u64,
}

/// The most bytes of a script.
pub const SCRIPT_BYTES: usize = 67_108_864;

/// The limits of every script.
pub const SCRIPT_LIMITS: Limits = Limits {
    documents: 1_048_576,
    values: 16_777_216,
};
