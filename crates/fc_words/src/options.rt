// What the words of the command ask for.

/// How many workers a search may have (1 where the words say nothing), and a demo of so many documents in place of a
/// script.
#[derive(Clone, Copy, Debug, PartialEq, Eq)]
pub struct Options {
    pub workers: u32,
    pub demo: Option<u32>,
}
