//! Counting the documents of a segment by number into a tally: side by side, in sorted runs, or by the list of each
//! number's documents.
#![tactic(auto)]

mod adding;
mod by_postings;
mod counting;
mod countings;
mod keys;
mod numbering;
mod postings;
mod rows;
mod runs;

pub use adding::add_cells;
pub use by_postings::add_postings;
pub use counting::counted_cells;
pub use countings::Countings;
pub use keys::Keys;
pub use numbering::Numbering;
pub use postings::Postings;
pub use runs::add_runs;
