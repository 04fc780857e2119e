//! How the parameters of facets are read from the JSON of a request.
//!
//! Readers of the parts of a request that have no facets inside them. Each gives the part, or the first fault.
#![tactic(auto)]

mod dates;
mod domain;
mod fields;
mod filters;
mod query;
mod range;
mod refining;
mod statistic;
mod terms;
mod words;

pub use dates::any_range_in;
pub use domain::{change_in, no_change};
pub use filters::{filters_in, zero_in};
pub use query::{main_query, query_part};
pub use statistic::{statistic_of, unique_called};
pub use terms::terms_in;
pub use words::{check_names, is_word, optional_truth, required, text_in};
