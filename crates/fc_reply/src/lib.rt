//! Reply trees, which hold what is printed and nothing else, and the lines that are written of them.
#![tactic(auto)]

mod bucket;
mod error;
mod leaf;
mod line;
mod reply;
mod slots;

pub use error::error_line;
pub use line::reply_line;
pub use reply::{Reply, ReplyBody, ReplyBucket, ReplyBuckets, ReplyFacet};
