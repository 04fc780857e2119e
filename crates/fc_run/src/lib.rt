//! The top call: from the bytes of a script to the bytes of its replies.
#![tactic(auto)]

mod book;
mod booking;
mod call;
mod commits;
mod laws;
mod lines;
mod list_book;
mod openings;
mod phases;
mod run_script;
mod shards;
mod sources;
mod status;
mod stop;

pub use book::{Book, NoBook};
pub use call::run;
pub use fc_hooks::Sent;
pub use fc_work::{Gate, NoGate};
pub use list_book::ListBook;
pub use status::Status;
