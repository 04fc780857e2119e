//! A round of a search: what each shard that is asked something answers over its generation, as bytes, by turns or by workers.
#![tactic(auto)]

mod driving;
mod hearing;
mod laws;
mod question;
mod response;
mod responses;
mod seat;
mod seats;
mod slot;
mod slots;
mod workers;

pub use hearing::message_of;
pub use question::{LentAsk, Question};
pub use response::Response;
pub use responses::responses_of;
