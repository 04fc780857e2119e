// What the lines of a script are gathered in: its sessions, its batches and its phases.
mod gathered;
mod session;
mod shards;

pub(crate) use gathered::Gathered;
pub(crate) use session::session_number;
