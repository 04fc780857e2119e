// Reading nodes from JSON.
mod head;
mod nodes;
mod sort;
mod spread;

pub(crate) use nodes::{node, nodes_in, own};
