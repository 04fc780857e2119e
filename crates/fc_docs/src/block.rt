// Blocks, operations and batches.
use crate::Document;
use fc_base::Name;

/// Child documents, and the parent that follows them.
#[derive(Debug, Drop)]
pub struct Block {
    pub children: Vec<Document>,
    pub parent: Document,
}

/// What a line does to a shard. Children go with their parent.
#[derive(Debug, Drop)]
pub enum Op {
    /// Takes away the blocks whose parent has the id of this block's parent, and adds this one.
    Add(Block),
    /// Takes away the blocks whose parent has this id.
    Delete(Name),
}

/// The operations that one commit of a shard makes seen, in the order of their lines.
#[derive(Debug, Drop)]
pub struct Batch {
    pub ops: Vec<Op>,
}
