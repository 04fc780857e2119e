// The positions of the parents of a batch.
ghost use Rattle.std.specs.Prelude.{◌≡◌, ◌+◌, ◌^◌, ◌<◌, ◌≤◌, [], ◌∷◌, ◌++◌, length, map, take, IfOk};
ghost use Rattle.fc_spec.specs.documents.Operations.{blocks_added};
ghost use Rattle.fc_spec.specs.documents.Totals.{document_total};
ghost use Rattle.fc_spec.specs.words.Lists.{joined};
ghost use Rattle.fc_docs.specs.View.{batch_view, op_view};
ghost use Rattle.fc_segment.specs.Begun.{begun};
ghost use Rattle.fc_segment.specs.Parents.{parents_in};

use fc_base::WantMemory;
use fc_docs::{Batch, Op};
use fc_docset::DocSet;
use std::alloc::Global;

// How many documents an operation adds.
fn added(op: &Op) -> u32
    requires { document_total (blocks_added (op_view op.now ∷ [])) < 2 ^ 32 }
    ensures { result ≡ document_total (blocks_added (op_view op.now ∷ [])) }
{
    match op {
        Op::Add(block) => block.children.len() as u32 + 1,
        Op::Delete(_) => 0,
    }
}

// How many documents operations add.
fn document_count(ops: &[Op]) -> u32
    requires { document_total (blocks_added (map op_view ops.now)) < 2 ^ 32 }
    ensures { result ≡ document_total (blocks_added (map op_view ops.now)) }
{
    let mut count = 0;
    for op in ops {
        count += added(op);
    }
    count
}

// Marks the parent that an operation adds, whose block begins at `from`, and answers where the next block begins.
fn mark(parents: &mut DocSet, from: u32, op: &Op) -> u32
    requires room { from + document_total (blocks_added (op_view op.now ∷ [])) ≤ length parents.old }
    requires begun { parents.old ≡ begun (length parents.old) (take from parents.old) }
    ensures parents { parents.new ≡ begun (length parents.old)
        (take from parents.old ++ parents_in (blocks_added (op_view op.now ∷ []))) }
    ensures next { result ≡ from + document_total (blocks_added (op_view op.now ∷ [])) }
{
    let _len = parents.len();
    match op {
        Op::Add(block) => {
            let at = from + block.children.len() as u32;
            parents.add(at);
            at + 1
        }
        Op::Delete(_) => from,
    }
}

// Marks the parents that operations add, whose blocks begin at `from`, and answers where the next block begins.
fn mark_each(parents: &mut DocSet, from: u32, ops: &[Op]) -> u32
    requires room { from + document_total (blocks_added (map op_view ops.now)) ≤ length parents.old }
    requires begun { parents.old ≡ begun (length parents.old) (take from parents.old) }
    ensures parents { parents.new ≡ begun (length parents.old)
        (take from parents.old ++ parents_in (blocks_added (map op_view ops.now))) }
    ensures next { result ≡ from + document_total (blocks_added (map op_view ops.now)) }
{
    let mut next = from;
    for op in ops {
        next = mark(parents, next, op);
    }
    next
}

/// The positions of the parents that operations add, where each parent stands behind its children, block after block.
pub fn parents_of(alloc: Global, ops: &[Op]) -> Result<DocSet, WantMemory>
    requires { document_total (blocks_added (map op_view ops.now)) < 2 ^ 32 }
    ensures { IfOk result (λ parents. parents ≡ parents_in (blocks_added (map op_view ops.now))) }
{
    let mut parents = DocSet::empty(alloc, document_count(ops))?;
    mark_each(&mut parents, 0, ops);
    Ok(parents)
}

// How many documents the operations of batches add.
fn document_count_of(batches: &[Batch]) -> u32
    requires { document_total (blocks_added (joined (map batch_view batches.now))) < 2 ^ 32 }
    ensures { result ≡ document_total (blocks_added (joined (map batch_view batches.now))) }
{
    let mut count = 0;
    for batch in batches {
        count += document_count(&batch.ops);
    }
    count
}

/// The positions of the parents that the operations of batches add.
pub fn parents_of_batches(alloc: Global, batches: &[Batch]) -> Result<DocSet, WantMemory>
    requires { document_total (blocks_added (joined (map batch_view batches.now))) < 2 ^ 32 }
    ensures { IfOk result (λ parents. parents
        ≡ parents_in (blocks_added (joined (map batch_view batches.now)))) }
{
    let mut parents = DocSet::empty(alloc, document_count_of(batches))?;
    let mut next = 0;
    for batch in batches {
        next = mark_each(&mut parents, next, &batch.ops);
    }
    Ok(parents)
}
