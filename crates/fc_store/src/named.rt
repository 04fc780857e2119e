// What the operations of a batch name.
ghost use Rattle.std.specs.Prelude.{◌≡◌, ◌+◌, ◌≤◌, ◌∷◌, [], length, map, All, IfOk};
ghost use Rattle.fc_spec.specs.documents.Document.{Block};
ghost use Rattle.fc_spec.specs.documents.Live.{left_set};
ghost use Rattle.fc_spec.specs.documents.Operations.{blocks_added, is_named, op_id};
ghost use Rattle.fc_spec.specs.documents.Totals.{document_total};
ghost use Rattle.fc_spec.specs.documents.Val.{text};
ghost use Rattle.fc_base.specs.View.{val_view};
ghost use Rattle.fc_docs.specs.View.{op_view};
ghost use Rattle.fc_store.specs.Named.{has_one_of, left_with, op_size, ops_of, texts_of, IsText, NamesId};

use fc_base::{FieldId, Name, Val, WantMemory};
use fc_docs::Op;
use fc_docset::DocSet;
use std::alloc::Global;
use std::collections::BTreeSet;

// The field `id` is the first of every schema.
const ID: FieldId = FieldId(0);

// The one text among values.
fn text_of(values: &[Val]) -> &Name
    requires { IsText (map val_view values.now) }
    ensures { map val_view values.now ≡ text result.now ∷ [] }
{
    match values.first() {
        Some(Val::Text(name)) => name,
        _ => unreachable!(),
    }
}

// The id that an operation names.
fn id_of(op: &Op) -> &Name
    requires { NamesId (op_view op.now) }
    ensures { result.now ≡ op_id (op_view op.now) }
{
    match op {
        Op::Add(block) => text_of(block.parent.values(ID)),
        Op::Delete(id) => id,
    }
}

// How many documents operations add.
fn document_count(ops: &[&Op]) -> u32
    requires few { document_total (blocks_added (ops_of ops.now)) ≤ 1_048_576 }
    ensures { result ≡ document_total (blocks_added (ops_of ops.now)) }
{
    let mut count = 0;
    for op in ops {
        if let Op::Add(block) = *op {
            count += block.children.len() as u32 + 1;
        }
    }
    count
}

// Puts the block that an operation adds, which ends at a position, into the set, if it is left; and answers where it begins.
fn put(left: &mut DocSet, end: u32, op: &Op, is_left: bool) -> u32
    requires fits { op_size (op_view op.now) ≤ end }
    requires within { end ≤ length left.old }
    ensures start { result + op_size (op_view op.now) ≡ end }
    ensures left { left.new ≡ left_with left.old result end (op_view op.now) is_left }
{
    match op {
        Op::Add(block) => {
            let start = end - block.children.len() as u32 - 1;
            if is_left {
                left.add_range(start, end);
            }
            start
        }
        Op::Delete(_) => end,
    }
}

/// The positions of the blocks that operations add and that none behind names; and the ids that they name, each once, in ascending order.
pub fn named<'a>(alloc: Global, ops: &[&'a Op]) -> Result<(DocSet, Vec<&'a Name>), WantMemory>
    requires names { All NamesId (ops_of ops.now) }
    requires few { document_total (blocks_added (ops_of ops.now)) ≤ 1_048_576 }
    ensures left { IfOk result (λ made. made.0 ≡ left_set (ops_of ops.now)) }
    ensures ids { IfOk result (λ made. (b : Block)
        → has_one_of (texts_of made.1.items) b ≡ is_named (ops_of ops.now) b) }
{
    let mut end = document_count(ops);
    let mut left = DocSet::empty(alloc, end)?;
    let mut ids: BTreeSet<&'a Name> = BTreeSet::new(alloc);
    for at in (0..ops.len()).rev() {
        let op = ops[at];
        let is_left = ids.insert(id_of(op))?;
        end = put(&mut left, end, op, is_left);
    }
    let ids = ids.into_iter().collect(alloc)?;
    Ok((left, ids))
}
