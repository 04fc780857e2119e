// What is left of the limits of a script.
ghost use Rattle.std.specs.Prelude.{◌≡◌, ◌-◌, length, sum_by, nat_le, None, Some, option_map, if◌then◌else◌};
ghost use Rattle.fc_docs.specs.View.{block_view};
ghost use Rattle.fc_script.specs.Left.{limits_after as left_after};
ghost use Rattle.fc_script.specs.LimitsView.{limits_view};

use crate::limits::Limits;
use fc_docs::{Block, Document};

// What is left of the room when each value of the documents takes one place, where there is enough.
fn room_after(documents: &[Document], room: u64) -> Option<u64>
    ensures { result ≡ (let count = sum_by (λ d. sum_by (λ values. length values) d) documents.now in
        if nat_le count room then Some (room - count) else None) }
{
    let mut left = room;
    for document in documents {
        left = document.room_after(left)?;
    }
    Some(left)
}

/// What is left when the block takes its places, where there is enough.
pub(crate) fn limits_after(left: Limits, block: &Block) -> Option<Limits>
    ensures { option_map limits_view result ≡ left_after (limits_view left) (block_view block.now) }
{
    let children = block.children.len() as u64;
    let documents = left.documents.checked_sub(children)?.checked_sub(1)?;
    let values = room_after(&block.children, left.values)?;
    Some(Limits {
        documents,
        values: block.parent.room_after(values)?,
    })
}
