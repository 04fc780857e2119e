// What is counted over the documents of a script.
ghost use Rattle.std.specs.Prelude.{◌≡◌, ◌+◌, ◌≤◌, ℕ, [], ◌∷◌, ◌++◌, length, nat_le, slice_index, All, IfOk, List};
ghost use Rattle.std.specs.Bool.{OnTrue};
ghost use Rattle.std.specs.List.{list_all, range_with_len};
ghost use Rattle.std.specs.Result.{result_map_both};
ghost use Rattle.fc_spec.specs.documents.Document as definition;
ghost use Rattle.fc_spec.specs.scripts.ScriptReading.{check_documents};
ghost use Rattle.fc_spec.specs.scripts.ScriptTotals as totals;
ghost use Rattle.fc_spec.specs.documents.Totals.{documents_in, documents_of};
ghost use Rattle.fc_spec.specs.documents.ValidBlocks.{IsBlockOf};
ghost use Rattle.fc_docs.specs.View.{block_view};
ghost use Rattle.fc_lines.specs.FaultView.{line_fault_view};
ghost use Rattle.fc_script.specs.DocumentCounts.{AreDocumentCounts};
ghost use Rattle.fc_script.specs.LimitsView.{limits_view};

use super::room::limits_after;
use crate::limits::Limits;
use fc_base::{Schema, WantMemory};
use fc_docs::Block;
use fc_lines::LineFault;
use std::alloc::Global;

/// For each field the sum of the absolute values of its integers, and what is left of the limits on
/// documents and values.
#[derive(Drop)]
pub(crate) struct DocumentCounts {
    pub(crate) sums: Vec<u64>,
    pub(crate) left: Limits,
}

// Adds the absolute values of a block's integers to the sum of each field, and says whether every sum
// stayed within 64 bits signed.
fn add_to_sums(sums: &mut [u64], block: &Block) -> bool
    requires room { All (λ d. length d ≡ length sums.old) (documents_of (block_view block.now)) }
    requires within { All (λ sum. sum ≤ totals.total_limit) sums.old }
    ensures fits { result ≡ list_all (λ field. nat_le (slice_index sums.old field
        + totals.absolute_total (documents_of (block_view block.now)) field) totals.total_limit)
        (range_with_len 0 (length sums.old)) }
    ensures sums { OnTrue result ((field : ℕ) → slice_index sums.new field
        ≡ slice_index sums.old field + totals.absolute_total (documents_of (block_view block.now)) field) }
    ensures still { OnTrue result (All (λ sum. sum ≤ totals.total_limit) sums.new) }
{
    for child in &block.children {
        if !child.add_to_sums(sums) {
            return false;
        }
    }
    block.parent.add_to_sums(sums)
}

impl DocumentCounts {
    /// What is counted over no document.
    pub(crate) fn new(
        alloc: Global,
        schema: &Schema,
        limits: Limits,
    ) -> Result<DocumentCounts, WantMemory>
        ensures { IfOk result
            (AreDocumentCounts (limits_view limits) (length schema.now.fields) []) }
    {
        Ok(DocumentCounts {
            sums: vec![in alloc; 0; schema.fields() as usize]?,
            left: limits,
        })
    }

    /// What is counted over the documents of one block more, where the sums and the numbers are within
    /// their limits.
    pub(crate) fn with(self, schema: &Schema, block: &Block) -> Result<DocumentCounts, LineFault>
        requires valid { IsBlockOf schema.now (block_view block.now) }
        requires fields { length self.sums.items ≡ length schema.now.fields }
        requires within { All (λ sum. sum ≤ totals.total_limit) self.sums.items }
        ensures fields { IfOk result (λ counts. length counts.sums.items ≡ length schema.now.fields) }
        ensures within { IfOk result (λ counts. All (λ sum. sum ≤ totals.total_limit) counts.sums.items) }
        ensures counted { (limits : totals.Limits) (blocks : List definition.Block)
            → AreDocumentCounts limits (length schema.now.fields) blocks self
            → (result_map_both (λ counts. tt) line_fault_view result
            ≡ check_documents limits schema.now (documents_in (blocks ++ block_view block.now ∷ [])))
            × IfOk result (AreDocumentCounts limits (length schema.now.fields)
            (blocks ++ block_view block.now ∷ [])) }
    {
        let DocumentCounts { mut sums, left } = self;
        if !add_to_sums(&mut sums, block) {
            return Err(LineFault::FieldTotal);
        }
        match limits_after(left, block) {
            Some(left) => Ok(DocumentCounts { sums, left }),
            None => Err(LineFault::TooManyDocuments),
        }
    }
}
