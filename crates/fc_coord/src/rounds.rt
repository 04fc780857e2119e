// What lacks next.
ghost use Rattle.std.specs.Prelude.{◌≡◌, ℕ, ◌<◌, ◌^◌, IfOk, map, true};
ghost use Rattle.fc_spec.specs.messages.Lacks as definition;
ghost use Rattle.fc_spec.specs.words.Lists.{is_empty};
ghost use Rattle.fc_request.specs.RequestView.{request_view};
ghost use Rattle.fc_refine.specs.CountableRanges.{AreCountable};
ghost use Rattle.fc_lacks.specs.LackView.{lack_view};
ghost use Rattle.fc_told.specs.Telling.{TellersFit};
ghost use Rattle.fc_told.specs.TreeView.{tree_view};
ghost use Rattle.fc_coord.specs.TreeReading.{lacking_in, IsFound};

use crate::depth::terms_depth;
use crate::reading::lacks_at;
use fc_base::WantMemory;
use fc_lacks::Lack;
use fc_request::Request;
use fc_told::ToldBucket;
use std::alloc::Global;

/// What lacks, and how many terms facets are around it.
#[derive(Drop)]
pub(crate) struct NextLacks {
    pub(crate) depth: u32,
    pub(crate) lacks: Vec<Lack>,
}

/// What lacks at the least depth of terms facets at which something does. It begins at a depth below which nothing
/// lacks.
pub(crate) fn next_lacks(
    alloc: Global,
    request: &Request,
    shards: u32,
    told: &ToldBucket,
    from: u32,
) -> Result<NextLacks, WantMemory>
    requires countable { AreCountable (request_view request.now).nodes }
    requires depth { definition.terms_depth (request_view request.now).nodes < 2 ^ 32 }
    requires fit { TellersFit (tree_view told.now) }
    requires below { (e : ℕ) → e < from → is_empty (lacking_in (request_view request.now) shards (tree_view told.now) e) ≡ true }
    ensures { IfOk result (λ next. IsFound (lacking_in (request_view request.now) shards (tree_view told.now))
        (definition.terms_depth (request_view request.now).nodes) next.depth (map lack_view next.lacks.items)) }
{
    let depths = terms_depth(&request.root.nodes);
    for depth in from..depths {
        let lacks = lacks_at(alloc, request, shards, told, depth)?;
        if !lacks.is_empty() {
            return Ok(NextLacks { depth, lacks });
        }
    }
    Ok(NextLacks {
        depth: depths,
        lacks: Vec::new(alloc),
    })
}
