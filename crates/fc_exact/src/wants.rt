// What shards are asked for that others told.
ghost use Rattle.std.specs.Prelude.{◌≡◌, ◌∷◌, ◌++◌, [], IfOk, OnOk, is_none, map};
ghost use Rattle.std.specs.Arc.{arc_value};
ghost use Rattle.fc_refine.specs.AskView.{wants_view};
ghost use Rattle.fc_exact.specs.ToldFacets.{count_on as count_on_of, wants_among, wants_in};
ghost use Rattle.fc_exact.specs.ToldView.{facet_view, value_view};

use crate::facets::ToldFacet;
use crate::totals::count_on;
use crate::values::ToldValue;
use fc_base::WantMemory;
use fc_partial::Key;
use fc_refine::{Step, Want};
use std::alloc::Global;
use std::sync::Arc;

// The number of a facet, as in a want.
fn want_number(facet: usize) -> Result<u32, WantMemory>
    ensures { IfOk result (λ number. number ≡ facet) }
{
    match u32::try_from(facet) {
        Ok(number) => Ok(number),
        // So many facets are in no memory.
        Err(_) => Err(WantMemory),
    }
}

// Whether the shard has not told of the value.
fn lacks(shard: u32, value: &ToldValue) -> bool
    ensures { result ≡ is_none (count_on_of shard (value_view value.now).1) }
{
    count_on(shard, &value.counts).is_none()
}

// One want more, where the shard has not told of the value.
fn push_want(
    alloc: Global,
    wants: &mut Vec<Want>,
    shard: u32,
    root: &Arc<Vec<Step>>,
    facet: u32,
    value: &ToldValue,
) -> Result<(), WantMemory>
    requires { (arc_value root.now).items ≡ [] }
    ensures { OnOk result (wants_view wants.new.items ≡ wants_view wants.old.items ++ wants_in shard facet (value_view value.now ∷ [])) }
{
    if !lacks(shard, value) {
        return Ok(());
    }
    wants.push(Want {
        path: Arc::try_clone(root)?,
        node: facet,
        key: Key::Value(value.val.copy(alloc)?),
    })?;
    Ok(())
}

// The wants of a facet.
fn push_wants(
    alloc: Global,
    wants: &mut Vec<Want>,
    shard: u32,
    root: &Arc<Vec<Step>>,
    facet: u32,
    values: &[ToldValue],
) -> Result<(), WantMemory>
    requires { (arc_value root.now).items ≡ [] }
    ensures { OnOk result (wants_view wants.new.items ≡ wants_view wants.old.items ++ wants_in shard facet (map value_view values.now)) }
{
    for value in values {
        push_want(alloc, wants, shard, root, facet, value)?;
    }
    Ok(())
}

/// The values of each facet of which the shard has not told, in the order of the facets.
pub(crate) fn wants_of(
    alloc: Global,
    shard: u32,
    root: &Arc<Vec<Step>>,
    facets: &[ToldFacet],
) -> Result<Vec<Want>, WantMemory>
    requires { (arc_value root.now).items ≡ [] }
    ensures { IfOk result (λ wants. wants_view wants.items ≡ wants_among shard 0 (map facet_view facets.now)) }
{
    let mut wants = Vec::new(alloc);
    for (number, facet) in facets.iter().enumerate() {
        let number = want_number(number)?;
        push_wants(alloc, &mut wants, shard, root, number, &facet.values)?;
    }
    Ok(wants)
}
