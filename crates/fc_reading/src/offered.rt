// The values that shards offer.
ghost use Rattle.std.specs.Prelude.{◌≡◌, ◌∷◌, ℕ, [], List, All, IfOk, OnOk, length, map};
ghost use Rattle.std.specs.List.{filter};
ghost use Rattle.std.specs.List.Sorted.{IsStrictlySortedBy};
ghost use Rattle.fc_spec.specs.documents.Val as definition;
ghost use Rattle.fc_base.specs.View.{val_view};
ghost use Rattle.fc_request.specs.FacetNode.{vals_view};
ghost use Rattle.fc_refine.specs.Grouped.{Grows, Holds, map_view};
ghost use Rattle.fc_reading.specs.Terms.{merged as merged_of, offered_view};

use fc_base::{Val, WantMemory};
use std::alloc::Global;
use std::collections::BTreeMap;

/// A value with the shards that offer it.
#[derive(Drop)]
pub(crate) struct Offered<'d> {
    pub(crate) val: &'d Val,
    pub(crate) shards: Vec<u32>,
}

// Puts a shard behind those of a value.
fn push_shard<'d>(
    alloc: Global,
    by_value: &mut BTreeMap<&'d Val, Vec<u32>>,
    val: &'d Val,
    shard: u32,
) -> Result<(), WantMemory>
    ensures { OnOk result (Grows (λ i. i) by_value.old by_value.new (val_view val.now ∷ []) shard) }
{
    let shards = by_value.entry(val)?.or_insert(Vec::new(alloc));
    shards.push(shard)?;
    Ok(())
}

// Puts a shard behind those of each value that it offers.
fn push_for_each<'d>(
    alloc: Global,
    by_value: &mut BTreeMap<&'d Val, Vec<u32>>,
    vals: &[&'d Val],
    shard: u32,
) -> Result<(), WantMemory>
    requires { IsStrictlySortedBy definition.val_cmp (vals_view vals.now) }
    ensures { OnOk result (Grows (λ i. i) by_value.old by_value.new (vals_view vals.now) shard) }
{
    for val in vals {
        push_shard(alloc, by_value, *val, shard)?;
    }
    Ok(())
}

// The shards that offer each value.
fn shards_by_value<'d>(
    alloc: Global,
    shards: &[u32],
    offers: &[Vec<&'d Val>],
) -> Result<BTreeMap<&'d Val, Vec<u32>>, WantMemory>
    requires length { length offers.now ≡ length shards.now }
    requires ascend { All (λ list. IsStrictlySortedBy definition.val_cmp (vals_view list.items)) offers.now }
    ensures { IfOk result (λ by_value. (f : ℕ → List definition.Val)
        → map (λ list. vals_view list.items) offers.now ≡ map f shards.now
        → Holds (λ v. filter (λ i. definition.has_val v (f i)) shards.now) (map_view (λ i. i) by_value)) }
{
    let mut by_value = BTreeMap::new(alloc);
    for (at, vals) in offers.iter().enumerate() {
        push_for_each(alloc, &mut by_value, vals, shards[at])?;
    }
    Ok(by_value)
}

// The values in index order, each with its shards.
fn listed<'d>(
    alloc: Global,
    by_value: BTreeMap<&'d Val, Vec<u32>>,
) -> Result<Vec<Offered<'d>>, WantMemory>
    ensures { IfOk result (λ list. map offered_view list.items ≡ map_view (λ i. i) by_value.entry) }
{
    let mut list = Vec::with_capacity(alloc, by_value.len())?;
    for (val, shards) in by_value {
        list.push(Offered { val, shards })?;
    }
    Ok(list)
}

/// The values that some shard offers, in index order, each with the shards that offer it.
pub(crate) fn merged<'d>(
    alloc: Global,
    shards: &[u32],
    offers: &[Vec<&'d Val>],
) -> Result<Vec<Offered<'d>>, WantMemory>
    requires length { length offers.now ≡ length shards.now }
    requires ascend { All (λ list. IsStrictlySortedBy definition.val_cmp (vals_view list.items)) offers.now }
    ensures { IfOk result (λ offered. (f : ℕ → List definition.Val)
        → map (λ list. vals_view list.items) offers.now ≡ map f shards.now
        → map offered_view offered.items ≡ merged_of f shards.now) }
{
    let by_value = shards_by_value(alloc, shards, offers)?;
    let list = listed(alloc, by_value)?;
    Ok(list)
}
