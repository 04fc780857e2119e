// What was told.
ghost use Rattle.std.specs.Prelude.{◌≡◌, ◌++◌, ◌∷◌, [], OnOk, map};
ghost use Rattle.fc_spec.specs.messages.TopRounds as definition;
ghost use Rattle.fc_partial.specs.BucketView.{buckets_view, message_view, rows_view};
ghost use Rattle.fc_refine.specs.AskView.{want_view, wants_view};
ghost use Rattle.fc_exact.specs.View.{ask_view, told_view};

use crate::ExactAsk;
use fc_base::{Val, WantMemory};
use fc_partial::{Key, Message, PartialBucket, PartialNode};
use fc_refine::Want;
use std::alloc::Global;

/// The count of a value of a facet on a shard.
#[derive(Debug, Drop)]
pub(crate) struct ToldCount {
    // The place of the facet among the facets.
    pub(crate) node: usize,
    pub(crate) shard: u32,
    pub(crate) val: Val,
    pub(crate) count: u64,
}

// The count of a bucket, where it is that of a value.
fn tell_bucket(
    told: &mut Vec<ToldCount>,
    node: usize,
    shard: u32,
    bucket: PartialBucket,
) -> Result<(), WantMemory>
    ensures { OnOk result (map told_view told.new.items ≡ map told_view told.old.items
        ++ map (definition.tell node shard) (definition.listed_entries (buckets_view (bucket ∷ [])))) }
{
    let PartialBucket {
        key,
        stats,
        nodes: _,
    } = bucket;
    let count = stats.count;
    match key {
        Key::Value(val) => told.push(ToldCount {
            node,
            shard,
            val,
            count,
        })?,
        _ => {}
    }
    Ok(())
}

/// The counts of the values among the buckets of a facet.
pub(crate) fn tell_list(
    told: &mut Vec<ToldCount>,
    node: usize,
    shard: u32,
    list: Vec<PartialBucket>,
) -> Result<(), WantMemory>
    ensures { OnOk result (map told_view told.new.items ≡ map told_view told.old.items
        ++ map (definition.tell node shard) (definition.listed_entries (buckets_view list.items))) }
{
    for bucket in list {
        tell_bucket(told, node, shard, bucket)?;
    }
    Ok(())
}

/// The counts of the values among the buckets of facets, in the order of the facets.
pub(crate) fn tell_rows(
    told: &mut Vec<ToldCount>,
    shard: u32,
    nodes: Vec<PartialNode>,
) -> Result<(), WantMemory>
    ensures { OnOk result (map told_view told.new.items ≡ map told_view told.old.items
        ++ definition.told_rows 0 shard (rows_view nodes.items)) }
{
    let mut number = 0;
    for node in nodes {
        let PartialNode { buckets } = node;
        tell_list(told, number, shard, buckets)?;
        number += 1;
    }
    Ok(())
}

// The count of a bucket that was wanted, where it is that of a value.
fn tell_want(
    alloc: Global,
    told: &mut Vec<ToldCount>,
    shard: u32,
    want: &Want,
    bucket: PartialBucket,
) -> Result<(), WantMemory>
    ensures { OnOk result (map told_view told.new.items ≡ map told_view told.old.items
        ++ definition.told_wanted shard (want_view want.now ∷ []) (buckets_view (bucket ∷ []))) }
{
    let PartialBucket {
        key: _,
        stats,
        nodes: _,
    } = bucket;
    let count = stats.count;
    match &want.key {
        Key::Value(val) => told.push(ToldCount {
            node: want.node as usize,
            shard,
            val: val.copy(alloc)?,
            count,
        })?,
        _ => {}
    }
    Ok(())
}

/// The counts of the buckets that were wanted, in their order.
pub(crate) fn tell_wants(
    alloc: Global,
    told: &mut Vec<ToldCount>,
    shard: u32,
    wants: &[Want],
    buckets: Vec<PartialBucket>,
) -> Result<(), WantMemory>
    ensures { OnOk result (map told_view told.new.items ≡ map told_view told.old.items
        ++ definition.told_wanted shard (wants_view wants.now) (buckets_view buckets.items)) }
{
    let mut left = buckets.into_iter();
    for want in wants {
        let Some(bucket) = left.next() else {
            return Ok(());
        };
        tell_want(alloc, told, shard, want, bucket)?;
    }
    Ok(())
}

// The counts of the values in the first bucket of a message.
fn tell_top(told: &mut Vec<ToldCount>, shard: u32, message: Message) -> Result<(), WantMemory>
    ensures { OnOk result (map told_view told.new.items ≡ map told_view told.old.items
        ++ definition.told_top shard (message_view message)) }
{
    let Message { buckets } = message;
    let mut left = buckets.into_iter();
    let Some(bucket) = left.next() else {
        return Ok(());
    };
    let PartialBucket {
        key: _,
        stats: _,
        nodes,
    } = bucket;
    tell_rows(told, shard, nodes)
}

/// What a message tells, of a shard that was asked something.
pub(crate) fn tell_answer(
    alloc: Global,
    told: &mut Vec<ToldCount>,
    shard: u32,
    ask: ExactAsk,
    message: Message,
) -> Result<(), WantMemory>
    ensures { OnOk result (map told_view told.new.items ≡ map told_view told.old.items
        ++ definition.exact_told shard (ask_view ask) (message_view message)) }
{
    match ask {
        ExactAsk::First => tell_top(told, shard, message),
        ExactAsk::Least(_) => tell_top(told, shard, message),
        ExactAsk::More(wants) => {
            let Message { buckets } = message;
            tell_wants(alloc, told, shard, &wants, buckets)
        }
    }
}
