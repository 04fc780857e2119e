// What lacks at the terms facets of a depth.
ghost use Rattle.std.specs.Prelude.{◌≡◌, ◌++◌, [], IfOk, IsTrue, OnOk, map, if◌then◌else◌};
ghost use Rattle.std.specs.List.{flat_map};
ghost use Rattle.fc_spec.specs.requests.Request.{no_nodes};
ghost use Rattle.fc_spec.specs.requests.Shape.{asks_again as asks_again_of};
ghost use Rattle.fc_facet.specs.declared.kind.Kind.TheVariants as variant;
ghost use Rattle.fc_facet.specs.KindView.{terms_view};
ghost use Rattle.fc_refine.specs.AskView.{way_view};
ghost use Rattle.fc_refine.specs.CountableRanges.{AreCountable, IsCountable};
ghost use Rattle.fc_request.specs.FacetNode.{facet_view, has_buckets, kind_of, kind_view};
ghost use Rattle.fc_request.specs.NodeView.{inner_view, node_view};
ghost use Rattle.fc_reading.specs.Distinct.{AreDistinct};
ghost use Rattle.fc_lacks.specs.Keys.{AreCountedKeys, IsCountedKey, keyed_view};
ghost use Rattle.fc_lacks.specs.Inside.{inside_key, lacking_under};
ghost use Rattle.fc_lacks.specs.Lacking.{lacking as lacking_of, lacking_values};
ghost use Rattle.fc_lacks.specs.LackView.{lack_view};
ghost use Rattle.fc_reading.specs.Tree.{node_before};

use crate::asking::asks_at;
use crate::keyed::{Keyed, printed_buckets};
use crate::lacks::{Lack, push_values};
use fc_base::WantMemory;
use fc_facet::{Kind, Terms};
use fc_reading::{BucketReading, asks_again, chosen_again, has_no_tag};
use fc_refine::Step;
use fc_request::Node;
use std::alloc::Global;

// The number of a node, as in a step.
fn step_number(number: usize) -> Result<u32, WantMemory>
    ensures { IfOk result (λ n. n ≡ number) }
{
    match u32::try_from(number) {
        Ok(number) => Ok(number),
        // So many nodes are in no memory.
        Err(_) => Err(WantMemory),
    }
}

// The chosen values of a terms facet that asks again, at the shards that have told nothing of them.
fn push_chosen<R: BucketReading>(
    alloc: Global,
    reading: &R,
    number: u32,
    node: &Node,
    terms: &Terms,
    shards: &[u32],
    around: &R::Bucket,
    way: &[Step],
    lacks: &mut Vec<Lack>,
) -> Result<(), WantMemory>
    requires terms { kind_of node.now ≡ variant.Terms terms.now }
    requires distinct { AreDistinct shards.now }
    ensures { OnOk result (map lack_view lacks.new.items ≡ map lack_view lacks.old.items
        ++ (if asks_again_of (terms_view terms.now) (inner_view node.now) then lacking_values (R.reading reading.now) R.has (terms_view terms.now) (inner_view node.now)
        number shards.now ((R.reading reading.now).domain_on number (facet_view node.now) shards.now (R.held around.now)) (way_view way.now) else [])) }
{
    if !asks_again(node, terms) {
        return Ok(());
    }
    let domain = reading.domain_on(alloc, number as usize, node, shards, around)?;
    let stats = node.stats(alloc)?;
    let chosen = chosen_again(alloc, reading, node, terms, &stats, shards, &domain)?;
    push_values(alloc, reading, shards, way, number, &chosen, lacks)?;
    Ok(())
}

// What lacks in a printed bucket.
#[cycle(lacking)]
fn push_in_key<R: BucketReading>(
    alloc: Global,
    reading: &R,
    number: u32,
    node: &Node,
    one: Keyed<R::Bucket>,
    depth: u32,
    way: &mut Vec<Step>,
    lacks: &mut Vec<Lack>,
) -> Result<(), WantMemory>
    requires countable { AreCountable (inner_view node.now) }
    requires counted { IsCountedKey (R.reading reading.now) R.held one }
    ensures way { OnOk result (way.new.items ≡ way.old.items) }
    ensures lacks { OnOk result (map lack_view lacks.new.items ≡ map lack_view lacks.old.items
        ++ inside_key (R.reading reading.now) R.has (inner_view node.now) number (way_view way.old.items) depth (keyed_view R.held one.entry)) }
{
    let Keyed {
        key,
        shards,
        bucket,
        count,
    } = one;
    way.push(Step { node: number, key })?;
    push_in_bucket(
        alloc, reading, node, &shards, &bucket, count, depth, way, lacks,
    )?;
    let _left = way.pop();
    Ok(())
}

// What lacks in printed buckets.
#[cycle(lacking)]
fn push_in_keys<R: BucketReading>(
    alloc: Global,
    reading: &R,
    number: u32,
    node: &Node,
    buckets: Vec<Keyed<R::Bucket>>,
    depth: u32,
    way: &mut Vec<Step>,
    lacks: &mut Vec<Lack>,
) -> Result<(), WantMemory>
    requires countable { AreCountable (inner_view node.now) }
    requires counted { AreCountedKeys (R.reading reading.now) R.held buckets.items }
    ensures way { OnOk result (way.new.items ≡ way.old.items) }
    ensures lacks { OnOk result (map lack_view lacks.new.items ≡ map lack_view lacks.old.items
        ++ flat_map (inside_key (R.reading reading.now) R.has (inner_view node.now) number (way_view way.old.items) depth)
        (map (keyed_view R.held) buckets.entry.items)) }
{
    for one in buckets {
        push_in_key(alloc, reading, number, node, one, depth, way, lacks)?;
    }
    Ok(())
}

// What lacks under the buckets of a facet, of terms facets with so many terms facets between.
#[cycle(lacking)]
fn push_under<R: BucketReading>(
    alloc: Global,
    reading: &R,
    number: u32,
    node: &Node,
    shards: &[u32],
    around: &R::Bucket,
    depth: u32,
    way: &mut Vec<Step>,
    lacks: &mut Vec<Lack>,
) -> Result<(), WantMemory>
    requires facet { IsTrue (has_buckets (kind_of node.now)) }
    requires kind { IsCountable (kind_view (kind_of node.now)) }
    requires countable { AreCountable (inner_view node.now) }
    requires distinct { AreDistinct shards.now }
    ensures way { OnOk result (way.new.items ≡ way.old.items) }
    ensures lacks { OnOk result (map lack_view lacks.new.items ≡ map lack_view lacks.old.items
        ++ lacking_under (R.reading reading.now) R.has (kind_view (kind_of node.now)) (inner_view node.now) number shards.now
        ((R.reading reading.now).domain_on number (facet_view node.now) shards.now (R.held around.now)) (way_view way.old.items) depth) }
{
    if !asks_at(&node.nodes, depth) {
        return Ok(());
    }
    let domain = reading.domain_on(alloc, number as usize, node, shards, around)?;
    let buckets = printed_buckets(alloc, reading, node, shards, &domain)?;
    push_in_keys(alloc, reading, number, node, buckets, depth, way, lacks)?;
    Ok(())
}

// What lacks at a node or under its buckets, in a bucket with this count.
#[cycle(lacking)]
fn push_at_node<R: BucketReading>(
    alloc: Global,
    reading: &R,
    number: usize,
    node: &Node,
    shards: &[u32],
    around: &R::Bucket,
    count: u64,
    depth: u32,
    way: &mut Vec<Step>,
    lacks: &mut Vec<Lack>,
) -> Result<(), WantMemory>
    requires countable { AreCountable (node_before (node_view node.now) no_nodes) }
    requires distinct { AreDistinct shards.now }
    requires count { count ≡ (R.reading reading.now).count_on shards.now (R.held around.now) }
    ensures way { OnOk result (way.new.items ≡ way.old.items) }
    ensures lacks { OnOk result (map lack_view lacks.new.items ≡ map lack_view lacks.old.items
        ++ lacking_of (R.reading reading.now) R.has depth (node_before (node_view node.now) no_nodes) number shards.now
        (R.held around.now) (way_view way.old.items)) }
{
    if count == 0 && has_no_tag(&node.domain.exclude) {
        return Ok(());
    }
    let number = step_number(number)?;
    match &node.kind {
        Kind::Stat(_) => Ok(()),
        Kind::Terms(terms) => {
            if depth == 0 {
                push_chosen(
                    alloc, reading, number, node, terms, shards, around, way, lacks,
                )?;
            } else {
                push_under(
                    alloc,
                    reading,
                    number,
                    node,
                    shards,
                    around,
                    depth - 1,
                    way,
                    lacks,
                )?;
            }
            Ok(())
        }
        _ => {
            push_under(
                alloc, reading, number, node, shards, around, depth, way, lacks,
            )?;
            Ok(())
        }
    }
}

// What lacks at the nodes nested in one, or under their buckets, in a bucket with this count.
#[cycle(lacking)]
fn push_in_bucket<R: BucketReading>(
    alloc: Global,
    reading: &R,
    node: &Node,
    shards: &[u32],
    bucket: &R::Bucket,
    count: u64,
    depth: u32,
    way: &mut Vec<Step>,
    lacks: &mut Vec<Lack>,
) -> Result<(), WantMemory>
    requires countable { AreCountable (inner_view node.now) }
    requires distinct { AreDistinct shards.now }
    requires count { count ≡ (R.reading reading.now).count_on shards.now (R.held bucket.now) }
    ensures way { OnOk result (way.new.items ≡ way.old.items) }
    ensures lacks { OnOk result (map lack_view lacks.new.items ≡ map lack_view lacks.old.items
        ++ lacking_of (R.reading reading.now) R.has depth (inner_view node.now) 0 shards.now (R.held bucket.now) (way_view way.old.items)) }
{
    for (number, nested) in node.nodes.iter().enumerate() {
        push_at_node(
            alloc, reading, number, nested, shards, bucket, count, depth, way, lacks,
        )?;
    }
    Ok(())
}

/// What lacks at the terms facets that have so many terms facets around them: of the facets that ask again, in printed
/// buckets, the chosen values of which a shard that the bucket around them carries has told
/// nothing; value by value, and for each its shards, in the order of the definition. (Guide: JSON Facet API, "Terms Facet", `refine`)
pub fn lacking<R: BucketReading>(
    alloc: Global,
    reading: &R,
    node: &Node,
    shards: &[u32],
    bucket: &R::Bucket,
    depth: u32,
) -> Result<Vec<Lack>, WantMemory>
    requires countable { AreCountable (inner_view node.now) }
    requires distinct { AreDistinct shards.now }
    ensures { IfOk result (λ all. map lack_view all.items ≡ lacking_of (R.reading reading.now) R.has depth (inner_view node.now) 0
        shards.now (R.held bucket.now) []) }
{
    let stats = reading.stats_on(alloc, &[], shards, bucket)?;
    let mut way = Vec::new(alloc);
    let mut lacks = Vec::new(alloc);
    push_in_bucket(
        alloc,
        reading,
        node,
        shards,
        bucket,
        stats.count,
        depth,
        &mut way,
        &mut lacks,
    )?;
    Ok(lacks)
}
