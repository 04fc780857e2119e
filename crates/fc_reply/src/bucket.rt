// Writing buckets, a token at a time.
ghost use Rattle.std.specs.Prelude.{map, option_map, OnOk};
ghost use Rattle.serde_json.specs.Data.{array, object};
ghost use Rattle.serde_json.specs.View.{items_of};
ghost use Rattle.fc_spec.specs.replies.Json.{bucket_data};
ghost use Rattle.fc_reply.specs.ReplyView.{bucket_view, body_view, buckets_view};
ghost use Rattle.fc_reply.specs.Slots.{body_data, slot_data, slot_members};
ghost use Rattle.fc_reply.specs.Tokens.{WritesData, WritesMember};

use crate::leaf::{write_leaf, write_number, write_val};
use crate::slots::{Slot, slots_of};
use crate::{ReplyBody, ReplyBucket, ReplyBuckets};
use fc_base::WantMemory;
use json::Writer;
use std::alloc::Global;
use std::collections::BTreeMap;

/// A bucket.
#[cycle(write)]
pub(crate) fn write_bucket(
    alloc: Global,
    bucket: &ReplyBucket,
    out: &mut Writer,
) -> Result<(), WantMemory>
    ensures { OnOk result (WritesData out.old out.new (bucket_data (bucket_view bucket.now))) }
{
    if bucket.facets.is_empty() {
        return write_leaf(&bucket.val, bucket.count, out);
    }
    let slots = slots_of(alloc, bucket)?;
    write_slots(alloc, bucket, &slots, out)
}

// What stands at these names of a bucket.
#[cycle(write)]
fn write_slots(
    alloc: Global,
    bucket: &ReplyBucket,
    slots: &BTreeMap<&str, Slot>,
    out: &mut Writer,
) -> Result<(), WantMemory>
    ensures { OnOk result (WritesData out.old out.new
        (object (slot_members bucket.now slots.now.entries))) }
{
    out.begin_object()?;
    for (name, slot) in slots {
        out.key(name)?;
        write_slot(alloc, bucket, *slot, out)?;
    }
    Ok(out.end_object()?)
}

// What stands at one name of a bucket; the place of a facet is within its facets.
#[cycle(write)]
fn write_slot(
    alloc: Global,
    bucket: &ReplyBucket,
    slot: Slot,
    out: &mut Writer,
) -> Result<(), WantMemory>
    ensures { OnOk result (WritesData out.old out.new (slot_data bucket.now slot.entry)) }
{
    match slot {
        Slot::Count(count) => Ok(out.u64(count)?),
        Slot::Val(val) => write_val(val, out),
        Slot::Facet(at) => match bucket.facets.get(at) {
            Some(facet) => write_body(alloc, &facet.body, out),
            None => Ok(out.null()?),
        },
    }
}

// What stands at a facet's name.
#[cycle(write)]
fn write_body(alloc: Global, body: &ReplyBody, out: &mut Writer) -> Result<(), WantMemory>
    ensures { OnOk result (WritesData out.old out.new (body_data (body_view body.now))) }
{
    match body {
        ReplyBody::Number(number) => Ok(out.i64(*number)?),
        ReplyBody::Many(buckets) => write_buckets(alloc, buckets, out),
        ReplyBody::One(bucket) => write_bucket(alloc, bucket, out),
    }
}

// The buckets of a facet, those beside them, and their number, in the order of their names.
#[cycle(write)]
fn write_buckets(alloc: Global, buckets: &ReplyBuckets, out: &mut Writer) -> Result<(), WantMemory>
    ensures { OnOk result (WritesData out.old out.new (body_data (buckets_view buckets.now))) }
{
    out.begin_object()?;
    write_beside(alloc, &buckets.after, "after", out)?;
    write_beside(alloc, &buckets.before, "before", out)?;
    write_beside(alloc, &buckets.between, "between", out)?;
    out.key("buckets")?;
    write_list(alloc, &buckets.list, out)?;
    write_beside(alloc, &buckets.missing, "missing", out)?;
    write_number(buckets.number, out)?;
    Ok(out.end_object()?)
}

// Buckets in their order.
#[cycle(write)]
fn write_list(alloc: Global, buckets: &[ReplyBucket], out: &mut Writer) -> Result<(), WantMemory>
    ensures { OnOk result (WritesData out.old out.new
        (array (items_of (map bucket_data (map bucket_view buckets.now))))) }
{
    out.begin_array()?;
    for bucket in buckets {
        write_bucket(alloc, bucket, out)?;
    }
    Ok(out.end_array()?)
}

// A bucket by this name, where it is there.
#[cycle(write)]
fn write_beside(
    alloc: Global,
    bucket: &Option<ReplyBucket>,
    name: &str,
    out: &mut Writer,
) -> Result<(), WantMemory>
    ensures { OnOk result (WritesMember out.old out.new name.now
        (option_map bucket_data (option_map bucket_view bucket.now))) }
{
    match bucket {
        Some(bucket) => {
            out.key(name)?;
            write_bucket(alloc, bucket, out)
        }
        None => Ok(()),
    }
}
