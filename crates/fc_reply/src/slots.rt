// The names of a bucket in their order.
ghost use Rattle.std.specs.Prelude.{◌≡◌, codes, option_map, IfOk, OnOk};
ghost use Rattle.serde_json.specs.Data.{object, put};
ghost use Rattle.fc_base.specs.View.{val_view};
ghost use Rattle.fc_spec.specs.replies.Json.{natural_data, bucket_data, put_val, put_facets};
ghost use Rattle.fc_reply.specs.ReplyView.{bucket_view, facets_view};
ghost use Rattle.fc_reply.specs.declared.reply.ReplyBucket.{ReplyBucket, out-ReplyBucket};
ghost use Rattle.fc_reply.specs.Slots.{slot_data, slot_members};

use crate::ReplyBucket;
use fc_base::{Val, WantMemory};
use std::alloc::Global;
use std::collections::BTreeMap;

/// What stands at a name of a bucket: its count, its value, or the facet at this place.
#[derive(Clone, Copy, Drop)]
pub(crate) enum Slot<'b> {
    Count(u64),
    Val(&'b Val),
    Facet(usize),
}

// Puts a slot at this name.
fn put<'b>(
    name: &'b str,
    slot: Slot<'b>,
    slots: &mut BTreeMap<&'b str, Slot<'b>>,
) -> Result<(), WantMemory>
    ensures { OnOk result ((b : ReplyBucket) → slot_members b slots.new.entries
        ≡ put name.now (slot_data b slot.entry) (slot_members b slots.old.entries)) }
{
    match slots.insert(name, slot) {
        Ok(_) => Ok(()),
        Err(_) => Err(WantMemory),
    }
}

// Puts the count and the value.
fn put_own<'b>(
    bucket: &'b ReplyBucket,
    slots: &mut BTreeMap<&'b str, Slot<'b>>,
) -> Result<(), WantMemory>
    ensures { OnOk result (slot_members bucket.now slots.new.entries
        ≡ put_val (option_map val_view (out-ReplyBucket bucket.now).val)
        (put (codes "count") (natural_data (out-ReplyBucket bucket.now).count)
        (slot_members bucket.now slots.old.entries))) }
{
    put("count", Slot::Count(bucket.count), slots)?;
    match &bucket.val {
        Some(val) => put("val", Slot::Val(val), slots),
        None => Ok(()),
    }
}

// Puts each facet by its name.
fn put_facets<'b>(
    bucket: &'b ReplyBucket,
    slots: &mut BTreeMap<&'b str, Slot<'b>>,
) -> Result<(), WantMemory>
    ensures { OnOk result (slot_members bucket.now slots.new.entries
        ≡ put_facets (facets_view (out-ReplyBucket bucket.now).facets.items)
        (slot_members bucket.now slots.old.entries)) }
{
    for (at, facet) in bucket.facets.iter().enumerate() {
        put(facet.name.text(), Slot::Facet(at), slots)?;
    }
    Ok(())
}

/// What stands at the names of a bucket, in the order of their bytes.
pub(crate) fn slots_of<'b>(
    alloc: Global,
    bucket: &'b ReplyBucket,
) -> Result<BTreeMap<&'b str, Slot<'b>>, WantMemory>
    ensures { IfOk result (λ slots. object (slot_members bucket.now slots.entries)
        ≡ bucket_data (bucket_view bucket.now)) }
{
    let mut slots = BTreeMap::new(alloc);
    put_own(bucket, &mut slots)?;
    put_facets(bucket, &mut slots)?;
    Ok(slots)
}
