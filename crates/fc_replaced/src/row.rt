// The row of an exact facet, from the facets of the replaced request.
ghost use Rattle.std.specs.Prelude.{◌≡◌, ◌++◌, IfOk, List, None, OnOk, if◌then◌else◌, map, option_map};
ghost use Rattle.fc_spec.specs.requests.Buckets as buckets;
ghost use Rattle.fc_spec.specs.requests.Request as requests;
ghost use Rattle.fc_spec.specs.replies.Printed.{asked};
ghost use Rattle.fc_spec.specs.replies.Reply as replies;
ghost use Rattle.fc_spec.specs.replies.Restored as definition;
ghost use Rattle.fc_spec.specs.replies.Tops.{top_keys};
ghost use Rattle.fc_base.specs.View.{val_view};
ghost use Rattle.fc_facet.specs.KindView.{terms_view};
ghost use Rattle.fc_reply.specs.ReplyView.{bucket_view, buckets_view, facet_view, facets_view, part_over, parts_over, row_body};
ghost use Rattle.fc_replaced.specs.Fronts.{first_bucket, row_if};
ghost use Rattle.fc_replaced.specs.TopsView.{vals_view};

use fc_base::{Val, WantMemory};
use fc_facet::Terms;
use fc_reply::{ReplyBody, ReplyBucket, ReplyBuckets, ReplyFacet};
use std::alloc::Global;
use std::collections::VecDeque;

// The bucket of a facet, where it is one bucket.
fn bucket_in(facet: ReplyFacet) -> Option<ReplyBucket>
    ensures { (more : replies.Facets) → option_map bucket_view result ≡ first_bucket (facet_view facet more) }
{
    let ReplyFacet { name: _name, body } = facet;
    match body {
        ReplyBody::One(bucket) => Some(bucket),
        _ => None,
    }
}

// Takes the first facet, and gives its bucket where it is one bucket.
fn first_taken(left: &mut VecDeque<ReplyFacet>) -> Option<ReplyBucket>
    ensures bucket { option_map bucket_view result ≡ first_bucket (facets_view left.old.items) }
    ensures left { facets_view left.new.items ≡ definition.after_first (facets_view left.old.items) }
{
    match left.pop_front() {
        Some(facet) => bucket_in(facet),
        None => None,
    }
}

// Takes the first facet, and gives its bucket where it is one bucket and each before it was.
fn next_bucket(is_whole: bool, left: &mut VecDeque<ReplyFacet>) -> Option<ReplyBucket>
    ensures bucket { option_map bucket_view result
        ≡ (if is_whole then first_bucket (facets_view left.old.items) else None) }
    ensures left { facets_view left.new.items ≡ definition.after_first (facets_view left.old.items) }
{
    let bucket = first_taken(left);
    if is_whole { bucket } else { None }
}

// The bucket with this value, or with none.
fn with_val(val: Option<Val>, bucket: ReplyBucket) -> ReplyBucket
    ensures { bucket_view result ≡ definition.with_val (option_map val_view val) (bucket_view bucket) }
{
    let ReplyBucket {
        val: _none,
        count,
        facets,
    } = bucket;
    ReplyBucket { val, count, facets }
}

// Adds the bucket with this value, where there is one.
fn add_bucket(
    alloc: Global,
    val: &Val,
    bucket: Option<ReplyBucket>,
    list: &mut Vec<ReplyBucket>,
) -> Result<(), WantMemory>
    ensures { OnOk result ((more : replies.Row) → parts_over replies.listed (map bucket_view list.new.items) more
        ≡ parts_over replies.listed (map bucket_view list.old.items) (part_over replies.listed
        (option_map (definition.with_val (Some (val_view val.now))) (option_map bucket_view bucket)) more)) }
{
    match bucket {
        Some(bucket) => {
            let val = val.copy(alloc)?;
            list.push(with_val(Some(val), bucket))?;
            Ok(())
        }
        None => Ok(()),
    }
}

// Takes a facet for each of the values, and gives their buckets, each with its value: those before the first facet that is
// not one bucket, and whether there is none such.
fn value_buckets(
    alloc: Global,
    vals: &[Val],
    left: &mut VecDeque<ReplyFacet>,
) -> Result<(Vec<ReplyBucket>, bool), WantMemory>
    ensures row { IfOk result (λ taken. (t : requests.Terms) (keys : List buckets.Key)
        → parts_over replies.listed (map bucket_view taken.0.items) (row_if taken.1 t keys (facets_view left.new.items))
        ≡ definition.row_from t (map buckets.value (vals_view vals.now) ++ keys) (facets_view left.old.items)) }
    ensures left { OnOk result (facets_view left.new.items
        ≡ definition.after_keys (map buckets.value (vals_view vals.now)) (facets_view left.old.items)) }
{
    let mut list = Vec::with_capacity(alloc, vals.len())?;
    let mut is_whole = true;
    for val in vals {
        let bucket = next_bucket(is_whole, left);
        is_whole = bucket.is_some();
        add_bucket(alloc, val, bucket, &mut list)?;
    }
    Ok((list, is_whole))
}

// Takes the facet of the documents without a value, where these have a bucket, and gives its bucket where each before it
// was one bucket.
fn missing_bucket(
    is_asked: bool,
    is_whole: bool,
    left: &mut VecDeque<ReplyFacet>,
) -> Option<ReplyBucket>
    ensures row { (t : requests.Terms) → part_over replies.as_missing (option_map bucket_view result) replies.no_parts
        ≡ row_if is_whole t (asked is_asked buckets.missing) (facets_view left.old.items) }
    ensures left { facets_view left.new.items
        ≡ definition.after_keys (asked is_asked buckets.missing) (facets_view left.old.items) }
{
    if !is_asked {
        return None;
    }
    match next_bucket(is_whole, left) {
        Some(bucket) => Some(with_val(None, bucket)),
        None => None,
    }
}

/// Takes the facets of an exact facet's buckets, where these are its top values, and gives the row of these buckets; their
/// number is not printed.
pub(crate) fn row(
    alloc: Global,
    terms: &Terms,
    vals: &[Val],
    left: &mut VecDeque<ReplyFacet>,
) -> Result<ReplyBuckets, WantMemory>
    ensures row { IfOk result (λ row. buckets_view row ≡ row_body None (definition.row_from (terms_view terms.now)
        (top_keys (terms_view terms.now) (vals_view vals.now)) (facets_view left.old.items))) }
    ensures left { OnOk result (facets_view left.new.items ≡ definition.after_keys
        (top_keys (terms_view terms.now) (vals_view vals.now)) (facets_view left.old.items)) }
{
    let (list, is_whole) = value_buckets(alloc, vals, left)?;
    let missing = missing_bucket(terms.missing, is_whole, left);
    Ok(ReplyBuckets {
        list,
        missing,
        before: None,
        between: None,
        after: None,
        number: None,
    })
}
