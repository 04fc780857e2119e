// The documents in a bucket of a range facet.
ghost use Rattle.std.specs.Prelude.{◌≡◌, ◌<◌, ℕ, ℤ, ◌&&◌, length, map, slice_index_or, All, Bool, false};
ghost use Rattle.std.specs.List.{list_any};
ghost use Rattle.fc_spec.specs.documents.Sets.{zip_with};
ghost use Rattle.fc_spec.specs.documents.Totals.{document_total};
ghost use Rattle.fc_spec.specs.requests.DomainSets.{bucket_set};
ghost use Rattle.fc_spec.specs.requests.Request as kind;
ghost use Rattle.fc_facet.specs.KindView.{range_view};
ghost use Rattle.fc_partial.specs.View.{key_view};
ghost use Rattle.fc_lists.specs.Among.{is_among};
ghost use Rattle.fc_column.specs.Longs.{has_between};
ghost use Rattle.fc_docset.specs.Positions.{contains};
ghost use Rattle.fc_domain.specs.Within.{PassesFromTo};
ghost use Rattle.fc_kind.specs.Columns.{FitsColumns};

use crate::spans::integers_of;
use fc_column::LongColumn;
use fc_docset::DocSet;
use fc_facet::Range;
use fc_partial::Key;
use fc_segment::{Column, Segment};

// Whether one of the integers lies from `least` to `greatest`, both included.
fn has_from_to(values: &[i64], least: i64, greatest: i64) -> bool
    ensures { result ≡ has_between least greatest values.now }
{
    values
        .iter()
        .any(|value| least <= *value && *value <= greatest)
}

// Makes the set those of the documents in the other set that have an integer from `least` to `greatest`, both
// included. It reads the integers of the documents in the other set.
fn keep_from_to(column: &LongColumn, least: i64, greatest: i64, docs: &DocSet, into: &mut DocSet)
    requires length { length docs.now ≡ length column.now }
    requires same_length { length into.old ≡ length column.now }
    ensures set { into.new ≡ zip_with ◌&&◌ docs.now (map (has_between least greatest) column.now) }
    ensures kept { length into.new ≡ length into.old }
{
    into.clear();
    for at in docs.iter() {
        if has_from_to(column.values_of(at), least, greatest) {
            into.add(at);
        }
    }
}

// Makes the set those of the positions that are in the other set.
fn pick(positions: &[u32], docs: &DocSet, into: &mut DocSet)
    requires within { All (λ at. at < length docs.now) positions.now }
    requires same_length { length into.old ≡ length docs.now }
    ensures set { (at : ℕ) → contains into.new at
        ≡ (contains docs.now at && is_among at positions.now) }
    ensures kept { length into.new ≡ length into.old }
{
    into.clear();
    for at in positions {
        if docs.contains(*at) {
            into.add(*at);
        }
    }
}

// Whether the documents of the set have fewer integers than so many, where one without any counts as if it had one. It reads the
// integers of none where the documents alone are as many.
fn have_fewer(column: &LongColumn, docs: &DocSet, many: usize) -> bool
    requires { length docs.now ≡ length column.now }
{
    if docs.count() as usize >= many {
        return false;
    }
    let mut left = many;
    for at in docs.iter() {
        let own = column.values_of(at).len().max(1);
        if left <= own {
            return false;
        }
        left -= own;
    }
    left > 0
}

// Makes the set those of the documents in the other set that have an integer from `least` to `greatest`, both
// included.
fn select_from_to(column: &LongColumn, least: i64, greatest: i64, docs: &DocSet, into: &mut DocSet)
    requires length { length docs.now ≡ length column.now }
    requires same_length { length into.old ≡ length column.now }
    ensures set { (test : ℤ → Bool) → PassesFromTo least greatest test
        → into.new ≡ zip_with ◌&&◌ docs.now (map (list_any test) column.now) }
    ensures kept { length into.new ≡ length into.old }
{
    let found = column.positions_between(least, greatest);
    if have_fewer(column, docs, found.len()) {
        keep_from_to(column, least, greatest, docs, into);
    } else {
        pick(found, docs, into);
    }
}

/// Makes the set those of the documents in the other set that are in the bucket. Where these documents have fewer integers than
/// the segment has in the bucket, it reads theirs; else the positions of those in the bucket.
pub fn select_bucket(segment: &Segment, docs: &DocSet, range: &Range, key: &Key, into: &mut DocSet)
    requires fits { FitsColumns segment.now.texts (kind.range (range_view range.now)) }
    requires length { length docs.now ≡ document_total segment.now.blocks }
    requires same_length { length into.old ≡ document_total segment.now.blocks }
    ensures set { into.new ≡ bucket_set (kind.range (range_view range.now)) (key_view key.now)
        segment.now.blocks docs.now }
    ensures kept { length into.new ≡ length into.old }
{
    let Column::Long(column) = segment.column(range.field) else {
        unreachable!()
    };
    let (least, greatest) = integers_of(range, key);
    select_from_to(column, least, greatest, docs, into);
}
