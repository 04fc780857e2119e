// The documents in a bucket of a range facet over dates.
ghost use Rattle.std.specs.Prelude.{◌≡◌, ◌<◌, ℕ, ◌&&◌, length, map, All};
ghost use Rattle.std.specs.Bool.{IsTrue};
ghost use Rattle.fc_spec.specs.documents.Sets.{zip_with};
ghost use Rattle.fc_spec.specs.documents.Totals.{document_total};
ghost use Rattle.fc_spec.specs.requests.Buckets.{is_date_range_key};
ghost use Rattle.fc_spec.specs.requests.DomainSets.{bucket_set};
ghost use Rattle.fc_spec.specs.requests.Request as kind;
ghost use Rattle.fc_facet.specs.KindView.{date_range_view};
ghost use Rattle.fc_partial.specs.View.{key_view};
ghost use Rattle.fc_lists.specs.Among.{is_among};
ghost use Rattle.fc_column.specs.Terms.{has_from_to, ordinals_in};
ghost use Rattle.fc_docset.specs.Positions.{contains};
ghost use Rattle.fc_kind.specs.Columns.{FitsColumns};

use crate::buckets::span_of;
use crate::span::Span;
use fc_column::TextColumn;
use fc_docset::DocSet;
use fc_facet::DateRange;
use fc_partial::Key;
use fc_segment::{Column, Segment};

// Whether one of the ordinals lies in the span.
fn has_in_span(ordinals: &[u32], span: Span) -> bool
    ensures { result ≡ has_from_to span.from span.past ordinals.now }
{
    ordinals
        .iter()
        .any(|ord| span.from <= *ord && *ord < span.past)
}

// Makes the set those of the documents in the other set that have an ordinal in the span. It reads the ordinals of the
// documents in the other set.
fn keep_in_span(column: &TextColumn, span: Span, docs: &DocSet, into: &mut DocSet)
    requires length { length docs.now ≡ length column.now }
    requires same_length { length into.old ≡ length column.now }
    ensures set { into.new ≡ zip_with ◌&&◌ docs.now
        (map (λ texts. has_from_to span.from span.past (ordinals_in column.now texts)) column.now) }
    ensures kept { length into.new ≡ length into.old }
{
    into.clear();
    for at in docs.iter() {
        if has_in_span(column.ordinals_of(at), span) {
            into.add(at);
        }
    }
}

// Makes the set those of the positions that are in the other set.
fn pick(positions: &[u32], docs: &DocSet, into: &mut DocSet)
    requires within { All (λ at. at < length docs.now) positions.now }
    requires same_length { length into.old ≡ length docs.now }
    ensures set { (at : ℕ) → contains into.new at
        ≡ (contains docs.now at && is_among at positions.now) }
    ensures kept { length into.new ≡ length into.old }
{
    into.clear();
    for at in positions {
        if docs.contains(*at) {
            into.add(*at);
        }
    }
}

// Whether the documents of the set have fewer texts than so many, where one without any counts as if it had one. It reads the
// ordinals of none where the documents alone are as many.
fn have_fewer(column: &TextColumn, docs: &DocSet, many: usize) -> bool
    requires { length docs.now ≡ length column.now }
{
    if docs.count() as usize >= many {
        return false;
    }
    let mut left = many;
    for at in docs.iter() {
        let own = column.ordinals_of(at).len().max(1);
        if left <= own {
            return false;
        }
        left -= own;
    }
    left > 0
}

// Makes the set those of the documents in the other set that have an ordinal in the span.
fn select_in_span(column: &TextColumn, span: Span, docs: &DocSet, into: &mut DocSet)
    requires length { length docs.now ≡ length column.now }
    requires same_length { length into.old ≡ length column.now }
    ensures set { into.new ≡ zip_with ◌&&◌ docs.now
        (map (λ texts. has_from_to span.from span.past (ordinals_in column.now texts)) column.now) }
    ensures kept { length into.new ≡ length into.old }
{
    let found = column.positions_between(span.from, span.past);
    if have_fewer(column, docs, found.len()) {
        keep_in_span(column, span, docs, into);
    } else {
        pick(found, docs, into);
    }
}

/// Makes the set those of the documents in the other set that are in the bucket. Where these documents have fewer texts than
/// the segment has in the bucket, it reads theirs; else the positions of those in the bucket.
pub(crate) fn select_bucket(
    segment: &Segment,
    docs: &DocSet,
    range: &DateRange,
    key: &Key,
    into: &mut DocSet,
)
    requires fits { FitsColumns segment.now.texts (kind.date_range (date_range_view range.now)) }
    requires key { IsTrue (is_date_range_key (date_range_view range.now) (key_view key.now)) }
    requires length { length docs.now ≡ document_total segment.now.blocks }
    requires same_length { length into.old ≡ document_total segment.now.blocks }
    ensures set { into.new ≡ bucket_set (kind.date_range (date_range_view range.now))
        (key_view key.now) segment.now.blocks docs.now }
    ensures kept { length into.new ≡ length into.old }
{
    let Column::Text(column) = segment.column(range.field) else {
        unreachable!()
    };
    select_in_span(column, span_of(column, range, key), docs, into);
}
