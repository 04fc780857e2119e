// What a facet prints, kind by kind.
ghost use Rattle.std.specs.Prelude.{◌≡◌, IfOk, IsTrue, map};
ghost use Rattle.fc_spec.specs.requests.Request as definition;
ghost use Rattle.fc_request.specs.FacetNode.{has_buckets, kind_of, kind_view};
ghost use Rattle.fc_refine.specs.CountableRanges.{IsCountable};
ghost use Rattle.fc_reading.specs.Distinct.{AreDistinct};
ghost use Rattle.fc_reading.specs.Parts.{IsPrinted};
ghost use Rattle.fc_request.specs.NodeView.{inner_view};

use crate::BucketReading;
use crate::part::{Printed, part_at};
use crate::range::range_parts;
use crate::terms::terms_parts;
use fc_base::WantMemory;
use fc_facet::Kind;
use fc_partial::Key;
use fc_request::Node;
use std::alloc::Global;

/// What a facet prints over its domain on the shards.
pub(crate) fn printed<'s, R: BucketReading>(
    alloc: Global,
    reading: &R,
    node: &Node,
    shards: &'s [u32],
    domain: &R::Domain,
) -> Result<Printed<'s, R::Bucket>, WantMemory>
    requires facet { IsTrue (has_buckets (kind_of node.now)) }
    requires countable { IsCountable (kind_view (kind_of node.now)) }
    requires made { R.is_for domain.now (kind_of node.now) }
    requires distinct { AreDistinct shards.now }
    ensures { IfOk result (IsPrinted (R.reading reading.now) R.held (kind_view (kind_of node.now)) (inner_view node.now)
        shards.now (R.over domain.now)) }
{
    let stats = node.stats(alloc)?;
    let kind = &node.kind;
    match kind {
        Kind::Terms(terms) => {
            let parts = terms_parts(alloc, reading, node, terms, &stats, shards, domain)?;
            Ok(Printed::Many(parts))
        }
        Kind::Range(_) | Kind::DateRange(_) => {
            let parts = range_parts(alloc, reading, kind, &stats, shards, domain)?;
            Ok(Printed::Many(parts))
        }
        Kind::Query(_) => {
            let part = part_at(
                alloc,
                reading,
                kind,
                &stats,
                shards,
                domain,
                &Key::Whole,
                None,
            )?;
            Ok(Printed::One(part))
        }
        Kind::Stat(_) => unreachable!(),
    }
}
