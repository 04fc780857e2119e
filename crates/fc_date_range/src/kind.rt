// Range facets over dates.
ghost use Rattle.fc_kind.specs.declared.name.KindName.TheVariants as name;

use crate::beside::collect_beside;
use crate::gaps::collect_gaps;
use crate::selecting::select_bucket;
use fc_base::WantMemory;
use fc_docset::DocSet;
use fc_facet::Kind;
use fc_kind::{FacetKind, KindName};
use fc_partial::{Key, Tally};
use fc_request::Node;
use fc_segment::Segment;
use std::alloc::Global;

/// Range facets over dates: a bucket for each gap, and those beside the gaps that are asked for. (Guide: JSON Facet API,
/// "Range Facet")
#[derive(Debug, Drop)]
pub struct DateRangeKind;

impl FacetKind for DateRangeKind {
    ghost name = { λ _. name.DateRange };

    fn kind(&self) -> KindName {
        KindName::DateRange
    }

    fn collect(
        &self,
        alloc: Global,
        segment: &Segment,
        docs: &DocSet,
        node: &Node,
        into: &mut Tally,
    ) -> Result<(), WantMemory> {
        let Kind::DateRange(range) = &node.kind else {
            unreachable!()
        };
        let stats = node.stats(alloc)?;
        collect_beside(
            alloc,
            segment,
            docs,
            range,
            &stats,
            Key::Before,
            range.before,
            into,
        )?;
        collect_beside(
            alloc,
            segment,
            docs,
            range,
            &stats,
            Key::Between,
            range.between,
            into,
        )?;
        collect_beside(
            alloc,
            segment,
            docs,
            range,
            &stats,
            Key::After,
            range.after,
            into,
        )?;
        collect_gaps(alloc, segment, docs, range, stats, into)?;
        Ok(())
    }

    fn select(
        &self,
        _alloc: Global,
        segment: &Segment,
        docs: &DocSet,
        node: &Node,
        key: &Key,
        into: &mut DocSet,
    ) -> Result<(), WantMemory> {
        let Kind::DateRange(range) = &node.kind else {
            unreachable!()
        };
        select_bucket(segment, docs, range, key, into);
        Ok(())
    }
}
