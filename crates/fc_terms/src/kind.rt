// Terms facets.
ghost use Rattle.fc_kind.specs.declared.name.KindName.TheVariants.{Terms};

use crate::missing::collect_missing;
use crate::selecting::select_key;
use crate::values::collect_values;
use fc_base::WantMemory;
use fc_docset::DocSet;
use fc_facet::Kind;
use fc_kind::{FacetKind, KindName};
use fc_partial::{Key, Tally};
use fc_request::Node;
use fc_segment::Segment;
use std::alloc::Global;

/// Terms facets: a bucket for each value of a field that begins with the prefix, and where it is asked for one of the
/// documents without a value. (Guide: JSON Facet API, "Terms Facet")
#[derive(Debug, Drop)]
pub struct TermsKind;

impl FacetKind for TermsKind {
    ghost name = { λ _. Terms };

    fn kind(&self) -> KindName {
        KindName::Terms
    }

    fn collect(
        &self,
        alloc: Global,
        segment: &Segment,
        docs: &DocSet,
        node: &Node,
        into: &mut Tally,
    ) -> Result<(), WantMemory> {
        let Kind::Terms(terms) = &node.kind else {
            unreachable!()
        };
        let stats = node.stats(alloc)?;
        collect_values(alloc, segment, docs, terms, &stats, into)?;
        collect_missing(alloc, segment, docs, terms, &stats, into)
    }

    fn select(
        &self,
        alloc: Global,
        segment: &Segment,
        docs: &DocSet,
        node: &Node,
        key: &Key,
        into: &mut DocSet,
    ) -> Result<(), WantMemory> {
        let Kind::Terms(terms) = &node.kind else {
            unreachable!()
        };
        select_key(alloc, segment.column(terms.field), terms, key, docs, into)
    }
}
