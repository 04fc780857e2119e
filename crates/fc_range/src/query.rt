// Query facets.
ghost use Rattle.fc_kind.specs.declared.name.KindName.TheVariants.{Query};

use fc_base::WantMemory;
use fc_docset::DocSet;
use fc_domain::matches;
use fc_facet::Kind;
use fc_kind::{FacetKind, KindName, add_documents};
use fc_partial::{Key, Tally};
use fc_request::Node;
use fc_segment::Segment;
use std::alloc::Global;

/// Query facets: one bucket, of the documents that match. (Guide: JSON Facet API, "Query Facet")
#[derive(Debug, Drop)]
pub struct QueryKind;

impl FacetKind for QueryKind {
    ghost name = { λ _. Query };

    fn kind(&self) -> KindName {
        KindName::Query
    }

    fn collect(
        &self,
        alloc: Global,
        segment: &Segment,
        docs: &DocSet,
        node: &Node,
        into: &mut Tally,
    ) -> Result<(), WantMemory> {
        let mut matching = DocSet::empty(alloc, docs.len())?;
        self.select(alloc, segment, docs, node, &Key::Whole, &mut matching)?;
        let stats = node.stats(alloc)?;
        add_documents(alloc, segment, &stats, &matching, Key::Whole, into)?;
        Ok(())
    }

    fn select(
        &self,
        alloc: Global,
        segment: &Segment,
        docs: &DocSet,
        node: &Node,
        _key: &Key,
        into: &mut DocSet,
    ) -> Result<(), WantMemory> {
        let Kind::Query(query) = &node.kind else {
            unreachable!()
        };
        matches(alloc, segment, query, into)?;
        into.and_with(docs);
        Ok(())
    }
}
