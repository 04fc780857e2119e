// Copies of kinds and domain changes.
ghost use Rattle.std.specs.Prelude.{◌≡◌, IfOk};
ghost use Rattle.fc_facet.specs.Asked.{asked_view};
ghost use Rattle.fc_facet.specs.KindView.{date_range_view, domain_view, step_view};

use crate::{BlockStep, DateRange, Domain, Kind, Terms};
use fc_base::{Name, WantMemory};
use fc_query::{copy_names, copy_queries};
use std::alloc::Global;

impl BlockStep {
    /// Another step that is the same.
    pub fn copy(&self, alloc: Global) -> Result<BlockStep, WantMemory>
        ensures { IfOk result (λ copy. step_view copy ≡ step_view self.now) }
    {
        Ok(match self {
            BlockStep::Stay => BlockStep::Stay,
            BlockStep::Parents(query) => BlockStep::Parents(query.copy(alloc)?),
            BlockStep::Children(query) => BlockStep::Children(query.copy(alloc)?),
        })
    }
}

impl Domain {
    /// Another change that is the same.
    pub fn copy(&self, alloc: Global) -> Result<Domain, WantMemory>
        ensures { IfOk result (λ copy. domain_view copy ≡ domain_view self.now) }
    {
        Ok(Domain {
            exclude: copy_names(alloc, &self.exclude)?,
            block: self.block.copy(alloc)?,
            filters: copy_queries(alloc, &self.filters)?,
        })
    }
}

// The same text, where there is one.
fn copy_prefix(alloc: Global, prefix: &Option<Name>) -> Result<Option<Name>, WantMemory>
    ensures { IfOk result (λ copy. copy ≡ prefix.now) }
{
    match prefix {
        Some(text) => Ok(Some(text.copy(alloc)?)),
        None => Ok(None),
    }
}

impl Terms {
    /// Another terms facet that is the same.
    pub fn copy(&self, alloc: Global) -> Result<Terms, WantMemory>
        ensures { IfOk result (λ terms. terms ≡ self.now) }
    {
        Ok(Terms {
            field: self.field,
            offset: self.offset,
            limit: self.limit,
            sort: self.sort,
            mincount: self.mincount,
            missing: self.missing,
            prefix: copy_prefix(alloc, &self.prefix)?,
            refine: self.refine,
            exact: self.exact,
            overrequest: self.overrequest,
            overrefine: self.overrefine,
            show: self.show,
        })
    }
}

impl DateRange {
    /// Another range that is the same.
    pub fn copy(&self, alloc: Global) -> Result<DateRange, WantMemory>
        ensures { IfOk result (λ range. date_range_view range ≡ date_range_view self.now) }
    {
        Ok(DateRange {
            field: self.field,
            edges: copy_names(alloc, &self.edges)?,
            before: self.before,
            after: self.after,
            between: self.between,
            lower: self.lower,
            upper: self.upper,
            edge: self.edge,
            outer: self.outer,
        })
    }
}

impl Kind {
    /// Another kind that is the same.
    pub fn copy(&self, alloc: Global) -> Result<Kind, WantMemory>
        ensures { IfOk result (λ copy. asked_view copy ≡ asked_view self.now) }
    {
        Ok(match self {
            Kind::Terms(terms) => Kind::Terms(terms.copy(alloc)?),
            Kind::Range(range) => Kind::Range(*range),
            Kind::Query(query) => Kind::Query(query.copy(alloc)?),
            Kind::DateRange(range) => Kind::DateRange(range.copy(alloc)?),
            Kind::Stat(stat) => Kind::Stat(*stat),
        })
    }
}
