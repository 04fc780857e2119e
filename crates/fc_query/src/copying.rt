// Copies of queries and filters.
ghost use Rattle.std.specs.Prelude.{◌≡◌, IfOk, map};
ghost use Rattle.fc_query.specs.FilterView.{filter_view};
ghost use Rattle.fc_query.specs.QueryView.{clauses_view, query_view};

use crate::{Bound, Clause, Filter, Query};
use fc_base::{Name, WantMemory};
use std::alloc::Global;

impl Bound {
    /// Another bound that is the same.
    pub fn copy(&self, alloc: Global) -> Result<Bound, WantMemory>
        ensures { IfOk result (λ bound. bound ≡ self.now) }
    {
        Ok(match self {
            Bound::Unbounded => Bound::Unbounded,
            Bound::Including(val) => Bound::Including(val.copy(alloc)?),
            Bound::Excluding(val) => Bound::Excluding(val.copy(alloc)?),
        })
    }
}

impl Query {
    /// Another query that is the same.
    #[cycle(copying)]
    pub fn copy(&self, alloc: Global) -> Result<Query, WantMemory>
        ensures { IfOk result (λ copy. query_view copy ≡ query_view self.now) }
    {
        Ok(match self {
            Query::All => Query::All,
            Query::Has(field) => Query::Has(*field),
            Query::Is(field, val) => Query::Is(*field, val.copy(alloc)?),
            Query::Between(field, low, high) => {
                Query::Between(*field, low.copy(alloc)?, high.copy(alloc)?)
            }
            Query::Group(clauses) => Query::Group(copy_clauses(alloc, clauses)?),
        })
    }
}

// Clauses that are the same, in their order.
#[cycle(copying)]
fn copy_clauses(alloc: Global, clauses: &[Clause]) -> Result<Vec<Clause>, WantMemory>
    ensures { IfOk result (λ copies. clauses_view copies.items ≡ clauses_view clauses.now) }
{
    let mut copies = Vec::with_capacity(alloc, clauses.len())?;
    for clause in clauses {
        let query = clause.query.copy(alloc)?;
        copies.push(Clause {
            need: clause.need,
            query,
        })?;
    }
    Ok(copies)
}

/// Names that are the same, in their order.
pub fn copy_names(alloc: Global, names: &[Name]) -> Result<Vec<Name>, WantMemory>
    ensures { IfOk result (λ copies. copies.items ≡ names.now) }
{
    let mut copies = Vec::with_capacity(alloc, names.len())?;
    for name in names {
        copies.push(name.copy(alloc)?)?;
    }
    Ok(copies)
}

/// Queries that are the same, in their order.
pub fn copy_queries(alloc: Global, queries: &[Query]) -> Result<Vec<Query>, WantMemory>
    ensures { IfOk result (λ copies. map query_view copies.items ≡ map query_view queries.now) }
{
    let mut copies = Vec::with_capacity(alloc, queries.len())?;
    for query in queries {
        copies.push(query.copy(alloc)?)?;
    }
    Ok(copies)
}

impl Filter {
    /// Another filter that is the same.
    pub fn copy(&self, alloc: Global) -> Result<Filter, WantMemory>
        ensures { IfOk result (λ copy. filter_view copy ≡ filter_view self.now) }
    {
        Ok(Filter {
            tags: copy_names(alloc, &self.tags)?,
            query: self.query.copy(alloc)?,
        })
    }
}

/// Filters that are the same, in their order.
pub fn copy_filters(alloc: Global, filters: &[Filter]) -> Result<Vec<Filter>, WantMemory>
    ensures { IfOk result (λ copies. map filter_view copies.items ≡ map filter_view filters.now) }
{
    let mut copies = Vec::with_capacity(alloc, filters.len())?;
    for filter in filters {
        copies.push(filter.copy(alloc)?)?;
    }
    Ok(copies)
}
