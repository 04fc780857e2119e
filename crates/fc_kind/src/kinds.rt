// Lists of kinds of facet.
ghost use Rattle.std.specs.Prelude.{◌≡◌, ◌↔◌, IfOk, IsSome, IsTrue, IfSome, map};
ghost use Rattle.fc_kind.specs.Names.{Covers, Has};
ghost use Rattle.fc_kind.specs.declared.name.KindName.TheVariants.{DateRange, Query, Range, Terms};

use crate::{FacetKind, KindName};
use fc_base::WantMemory;
use std::alloc::Global;

// The first of the kinds that has the name.
fn find<K: FacetKind>(kinds: &[K], wanted: KindName) -> Option<&K>
    ensures found { IfSome result (λ kind. K.name kind.now ≡ wanted) }
    ensures there { IsSome result ↔ Has wanted (map K.name kinds.now) }
{
    let mut rest = kinds;
    while let Some((kind, others)) = rest.split_first() {
        if kind.kind() == wanted {
            return Some(kind);
        }
        rest = others;
    }
    None
}

fn has<K: FacetKind>(kinds: &[K], wanted: KindName) -> bool
    ensures { IsTrue result ↔ Has wanted (map K.name kinds.now) }
{
    find(kinds, wanted).is_some()
}

/// Whether each name is the kind of one of them.
pub fn covers(kinds: &[Box<dyn FacetKind>]) -> bool
    ensures { IsTrue result ↔ Covers (map name kinds.now) }
{
    has(kinds, KindName::Terms)
        && has(kinds, KindName::Range)
        && has(kinds, KindName::Query)
        && has(kinds, KindName::DateRange)
}

/// A kind that has the name.
pub fn the_kind(kinds: &[Box<dyn FacetKind>], wanted: KindName) -> &Box<dyn FacetKind>
    requires { Covers (map name kinds.now) }
    ensures { name result.now ≡ wanted }
{
    match find(kinds, wanted) {
        Some(kind) => kind,
        None => unreachable!(),
    }
}

/// A list of one kind of each name.
pub fn kinds_of(
    alloc: Global,
    terms: Box<dyn FacetKind>,
    range: Box<dyn FacetKind>,
    query: Box<dyn FacetKind>,
    date_range: Box<dyn FacetKind>,
) -> Result<Vec<Box<dyn FacetKind>>, WantMemory>
    requires terms { name terms ≡ Terms }
    requires range { name range ≡ Range }
    requires query { name query ≡ Query }
    requires date_range { name date_range ≡ DateRange }
    ensures { IfOk result (λ kinds. Covers (map name kinds.items)) }
{
    let mut kinds = Vec::new(alloc);
    kinds.push(terms)?;
    kinds.push(range)?;
    kinds.push(query)?;
    kinds.push(date_range)?;
    Ok(kinds)
}
