// The names of kinds of facet.
use fc_facet::Kind;
use fc_request::Node;

/// What kinds of facet are called. (Guide: JSON Facet API, "Types of Facets")
#[derive(Clone, Copy, Debug, PartialEq, Eq)]
pub enum KindName {
    Terms,
    Range,
    Query,
    DateRange,
}

ghost use Rattle.std.specs.Prelude.{◌≡◌};
ghost use Rattle.fc_request.specs.FacetNode.{kind_of};
ghost use Rattle.fc_kind.specs.Names as names;

/// The name of the kind of a node. A statistic has none.
pub fn name_of(node: &Node) -> Option<KindName>
    ensures { result ≡ names.name_of (kind_of node.now) }
{
    match &node.kind {
        Kind::Terms(_) => Some(KindName::Terms),
        Kind::Range(_) => Some(KindName::Range),
        Kind::Query(_) => Some(KindName::Query),
        Kind::DateRange(_) => Some(KindName::DateRange),
        Kind::Stat(_) => None,
    }
}
