// The terms that begin with a prefix.
ghost use Rattle.fc_facet.specs.KindView.{terms_view};
ghost use Rattle.fc_terms.specs.Spans.{IsPrefixSpan};

use fc_column::TextColumn;
use fc_facet::Terms;

/// The ordinals of the terms that begin with the prefix, from the first number up to but not including the second: all
/// where there is none.
pub(crate) fn prefix_span(column: &TextColumn, terms: &Terms) -> (u32, u32)
    ensures { IsPrefixSpan (terms_view terms.now).prefix column.now result.0 result.1 }
{
    match &terms.prefix {
        Some(prefix) => column.with_prefix(prefix.bytes()),
        None => (0, column.terms()),
    }
}
