// The facets around the bucket that is open.
ghost use Rattle.std.specs.Prelude.{◌≡◌, ◌<◌, All, Bool, IfOk, List};
ghost use Rattle.fc_request.specs.FacetNode.{facet_view};
ghost use Rattle.fc_request.specs.RequestView.{request_view};
ghost use Rattle.fc_refine.specs.AskView.{ask_view};
ghost use Rattle.fc_answers.specs.SetAnswer.{Piece};
ghost use Rattle.fc_jobs.specs.FacetFits.{AllFit};
ghost use Rattle.fc_jobs.specs.Scopes.{AllEnclosingFit, KeyFits, scope_over};
ghost use Rattle.fc_jobs.specs.Walked.{domain_set};
ghost use Rattle.fc_levels.specs.Levels.{scope_in};
ghost use Rattle.fc_partial.specs.View.{key_view};
ghost use Rattle.fc_refine.specs.Named.{NamesKeys};
ghost use Rattle.fc_units.specs.Asked.{asked_count, top_scope};

use crate::asked::want_at;
use fc_base::WantMemory;
use fc_jobs::{Enclosing, enclosing_along};
use fc_levels::Level;
use fc_refine::Ask;
use fc_request::{Node, Request};
use std::alloc::Global;

// The facets on the way to a top bucket's own, each with the key of its bucket.
fn on_the_way<'a, 'b>(
    alloc: Global,
    request: &'a Request,
    ask: &'b Ask,
    number: usize,
) -> Result<Vec<Enclosing<'a, 'b>>, WantMemory>
    requires number { number < asked_count (ask_view ask.now) }
    requires names { NamesKeys (request_view request.now).nodes (ask_view ask.now) }
    ensures scope { IfOk result (λ enclosing. scope_over (request_view request.now) enclosing.items
        ≡ top_scope (request_view request.now) (ask_view ask.now) number) }
    ensures fit { IfOk result (λ enclosing. (texts : List Bool) → AllFit texts (request_view request.now).nodes
        → AllEnclosingFit texts enclosing.items) }
{
    match ask {
        Ask::First => Ok(Vec::new(alloc)),
        Ask::More(wants) => {
            let want = want_at(wants, number);
            let enclosing = enclosing_along(alloc, &request.root.nodes, want.way())?;
            Ok(enclosing)
        }
    }
}

// The facets around the bucket that is open: those on the way, and those of the levels.
fn enclosing_at<'a, 'b>(
    alloc: Global,
    request: &'a Request,
    ask: &'b Ask,
    number: usize,
    levels: &'b [Level<'a>],
) -> Result<Vec<Enclosing<'a, 'b>>, WantMemory>
    requires number { number < asked_count (ask_view ask.now) }
    requires names { NamesKeys (request_view request.now).nodes (ask_view ask.now) }
    ensures scope { IfOk result (λ enclosing. scope_over (request_view request.now) enclosing.items
        ≡ scope_in (top_scope (request_view request.now) (ask_view ask.now) number) levels.now) }
    ensures fit { IfOk result (λ enclosing. (texts : List Bool) → AllFit texts (request_view request.now).nodes
        → All (λ l. KeyFits texts l.node.now (key_view l.key)) levels.now → AllEnclosingFit texts enclosing.items) }
{
    let mut enclosing = on_the_way(alloc, request, ask, number)?;
    for level in levels {
        enclosing.push(Enclosing {
            node: level.node,
            key: &level.key,
        })?;
    }
    Ok(enclosing)
}

/// The facets around the bucket that is open, where the domain of a facet there asks for them: none where it excludes no tag.
pub(crate) fn enclosing_for<'a, 'b>(
    alloc: Global,
    request: &'a Request,
    ask: &'b Ask,
    number: usize,
    levels: &'b [Level<'a>],
    node: &Node,
) -> Result<Vec<Enclosing<'a, 'b>>, WantMemory>
    requires number { number < asked_count (ask_view ask.now) }
    requires names { NamesKeys (request_view request.now).nodes (ask_view ask.now) }
    ensures domain { IfOk result (λ enclosing. (p : Piece) (set : List Bool)
        → domain_set (scope_over (request_view request.now) enclosing.items) p (facet_view node.now) set
        ≡ domain_set (scope_in (top_scope (request_view request.now) (ask_view ask.now) number) levels.now) p (facet_view node.now) set) }
    ensures fit { IfOk result (λ enclosing. (texts : List Bool) → AllFit texts (request_view request.now).nodes
        → All (λ l. KeyFits texts l.node.now (key_view l.key)) levels.now → AllEnclosingFit texts enclosing.items) }
{
    if node.domain.exclude.is_empty() {
        return Ok(Vec::new(alloc));
    }
    let enclosing = enclosing_at(alloc, request, ask, number, levels)?;
    Ok(enclosing)
}
