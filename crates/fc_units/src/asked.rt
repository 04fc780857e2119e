// The top buckets of an answer, by their numbers.
ghost use Rattle.std.specs.Prelude.{◌≡◌, ◌<◌, ◌++◌, ◌∷◌, [], IfOk, IsTrue, Some, length, slice_index_or};
ghost use Rattle.std.specs.Arc.{arc_value};
ghost use Rattle.fc_spec.specs.documents.Schema.{Schema};
ghost use Rattle.fc_spec.specs.laws.LacksLaws.{has_key, names_keys};
ghost use Rattle.fc_spec.specs.messages.Message.{way_of};
ghost use Rattle.fc_spec.specs.messages.Target.{facet_at, nodes_in};
ghost use Rattle.fc_spec.specs.requests.Buckets.{is_key_of};
ghost use Rattle.fc_spec.specs.requests.ValidRequests.{IsSearchable};
ghost use Rattle.fc_partial.specs.View.{key_view};
ghost use Rattle.fc_request.specs.FacetNode.{kind_of, kind_view};
ghost use Rattle.fc_request.specs.NodeView.{nodes_view};
ghost use Rattle.fc_request.specs.RequestView.{IsRoot, request_view};
ghost use Rattle.fc_refine.specs.AskView.{ask_view, step_view, want_view, way_view};
ghost use Rattle.fc_levels.specs.Facets.{nested_view};
ghost use Rattle.fc_levels.specs.Steps.{AreValid, IsValidNode};
ghost use Rattle.fc_jobs.specs.Walked.{nodes_from};
ghost use Rattle.fc_units.specs.Asked as asked;
ghost use Rattle.fc_refine.specs.Named.{NamesKeys};
ghost use Rattle.fc_units.specs.Asked.{HasSameDomain, IsAskedFacet};

use fc_base::WantMemory;
use fc_partial::Key;
use fc_refine::{Ask, Step, Want};
use fc_request::{Node, Request};
use std::alloc::Global;
use std::sync::Arc;

/// How many top buckets there are.
pub fn asked_count(ask: &Ask) -> usize
    ensures { result ≡ asked.asked_count (ask_view ask.now) }
{
    match ask {
        Ask::First => 1,
        Ask::More(wants) => wants.len(),
    }
}

/// A wanted bucket, by its number.
pub(crate) fn want_at(wants: &Arc<Vec<Want>>, number: usize) -> &Want
    requires { number < length (arc_value wants.now).items }
    ensures { result.now ≡ slice_index_or (arc_value wants.now).items number result.now }
{
    &wants[number]
}

/// The facet of a top bucket.
pub fn asked_node<'a>(request: &'a Request, ask: &Ask, number: usize) -> &'a Node
    requires number { number < asked.asked_count (ask_view ask.now) }
    requires names { NamesKeys (request_view request.now).nodes (ask_view ask.now) }
    ensures facet { IsAskedFacet (nested_view request.now.root) (request_view request.now) (ask_view ask.now) number (nested_view result.now) }
    ensures valid { (s : Schema) → IsRoot request.now.root → IsSearchable s (request_view request.now) → IsValidNode s result.now }
    ensures key { IsRoot request.now.root → IsTrue (is_key_of (kind_view (kind_of result.now)) (asked.asked_key (ask_view ask.now) number)) }
{
    match ask {
        Ask::First => &request.root,
        Ask::More(wants) => wanted_node(&request.root.nodes, want_at(wants, number)),
    }
}

// The facet of a wanted bucket.
fn wanted_node<'a>(nodes: &'a [Node], want: &Want) -> &'a Node
    requires { IsTrue (names_keys (nodes_view nodes.now) (way_of (want_view want.now))) }
    ensures facet { facet_at want.now.node (nodes_from (nodes_view nodes.now) (way_view (arc_value want.now.path).items)) ≡ Some (nested_view result.now) }
    ensures valid { (s : Schema) → AreValid s (nodes_view nodes.now) → IsValidNode s result.now }
    ensures key { IsTrue (is_key_of (kind_view (kind_of result.now)) (key_view want.now.key)) }
{
    let inside = nodes_along(nodes, want.way(), want.node, &want.key);
    &inside[want.node as usize]
}

// The nodes nested in the bucket where a way leads, of which a further step names one.
fn nodes_along<'a>(nodes: &'a [Node], way: &[Step], node: u32, key: &Key) -> &'a [Node]
    requires { IsTrue (names_keys (nodes_view nodes.now) (way_view way.now ++ record { node = node; key = key_view key.now } ∷ [])) }
    ensures there { nodes_view result.now ≡ nodes_from (nodes_view nodes.now) (way_view way.now) }
    ensures named { IsTrue (has_key (facet_at node (nodes_view result.now)) (key_view key.now)) }
    ensures valid { (s : Schema) → AreValid s (nodes_view nodes.now) → AreValid s (nodes_view result.now) }
{
    let mut inside = nodes;
    for step in way {
        inside = nodes_inside(inside, step.node, &step.key);
    }
    inside
}

// The nodes nested in a facet, which has the key.
fn nodes_inside<'a>(nodes: &'a [Node], number: u32, key: &Key) -> &'a [Node]
    requires { IsTrue (has_key (facet_at number (nodes_view nodes.now)) (key_view key.now)) }
    ensures there { nodes_view result.now ≡ nodes_in (facet_at number (nodes_view nodes.now)) }
    ensures valid { (s : Schema) → AreValid s (nodes_view nodes.now) → AreValid s (nodes_view result.now) }
{
    &nodes[number as usize].nodes
}

/// The key of a top bucket.
pub(crate) fn asked_key(alloc: Global, ask: &Ask, number: usize) -> Result<Key, WantMemory>
    requires { number < asked.asked_count (ask_view ask.now) }
    ensures { IfOk result (λ key. key_view key ≡ asked.asked_key (ask_view ask.now) number) }
{
    match ask {
        Ask::First => Ok(Key::Whole),
        Ask::More(wants) => want_at(wants, number).key.copy(alloc),
    }
}

/// Whether a top bucket is one of the same facet, in the same bucket, as the one before it.
pub(crate) fn has_same_domain(ask: &Ask, number: usize) -> bool
    requires { number < asked.asked_count (ask_view ask.now) }
    ensures { IsTrue result → HasSameDomain (ask_view ask.now) number }
{
    match ask {
        Ask::First => false,
        Ask::More(wants) => {
            if number == 0 {
                return false;
            }
            let before = want_at(wants, number - 1);
            let here = want_at(wants, number);
            same_domain(before, here)
        }
    }
}

// Whether both are of the same facet, in the same bucket.
fn same_domain(one: &Want, other: &Want) -> bool
    ensures { IsTrue result → (way_view (arc_value one.now.path).items ≡ way_view (arc_value other.now.path).items) × (one.now.node ≡ other.now.node) }
{
    one.node == other.node && same_way(one.way(), other.way())
}

// Whether both ways have the same steps.
fn same_way(one: &[Step], other: &[Step]) -> bool
    ensures { IsTrue result → way_view one.now ≡ way_view other.now }
{
    if one.len() != other.len() {
        return false;
    }
    for (at, step) in one.iter().enumerate() {
        if !same_step(step, &other[at]) {
            return false;
        }
    }
    true
}

fn same_step(one: &Step, other: &Step) -> bool
    ensures { IsTrue result → step_view one.now ≡ step_view other.now }
{
    one.node == other.node && one.key == other.key
}

/// The same ask, whose wants are shared.
pub fn shared(ask: &Ask) -> Result<Ask, WantMemory>
    ensures { IfOk result (λ copy. ask_view copy ≡ ask_view ask.now) }
{
    match ask {
        Ask::First => Ok(Ask::First),
        Ask::More(wants) => {
            let wants = Arc::try_clone(wants)?;
            Ok(Ask::More(wants))
        }
    }
}
