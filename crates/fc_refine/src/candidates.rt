// Candidates of a terms facet, from what shards told of it.
ghost use Rattle.std.specs.Prelude.{◌≡◌, [], false, All, IfOk, IsPermutation, OnErr, OnOk, map};
ghost use Rattle.fc_spec.specs.replies.Chosen as definition;
ghost use Rattle.fc_base.specs.View.{val_view};
ghost use Rattle.fc_facet.specs.declared.kind.Kind.TheVariants as variant;
ghost use Rattle.fc_facet.specs.KindView.{terms_view};
ghost use Rattle.fc_partial.specs.BucketView.{node_view};
ghost use Rattle.fc_request.specs.FacetNode.{IsTerms, kind_of};
ghost use Rattle.fc_request.specs.NodeView.{inner_view};
ghost use Rattle.fc_refine.specs.CandidateView.{candidate_entry, candidate_part, found_part};
ghost use Rattle.fc_refine.specs.Listings.{parts_view};
ghost use Rattle.fc_refine.specs.Parts.{IsPlace};

use crate::found::{Found, found_values};
use crate::listing::{Listed, Part, listed_by_value};
use crate::ranking::{rank_bound, ranked};
use fc_base::{Val, WantMemory};
use fc_partial::{PartialNode, Stats};
use fc_request::{Kind, Node, Terms};
use std::alloc::Global;
use std::marker::Model;

/// A chosen value.
#[derive(Debug, Drop)]
pub struct Candidate {
    pub val: Val,
    /// The count and the statistics of its buckets on the shards that list it.
    pub stats: Stats,
    /// The shards that list it, ascending.
    pub shards: Vec<u32>,
}

/// The values of a terms facet that shards list, seen as the facet with the nodes nested in it and what each shard told,
/// in the order of the shards.
#[derive(Drop)]
pub struct Candidates<'a> {
    alloc: Global,
    node: &'a Node,
    terms: &'a Terms,
    parts: Vec<Part<'a>>,
}

impl<'a> Model for Candidates<'a> {
    ghost use Rattle.std.specs.Prelude.{map};
    ghost use Rattle.std.specs.Coded.{codes};
    ghost use Rattle.fc_facet.specs.KindView.{terms_view};
    ghost use Rattle.fc_partial.specs.contracts.bucket.PartialNode as told_node;
    ghost use Rattle.fc_request.specs.contracts.node.Node as asked_node;
    ghost use Rattle.fc_refine.specs.Gathered.{AreGathered, gathered, Kept};
    ghost use Rattle.fc_refine.specs.Listings.{kept_part};

    ghost Value = { Kept };

    ghost coded = { Prim.hlevel (codes, told_node.the_row.coded, asked_node.the_row.coded) };

    ghost view = { λ c. record { terms = terms_view c.terms.now; node = c.node.now; parts = map kept_part c.parts.items } };

    ghost invariant = { λ c. AreGathered (gathered (record { terms = terms_view c.terms.now; node = c.node.now; parts = map kept_part c.parts.items })) };
}

impl<'a> Candidates<'a> {
    ghost use Rattle.fc_refine.specs.Gathered.{
      added,
      chosen_values,
      gathered,
      HasFacetShape,
      listing_shards,
      ranked_entries,
    };
    ghost use Rattle.fc_refine.specs.Parts.{has_shard, SumsFit, with_part};

    /// Those of a terms facet of which no shard has told.
    pub fn new(alloc: Global, node: &'a Node) -> Result<Candidates<'a>, WantMemory>
        requires { IsTerms (kind_of node.now) }
        ensures { IfOk result (λ candidates. (terms : Terms) → kind_of node.now ≡ variant.Terms terms →
            gathered candidates ≡ record { terms = terms_view terms; nodes = inner_view node.now; parts = [] }) }
    {
        match &node.kind {
            Kind::Terms(terms) => Ok(Candidates {
                alloc,
                node,
                terms,
                parts: Vec::new(alloc),
            }),
            _ => unreachable!(),
        }
    }

    /// Adds what a shard told, in whatever order of shards.
    pub fn add(&mut self, shard: u32, part: &'a PartialNode) -> Result<(), WantMemory>
        requires shaped { HasFacetShape self.old.terms (inner_view self.old.node) (node_view part.now) }
        requires untold { has_shard shard (gathered self.old).parts ≡ false }
        requires fit { SumsFit (with_part (record { shard = shard; buckets = node_view part.now }) (gathered self.old).parts) }
        ensures ok { OnOk result (gathered self.new ≡ added (record { shard = shard; buckets = node_view part.now }) (gathered self.old)) }
        ensures err { OnErr result (self.new ≡ self.old) }
    {
        let at = place(&self.parts, shard);
        self.parts.insert(at, Part { shard, node: part })?;
        Ok(())
    }

    /// The chosen values in the order of their ranks: where the facet refines and has a limit those whose rank is below
    /// offset, limit and over-refinement together, else every value that a shard lists.
    /// (Guide: JSON Facet API, "Terms Facet", `refine`, `overrefine`)
    pub fn chosen(self) -> Result<Vec<Candidate>, WantMemory>
        ensures ranks { IfOk result (λ chosen. map candidate_entry chosen.items ≡ ranked_entries (gathered self.entry)) }
        ensures values { IfOk result (λ chosen. IsPermutation (chosen_values (gathered self.entry)) (map (λ c. val_view c.val) chosen.items)) }
        ensures shards { IfOk result (λ chosen. All (λ c. c.shards.items ≡ listing_shards (gathered self.entry) (val_view c.val)) chosen.items) }
    {
        let Candidates {
            alloc,
            node,
            terms,
            parts,
        } = self;
        let stats = node.stats(alloc)?;
        let by_value = listed_by_value(alloc, &parts)?;
        let found = found_values(alloc, &stats, by_value)?;
        let ranked = ranked(terms.sort, chosen_bound(terms), found)?;
        let chosen = candidates_of(alloc, ranked)?;
        Ok(chosen)
    }
}

// Where the part of a shard goes: before that of the first greater shard.
fn place(parts: &[Part], shard: u32) -> usize
    ensures { IsPlace (parts_view parts.now) shard result }
{
    for (at, part) in parts.iter().enumerate() {
        if shard < part.shard {
            return at;
        }
    }
    parts.len()
}

// How many candidates are chosen, where there is a limit.
fn chosen_bound(terms: &Terms) -> Option<u64>
    ensures { result ≡ definition.chosen_bound (terms_view terms.now) }
{
    if terms.refine {
        rank_bound(terms.offset, terms.limit, terms.overrefine)
    } else {
        None
    }
}

// The shards of what lists a value.
fn shards_of(alloc: Global, listed: &[Listed]) -> Result<Vec<u32>, WantMemory>
    ensures { IfOk result (λ shards. shards.items ≡ map (λ l. l.shard) listed.now) }
{
    let mut shards = Vec::with_capacity(alloc, listed.len())?;
    for one in listed {
        shards.push(one.shard)?;
    }
    Ok(shards)
}

// The candidates of what was found.
fn candidates_of(alloc: Global, found: Vec<Found>) -> Result<Vec<Candidate>, WantMemory>
    ensures { IfOk result (λ list. map candidate_part list.items ≡ map found_part found.entry.items) }
{
    let mut list = Vec::with_capacity(alloc, found.len())?;
    for one in found {
        list.push(Candidate {
            val: one.val.copy(alloc)?,
            stats: one.stats,
            shards: shards_of(alloc, &one.listed)?,
        })?;
    }
    Ok(list)
}
