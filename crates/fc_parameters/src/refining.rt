// How a terms facet refines its buckets.
ghost use Rattle.std.specs.Prelude.{◌≡◌, codes};
ghost use Rattle.serde_json.specs.Find.{get_member};
ghost use Rattle.serde_json.specs.View.{view, members_view};
ghost use Rattle.fc_spec.specs.requests.FacetReading as reading;
ghost use Rattle.fc_spec.specs.requests.RequestWalk.{said_or};
ghost use Rattle.fc_base.specs.Answers.{Answers};
ghost use Rattle.fc_facet.specs.FaultView.{fault_view};
ghost use Rattle.fc_parameters.specs.RefiningView.{refining_view};

use crate::words::truth_in;
use fc_base::Refusal;
use fc_base::json::{is_same, member};
use fc_facet::QFault;
use serde_json::{Map, Value};

/// The three ways to refine.
#[derive(Clone, Copy)]
pub(crate) enum Refining {
    No,
    ByOffers,
    Exactly,
}

impl Refining {
    /// Whether a shard tells of chosen buckets that it did not offer.
    pub(crate) fn refines(self) -> bool
        ensures { result ≡ reading.refines (refining_view self) }
    {
        match self {
            Refining::No => false,
            Refining::ByOffers | Refining::Exactly => true,
        }
    }

    pub(crate) fn is_exactly(self) -> bool
        ensures { result ≡ reading.is_exactly (refining_view self) }
    {
        match self {
            Refining::No | Refining::ByOffers => false,
            Refining::Exactly => true,
        }
    }
}

// A truth value, or the text `exact`.
fn refining_of(json: &Value) -> Result<Refining, Refusal<QFault>>
    ensures { Answers refining_view fault_view result (reading.refining_in (view json.now)) }
{
    let Some(text) = json.as_str() else {
        let refine = truth_in(json)?;
        let refining = if refine {
            Refining::ByOffers
        } else {
            Refining::No
        };
        return Ok(refining);
    };
    if !is_same(text, "exact") {
        return Err(Refusal::Fault(QFault::BadParameter));
    }
    Ok(Refining::Exactly)
}

/// Not at all where the member is absent. (Guide: JSON Facet API, "Terms Facet", `refine`)
pub(crate) fn refining_in(members: &Map<String, Value>) -> Result<Refining, Refusal<QFault>>
    ensures { Answers refining_view fault_view result
        (said_or reading.refining_in reading.not_refined
        (get_member (codes "refine") (members_view members.now.entries))) }
{
    match member(members, "refine") {
        Some(json) => refining_of(json),
        None => Ok(Refining::No),
    }
}
