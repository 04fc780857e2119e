// A law about the ranges of requests.
ghost use Rattle.fc_spec.specs.documents.Schema.{Schema};
ghost use Rattle.fc_spec.specs.requests.Request.{Request};
ghost use Rattle.fc_spec.specs.requests.ValidRequests.{IsSearchable};
ghost use Rattle.fc_refine.specs.CountableRanges.{AreCountable};

/// The gaps of each range facet can be counted, where the request is valid but for names.
pub fn valid_requests_are_countable()
    ensures { (s : Schema) (r : Request) → IsSearchable s r → AreCountable r.nodes }
{}
