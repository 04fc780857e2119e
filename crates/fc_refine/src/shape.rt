// The shape of messages.
ghost use Rattle.std.specs.Prelude.{◌≡◌};
ghost use Rattle.fc_spec.specs.messages.MessageShape as definition;
ghost use Rattle.fc_spec.specs.requests.Ranks.{offered_bound};
ghost use Rattle.fc_partial.specs.BucketView.{bucket_view, buckets_view, message_view};
ghost use Rattle.fc_partial.specs.View.{key_view};
ghost use Rattle.fc_request.specs.NodeView.{nodes_view};
ghost use Rattle.fc_request.specs.RequestView.{request_view};
ghost use Rattle.fc_refine.specs.AskView.{ask_view, wants_view};
ghost use Rattle.fc_refine.specs.CountableRanges.{AreCountable};

use crate::bucket_shape::values_fit;
use crate::nested_shape::rows_fit;
use crate::ways::wanted_nodes;
use crate::{Ask, Want};
use fc_partial::{Key, Message, PartialBucket};
use fc_request::{Node, Request};

// Whether a top bucket has this key and the shape of these nodes.
fn top_fits(key: &Key, nodes: &[Node], bucket: &PartialBucket) -> bool
    requires { AreCountable (nodes_view nodes.now) }
    ensures { result ≡ definition.top_fits offered_bound (key_view key.now) (nodes_view nodes.now)
        (bucket_view bucket.now).key (bucket_view bucket.now).stats (bucket_view bucket.now).rows }
{
    if !key.cmp(&bucket.key).is_eq() {
        return false;
    }
    if !values_fit(nodes, &bucket.stats.values) {
        return false;
    }
    rows_fit(nodes, &bucket.nodes)
}

fn root_fits(nodes: &[Node], buckets: &[PartialBucket]) -> bool
    requires { AreCountable (nodes_view nodes.now) }
    ensures { result ≡ definition.root_fits offered_bound (nodes_view nodes.now) (buckets_view buckets.now) }
{
    if buckets.len() != 1 {
        return false;
    }
    top_fits(&Key::Whole, nodes, &buckets[0])
}

// Whether there is one bucket for each want, in order.
fn wants_fit(nodes: &[Node], wants: &[Want], buckets: &[PartialBucket]) -> bool
    requires { AreCountable (nodes_view nodes.now) }
    ensures { result ≡ definition.wants_fit offered_bound (nodes_view nodes.now) (wants_view wants.now) (buckets_view buckets.now) }
{
    if wants.len() != buckets.len() {
        return false;
    }
    for (at, want) in wants.iter().enumerate() {
        if !top_fits(&want.key, wanted_nodes(nodes, want), &buckets[at]) {
            return false;
        }
    }
    true
}

/// Whether the message has the shape that the ask demands: the root's bucket, or one for each want in order, of its key;
/// in each bucket the facet's statistics and a list for each nested facet, whose keys ascend and are the facet's, with no
/// more values than a shard offers. Each of its buckets has a document, but a query facet's and, where the facet holds one
/// that excludes tags, those that are no value's. The gaps of the request's ranges can be counted, as those of any request
/// that was read.
pub fn shaped(request: &Request, ask: &Ask, message: &Message) -> bool
    requires { AreCountable (request_view request.now).nodes }
    ensures { result ≡ definition.is_shaped (request_view request.now) (ask_view ask.now) (message_view message.now) }
{
    let nodes = &request.root.nodes;
    match ask {
        Ask::First => root_fits(nodes, &message.buckets),
        Ask::More(wants) => wants_fit(nodes, wants, &message.buckets),
    }
}
