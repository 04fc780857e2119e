// Whether a message can be taken.
ghost use Rattle.std.specs.Prelude.{◌≡◌, ◌↔◌, List, IsTrue};
ghost use Rattle.fc_spec.specs.messages.Held.{Told};
ghost use Rattle.fc_partial.specs.BucketView.{message_view};
ghost use Rattle.fc_coord.specs.State.{is_awaited, is_fitting, Fits};
ghost use Rattle.fc_coord.specs.Keeps.{Keeps};
ghost use Rattle.fc_coord.specs.CoordView.{state_view};

use crate::Coord;
use fc_partial::Message;
use fc_refine::shaped;
use fc_told::trees_tell;

impl Coord<'_> {
    /// Whether the message of an awaited shard can be taken: it has the shape that its ask demands, and with it no
    /// bucket's counts add up to more than 2^64 - 1 over all that was told, nor the absolute values of one of its numbers
    /// to more than 2^63 - 1.
    pub fn fits(&self, shard: u32, message: &Message) -> bool
        requires { IsTrue (is_awaited (state_view self.now) shard) }
        ensures test { result ≡ is_fitting (state_view self.now) shard (message_view message.now) }
        // behind all that was told
        ensures sums { (A : List Told) → Keeps (state_view self.now) A
            → IsTrue result ↔ Fits (state_view self.now) A shard (message_view message.now) }
    {
        trees_tell();
        let ask = self.ask(shard);
        shaped(self.request, ask, message) && self.told.fits(&self.request.root.nodes, ask, message)
    }
}
