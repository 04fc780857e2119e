// The reply.
ghost use Rattle.std.specs.Prelude.{◌≡◌, List, IfOk, length, true};
ghost use Rattle.fc_spec.specs.messages.Held.{Told};
ghost use Rattle.fc_spec.specs.messages.Merged.{merged};
ghost use Rattle.fc_reply.specs.ReplyView.{reply_view};
ghost use Rattle.fc_coord.specs.Keeps.{Keeps};
ghost use Rattle.fc_coord.specs.CoordView.{state_view};

use crate::Coord;
use crate::reading::merged_reply;
use fc_base::WantMemory;
use fc_reply::Reply;
use fc_told::trees_tell;

impl Coord<'_> {
    /// The reply over all that was told, once it can be made.
    pub fn into_reply(self) -> Result<Reply, WantMemory>
        requires { (state_view self).ready ≡ true }
        ensures { IfOk result (λ reply. (A : List Told) → Keeps (state_view self.entry) A
            → reply_view reply ≡ merged (state_view self.entry).request (length (state_view self.entry).asks) A) }
    {
        trees_tell();
        let shards = self.asks.len() as u32;
        merged_reply(self.alloc, self.request, shards, &self.told)
    }
}
