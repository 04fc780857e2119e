// The reply line of a search.
ghost use Rattle.std.specs.Prelude.{◌≡◌, codes, IfOk, OnOk};
ghost use Rattle.serde_json.specs.Data.{string, array, object, no_members, put};
ghost use Rattle.fc_spec.specs.replies.Json.{bucket_data};
ghost use Rattle.fc_spec.specs.scripts.Lines.{numbers_data, reply_line as line_of_reply};
ghost use Rattle.fc_reply.specs.ReplyView.{reply_view};
ghost use Rattle.fc_reply.specs.Tokens.{WritesData};

use crate::Reply;
use crate::bucket::write_bucket;
use fc_base::{Name, WantMemory};
use json::Writer;
use std::alloc::Global;

// Numbers in their order.
fn write_numbers(numbers: &[u64], out: &mut Writer) -> Result<(), WantMemory>
    ensures { OnOk result (WritesData out.old out.new (array (numbers_data numbers.now))) }
{
    out.begin_array()?;
    for number in numbers {
        out.u64(*number)?;
    }
    Ok(out.end_array()?)
}

// What the reply line says, with its members in the order of their names.
fn write_reply(
    alloc: Global,
    reply: &Reply,
    generations: &[u64],
    session: &str,
    out: &mut Writer,
) -> Result<(), WantMemory>
    ensures { OnOk result (WritesData out.old out.new (object
        (put (codes "facets") (bucket_data (reply_view reply.now))
        (put (codes "generations") (array (numbers_data generations.now))
        (put (codes "session") (string session.now) no_members))))) }
{
    out.begin_object()?;
    out.key("facets")?;
    write_bucket(alloc, &reply.root, out)?;
    out.key("generations")?;
    write_numbers(generations, out)?;
    out.key("session")?;
    out.string(session)?;
    Ok(out.end_object()?)
}

/// The reply line of a search: its facets, the number of each shard's generation, its session, and a line feed.
pub fn reply_line(
    alloc: Global,
    reply: &Reply,
    generations: &[u64],
    session: &Name,
) -> Result<Vec<u8>, WantMemory>
    ensures { IfOk result (λ line. line.items
        ≡ line_of_reply (reply_view reply.now) generations.now session.now) }
{
    let mut out = Writer::new(Vec::new(alloc));
    write_reply(alloc, reply, generations, session.text(), &mut out)?;
    let mut line = out.into_inner();
    line.push(b'\n')?;
    Ok(line)
}
