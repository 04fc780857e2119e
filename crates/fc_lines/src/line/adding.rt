// Lines that add a block and have no fault, read from their tokens.
ghost use Rattle.std.specs.Prelude.{◌≡◌, ◌∷◌, ◌<◌, [], codes, IfOk, IfSome, Ok, nat_eq};
ghost use Rattle.std.specs.Bool.{OnTrue};
ghost use Rattle.std.specs.List.{starts_with};
ghost use Rattle.json.specs.Token as token;
ghost use Rattle.fc_spec.specs.documents.ValidBlocks.{IsBlockOf};
ghost use Rattle.fc_spec.specs.scripts.Script.{add};
ghost use Rattle.fc_docs.specs.View.{block_view};
ghost use Rattle.fc_lines.specs.AddedTokens.{SaysAdd};
ghost use Rattle.fc_lines.specs.AskedLines.{asked_on};

mod members;
mod shard;

use crate::lines::LINE_LIMIT;
use fc_base::{Schema, WantMemory};
use fc_docs::Block;
use json::{Reader, Scratch, Token};
use members::{ends, read_added};
use std::alloc::Global;
use std::str;

// `{"add":{` comes next.
fn opens(reader: &mut Reader<'_>) -> bool
    ensures { OnTrue result (reader.old
        ≡ token.begin_object ∷ token.key (codes "add") ∷ token.begin_object ∷ reader.new) }
{
    matches!(reader.next(), Some(Token::BeginObject))
        && matches!(reader.next(), Some(Token::Key("add")))
        && matches!(reader.next(), Some(Token::BeginObject))
}

// A brace is all that is left.
fn closes(reader: &mut Reader<'_>) -> bool
    ensures { OnTrue result (reader.old ≡ token.end_object ∷ []) }
{
    ends(reader) && reader.next().is_none()
}

fn read_tokens(
    alloc: Global,
    schema: &Schema,
    reader: &mut Reader<'_>,
) -> Result<Option<(u32, Block)>, WantMemory>
    ensures { IfOk result (λ found. IfSome found (λ added.
        SaysAdd schema.now reader.old added.0 (block_view added.1))) }
{
    if !opens(reader) {
        return Ok(None);
    }
    let Some(added) = read_added(alloc, schema, reader)? else {
        return Ok(None);
    };
    if closes(reader) {
        Ok(Some(added))
    } else {
        Ok(None)
    }
}

/// Whether a line begins with `{"add"`, as lines that add a block do as a rule. One that does not may add a block in another
/// spelling.
pub fn begins_as_block(text: &[u8]) -> bool
    ensures { result ≡ starts_with nat_eq text.now (codes "{\"add\"") }
{
    text.starts_with(b"{\"add\"")
}

/// The shard and the block that a line adds, where it begins as such lines do as a rule. None says nothing: such a line may
/// have a fault, or add a block in another spelling.
pub(super) fn added_on(
    alloc: Global,
    schema: &Schema,
    scratch: &mut Scratch,
    text: &[u8],
) -> Result<Option<(u32, Block)>, WantMemory>
    ensures answer { IfOk result (λ found. IfSome found (λ added.
        asked_on schema.now text.now ≡ Ok (add added.0 (block_view added.1)))) }
    ensures valid { IfOk result (λ found. IfSome found (λ added.
        (added.0 < schema.now.shards) × IsBlockOf schema.now (block_view added.1))) }
{
    if !begins_as_block(text) {
        return Ok(None);
    }
    if text.len() > LINE_LIMIT {
        return Ok(None);
    }
    let Ok(text) = str::from_utf8(text) else {
        return Ok(None);
    };
    let mut reader = Reader::new(text, scratch)?;
    read_tokens(alloc, schema, &mut reader)
}
