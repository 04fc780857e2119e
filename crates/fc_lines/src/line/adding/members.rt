// The members of an `add`: a document, and at most one shard before it or behind it.
ghost use Rattle.std.specs.Prelude.{◌≡◌, ◌∷◌, IfOk, IfSome};
ghost use Rattle.std.specs.Bool.{OnTrue};
ghost use Rattle.json.specs.Token as token;
ghost use Rattle.fc_docs.specs.View.{block_view};
ghost use Rattle.fc_lines.specs.AddedTokens.{GivesAdded, GivesShardBehind, part_token};

use super::shard::read_shard;
use fc_base::{Schema, WantMemory};
use fc_docs::{Block, read_directly};
use json::{Reader, Token};
use std::alloc::Global;

// A key, or the brace behind the members.
#[derive(Clone, Copy)]
enum Part {
    Doc,
    Shard,
    End,
}

fn next_part(reader: &mut Reader<'_>) -> Option<Part>
    ensures { IfSome result (λ part. reader.old ≡ part_token part ∷ reader.new) }
{
    match reader.next() {
        Some(Token::Key("doc")) => Some(Part::Doc),
        Some(Token::Key("shard")) => Some(Part::Shard),
        Some(Token::EndObject) => Some(Part::End),
        _ => None,
    }
}

/// A brace comes next.
pub(super) fn ends(reader: &mut Reader<'_>) -> bool
    ensures { OnTrue result (reader.old ≡ token.end_object ∷ reader.new) }
{
    matches!(reader.next(), Some(Token::EndObject))
}

// The shard of a document that has been read: 0 where none is named.
fn shard_behind(schema: &Schema, reader: &mut Reader<'_>) -> Option<u32>
    ensures { IfSome result (λ n. GivesShardBehind schema.now reader.old reader.new n) }
{
    // There is at least one.
    let shards = schema.shards();
    match next_part(reader)? {
        Part::End => Some(0),
        Part::Shard => {
            let shard = read_shard(shards, reader)?;
            if ends(reader) { Some(shard) } else { None }
        }
        Part::Doc => None,
    }
}

// What is added where the key of the document has been read.
fn doc_first(
    alloc: Global,
    schema: &Schema,
    reader: &mut Reader<'_>,
) -> Result<Option<(u32, Block)>, WantMemory>
    ensures { IfOk result (λ found. IfSome found (λ added.
        GivesAdded schema.now (part_token Part.Doc ∷ reader.old) reader.new added.0 (block_view added.1))) }
{
    let Some(block) = read_directly(alloc, schema, reader)? else {
        return Ok(None);
    };
    match shard_behind(schema, reader) {
        Some(shard) => Ok(Some((shard, block))),
        None => Ok(None),
    }
}

// What is added where the key of the shard has been read.
fn shard_first(
    alloc: Global,
    schema: &Schema,
    reader: &mut Reader<'_>,
) -> Result<Option<(u32, Block)>, WantMemory>
    ensures { IfOk result (λ found. IfSome found (λ added.
        GivesAdded schema.now (part_token Part.Shard ∷ reader.old) reader.new added.0 (block_view added.1))) }
{
    let Some(shard) = read_shard(schema.shards(), reader) else {
        return Ok(None);
    };
    let Some(Part::Doc) = next_part(reader) else {
        return Ok(None);
    };
    let Some(block) = read_directly(alloc, schema, reader)? else {
        return Ok(None);
    };
    if ends(reader) {
        Ok(Some((shard, block)))
    } else {
        Ok(None)
    }
}

/// The shard and the block of an `add`, whose first brace has been read.
pub(super) fn read_added(
    alloc: Global,
    schema: &Schema,
    reader: &mut Reader<'_>,
) -> Result<Option<(u32, Block)>, WantMemory>
    ensures { IfOk result (λ found. IfSome found (λ added.
        GivesAdded schema.now reader.old reader.new added.0 (block_view added.1))) }
{
    match next_part(reader) {
        Some(Part::Doc) => doc_first(alloc, schema, reader),
        Some(Part::Shard) => shard_first(alloc, schema, reader),
        _ => Ok(None),
    }
}
