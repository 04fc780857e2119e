// What a line after the schema says.
ghost use Rattle.std.specs.Prelude.{◌≡◌, ◌<◌, IfOk, IfSome, ok_or, option_map};
ghost use Rattle.std.specs.Result.{result_map_both};
ghost use Rattle.serde_json.specs.View.{view, members_view};
ghost use Rattle.fc_spec.specs.scripts.LineReading as reading;
ghost use Rattle.fc_spec.specs.documents.BlockReading.{block_of};
ghost use Rattle.fc_spec.specs.scripts.ScriptFault.{bad_document, unknown_line};
ghost use Rattle.fc_spec.specs.words.Walks.{with_fault};
ghost use Rattle.fc_base.specs.Answers.{Answers};
ghost use Rattle.fc_docs.specs.View.{block_view};
ghost use Rattle.fc_spec.specs.documents.Schema.{Schema};
ghost use Rattle.fc_spec.specs.documents.ValidBlocks.{IsBlockOf};
ghost use Rattle.fc_lines.specs.AskedLines.{asked_line};
ghost use Rattle.fc_lines.specs.FaultView.{line_fault_view};
ghost use Rattle.fc_lines.specs.LineView.{line_view};
ghost use Rattle.fc_lines.specs.ValidLines.{HasRoot, IsLineOf};

use super::Line;
use super::search::asking;
use super::taking::{take_member, take_members, take_sole_member};
use crate::fault::LineFault;
use fc_base::json::{has_only, member};
use fc_base::{Name, Refusal, Schema};
use fc_docs::{Block, decimal_name, read_block};
use serde_json::{Map, Value};
use std::alloc::Global;

// The number of one of so many shards.
fn shard_of(shards: u32, json: &Value) -> Result<u32, LineFault>
    ensures answer { result_map_both (λ shard. shard) line_fault_view result
        ≡ reading.shard_of shards (view json.now) }
    ensures below { IfOk result (λ shard. shard < shards) }
{
    match json.as_u64() {
        Some(shard) if shard < u64::from(shards) => Ok(shard as u32),
        _ => Err(LineFault::BadShard),
    }
}

// The shard of a block or of an id: 0 where none is named.
fn added_shard(schema: &Schema, json: Option<&Value>) -> Result<u32, LineFault>
    ensures answer { result_map_both (λ shard. shard) line_fault_view result
        ≡ reading.added_shard schema.now (option_map (λ json. view json.now) json.entry) }
    ensures below { IfOk result (λ shard. shard < schema.now.shards) }
{
    // There is at least one.
    let shards = schema.shards();
    match json {
        Some(json) => shard_of(shards, json),
        None => Ok(0),
    }
}

// The shard of a commit; every shard where none is named.
fn committed_shard(schema: &Schema, json: Option<&Value>) -> Result<Option<u32>, LineFault>
    ensures answer { result_map_both (λ shard. shard) line_fault_view result
        ≡ reading.committed_shard schema.now (option_map (λ json. view json.now) json.entry) }
    ensures below { IfOk result (λ shard. IfSome shard (λ n. n < schema.now.shards)) }
{
    match json {
        Some(json) => Ok(Some(shard_of(schema.shards(), json)?)),
        None => Ok(None),
    }
}

// A session: a text of 1 to 64 bytes, and `main` where none is named.
fn session_of<'v>(json: Option<&'v Value>) -> Result<&'v str, LineFault>
    ensures { result_map_both (λ session. session.now) line_fault_view result
        ≡ reading.session_of (option_map (λ json. view json.now) json.entry) }
{
    let Some(json) = json else {
        return Ok("main");
    };
    match json.as_str() {
        Some(session) if !session.is_empty() && session.len() <= 64 => Ok(session),
        _ => Err(LineFault::UnknownLine),
    }
}

// The block that a value is.
fn block_of(alloc: Global, schema: &Schema, json: Value) -> Result<Block, Refusal<LineFault>>
    ensures answer { Answers block_view line_fault_view result
        (with_fault bad_document (block_of schema.now (view json))) }
    ensures valid { IfOk result (λ block. IsBlockOf schema.now (block_view block)) }
{
    match read_block(alloc, schema, json) {
        Ok(block) => Ok(block),
        Err(Refusal::Memory) => Err(Refusal::Memory),
        Err(Refusal::Fault(fault)) => Err(Refusal::Fault(LineFault::BadDocument(fault))),
    }
}

// What the members of an `add` say.
fn add_of(
    alloc: Global,
    schema: &Schema,
    mut members: Map<String, Value>,
) -> Result<Line, Refusal<LineFault>>
    ensures answer { Answers line_view line_fault_view result
        (asked_line schema.now (reading.add_of schema.now (members_view members.entries))) }
    ensures valid { IfOk result (λ line. IsLineOf schema.now (line_view line)) }
    ensures root { IfOk result HasRoot }
{
    if !has_only(&members, &["doc", "shard"]) {
        return Err(Refusal::Fault(LineFault::UnknownLine));
    }
    let shard = added_shard(schema, member(&members, "shard"));
    let document = take_member(&mut members, "doc").ok_or(LineFault::UnknownLine)?;
    let shard = shard?;
    let block = block_of(alloc, schema, document)?;
    Ok(Line::Add(shard, block))
}

// The id that a value is: a text, or a whole number of 64 bits, which stands for its decimal text.
fn deleted_id(alloc: Global, json: &Value) -> Result<Name, Refusal<LineFault>>
    ensures { Answers (λ id. id) line_fault_view result
        (ok_or (reading.deleted_id (view json.now)) unknown_line) }
{
    if let Some(text) = json.as_str() {
        return Ok(Name::new(alloc, text)?);
    }
    let number = json.as_i64().ok_or(LineFault::UnknownLine)?;
    Ok(decimal_name(alloc, number)?)
}

// What the members of a `delete` say.
fn delete_of(
    alloc: Global,
    schema: &Schema,
    members: &Map<String, Value>,
) -> Result<Line, Refusal<LineFault>>
    ensures answer { Answers line_view line_fault_view result
        (asked_line schema.now (reading.delete_of schema.now (members_view members.now.entries))) }
    ensures valid { IfOk result (λ line. IsLineOf schema.now (line_view line)) }
    ensures root { IfOk result HasRoot }
{
    if !has_only(members, &["id", "shard"]) {
        return Err(Refusal::Fault(LineFault::UnknownLine));
    }
    let json = member(members, "id").ok_or(LineFault::UnknownLine)?;
    let id = deleted_id(alloc, json)?;
    let shard = added_shard(schema, member(members, "shard"))?;
    Ok(Line::Delete(shard, id))
}

// What the members of a `commit` say.
fn commit_of(schema: &Schema, members: &Map<String, Value>) -> Result<Line, LineFault>
    ensures answer { result_map_both line_view line_fault_view result
        ≡ asked_line schema.now (reading.commit_of schema.now (members_view members.now.entries)) }
    ensures valid { IfOk result (λ line. IsLineOf schema.now (line_view line)) }
    ensures root { IfOk result HasRoot }
{
    if !has_only(members, &["shard"]) {
        return Err(LineFault::UnknownLine);
    }
    Ok(Line::Commit(committed_shard(schema, member(members, "shard"))?))
}

// What the members of a `sync` say.
fn sync_of(members: &Map<String, Value>) -> Result<Line, LineFault>
    ensures answer { (s : Schema) → result_map_both line_view line_fault_view result
        ≡ asked_line s (reading.sync_of (members_view members.now.entries)) }
    ensures valid { (s : Schema) → IfOk result (λ line. IsLineOf s (line_view line)) }
    ensures root { IfOk result HasRoot }
{
    if !has_only(members, &[]) {
        return Err(LineFault::UnknownLine);
    }
    Ok(Line::Sync)
}

// What the members of a `search` say.
fn search_of(
    alloc: Global,
    schema: &Schema,
    members: &Map<String, Value>,
) -> Result<Line, Refusal<LineFault>>
    ensures answer { Answers line_view line_fault_view result
        (asked_line schema.now (reading.search_of (members_view members.now.entries))) }
    ensures valid { IfOk result (λ line. IsLineOf schema.now (line_view line)) }
    ensures root { IfOk result HasRoot }
{
    if !has_only(members, &["request", "session"]) {
        return Err(Refusal::Fault(LineFault::UnknownLine));
    }
    let request = member(members, "request").ok_or(LineFault::UnknownLine)?;
    let session = session_of(member(members, "session"))?;
    Ok(asking(alloc, schema, session, request)?)
}

/// What the JSON of a line says, or its fault.
pub(crate) fn read_line(
    alloc: Global,
    schema: &Schema,
    json: Value,
) -> Result<Line, Refusal<LineFault>>
    ensures answer { Answers line_view line_fault_view result
        (asked_line schema.now (reading.line_said schema.now (view json))) }
    ensures valid { IfOk result (λ line. IsLineOf schema.now (line_view line)) }
    ensures root { IfOk result HasRoot }
{
    let (name, inside) = take_sole_member(json).ok_or(LineFault::UnknownLine)?;
    let members = take_members(inside).ok_or(LineFault::UnknownLine)?;
    match name.as_str() {
        "add" => add_of(alloc, schema, members),
        "delete" => delete_of(alloc, schema, &members),
        "commit" => Ok(commit_of(schema, &members)?),
        "sync" => Ok(sync_of(&members)?),
        "search" => search_of(alloc, schema, &members),
        _ => Err(Refusal::Fault(LineFault::UnknownLine)),
    }
}
