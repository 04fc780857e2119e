// Scripts as a run takes them.
use crate::limits::{Limits, SCRIPT_LIMITS};
use crate::read::read_script;
use crate::windows::read_script_by;
use fc_base::{Name, Refusal, Schema};
use fc_docs::Batch;
use fc_lines::ScriptFault;
use fc_request::{Request, RequestFault};
use std::alloc::Global;
use std::sync::Arc;
use std::thread::Threads;

/// A search: the number of its session, from 0 in the order of the script's sessions, and what it asks, or the fault of
/// that.
#[derive(Debug, Drop)]
pub struct Search {
    pub session: u32,
    pub request: Result<Request, RequestFault>,
}

/// A phase: how many commits each shard has up to its end, by the numbers of the shards, and its searches in script order.
#[derive(Debug, Drop)]
pub struct Phase {
    pub commits: Vec<u32>,
    pub searches: Vec<Search>,
}

/// A script: its schema, its sessions in the order of their first searches, for each shard a batch for each of its
/// commits, and its phases.
#[derive(Debug, Drop)]
pub struct Script {
    pub schema: Arc<Schema>,
    pub sessions: Vec<Name>,
    pub batches: Vec<Vec<Batch>>,
    pub phases: Vec<Phase>,
}

impl Script {
    ghost use Rattle.std.specs.Prelude.{◌≤◌, IfOk};
    ghost use Rattle.fc_spec.specs.scripts.AskedScripts.{asked_script_of};
    ghost use Rattle.fc_spec.specs.scripts.ScriptParts.{parts_spelled};
    ghost use Rattle.fc_spec.specs.scripts.ScriptTotals.{script_limits};
    ghost use Rattle.fc_spec.specs.scripts.ValidScripts.{IsWithin};
    ghost use Rattle.fc_base.specs.Answers.{Answers};
    ghost use Rattle.fc_lines.specs.FaultView.{script_fault_view};
    ghost use Rattle.fc_script.specs.LimitsView.{limits_view};
    ghost use Rattle.fc_script.specs.PartsView.{parts_view};
    ghost use Rattle.fc_script.specs.SoundScripts.{IsSound};

    /// The script that the bytes spell, each request read, or the fault of that; or the script's first fault. Requests that
    /// were read are valid for the schema, as are the blocks of the batches, and the script is within its limits.
    pub fn read(alloc: Global, bytes: &[u8]) -> Result<Script, Refusal<ScriptFault>>
        ensures answer { Answers parts_view script_fault_view result (parts_spelled script_limits bytes.now) }
        ensures within { IfOk result (λ script. IfOk (asked_script_of script_limits bytes.now) (IsWithin script_limits)) }
        ensures sound { IfOk result (IsSound script_limits) }
    {
        Script::read_within(alloc, SCRIPT_LIMITS, bytes)
    }

    /// The same, read by so many workers, 1 to 64: windows of some thousand lines are read side by side and gathered in order. One
    /// worker makes no thread.
    pub fn read_by<R: Threads + Sync>(
        rt: &R,
        alloc: Global,
        workers: u32,
        bytes: &[u8],
    ) -> Result<Script, Refusal<ScriptFault>>
        requires workers { (1 ≤ workers) × (workers ≤ 64) }
        ensures answer { Answers parts_view script_fault_view result (parts_spelled script_limits bytes.now) }
        ensures within { IfOk result (λ script. IfOk (asked_script_of script_limits bytes.now) (IsWithin script_limits)) }
        ensures sound { IfOk result (IsSound script_limits) }
    {
        read_script_by(rt, alloc, workers as usize, SCRIPT_LIMITS, bytes)
    }

    /// The same as `read` under other limits on documents and values.
    pub fn read_within(
        alloc: Global,
        limits: Limits,
        bytes: &[u8],
    ) -> Result<Script, Refusal<ScriptFault>>
        ensures answer { Answers parts_view script_fault_view result (parts_spelled (limits_view limits) bytes.now) }
        ensures within { IfOk result (λ script. IfOk (asked_script_of (limits_view limits) bytes.now) (IsWithin (limits_view limits))) }
        ensures sound { IfOk result (IsSound (limits_view limits)) }
    {
        read_script(alloc, limits, bytes)
    }
}
