// Lines are written.
ghost use Rattle.std.specs.Prelude.{◌≡◌, ◌≤◌, Err};
ghost use Rattle.fc_spec.specs.scripts.Lines.{fault_line as line_of_fault};
ghost use Rattle.fc_lines.specs.FaultView.{script_fault_view};
ghost use Rattle.fc_io.specs.Faults.{Rose};
ghost use Rattle.fc_run.specs.Ending.{WritesAll, WritesPart};
ghost use Rattle.fc_run.specs.declared.stop.Stop.TheVariants.{SinkFailed};

use crate::stop::Stop;
use fc_io::{Sink, WriteEnd, write_all};
use fc_script::{ScriptFault, fault_line};
use std::alloc::Global;

/// Writes all of a text, unless the sink fails.
pub(crate) fn write_text<K: Sink>(sink: &mut K, text: &[u8]) -> Result<(), Stop>
    ensures written { WritesPart result (K.written sink.old) (K.written sink.new) text.now }
    ensures rose { result ≡ Err SinkFailed → Rose (K.faults sink.old) (K.faults sink.new) }
    ensures never_falls { K.faults sink.old ≤ K.faults sink.new }
{
    match write_all(sink, text) {
        WriteEnd::Whole => Ok(()),
        WriteEnd::WriteFault => Err(Stop::SinkFailed),
    }
}

/// Writes the line of a script's fault.
pub(crate) fn write_fault<K: Sink>(
    alloc: Global,
    sink: &mut K,
    fault: &ScriptFault,
) -> Result<(), Stop>
    ensures written { WritesAll result (K.written sink.old) (K.written sink.new) (λ t. t ≡ line_of_fault (script_fault_view fault.now)) }
    ensures rose { result ≡ Err SinkFailed → Rose (K.faults sink.old) (K.faults sink.new) }
    ensures never_falls { K.faults sink.old ≤ K.faults sink.new }
{
    let line = fault_line(alloc, fault)?;
    write_text(sink, &line)?;
    Ok(())
}
