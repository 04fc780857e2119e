// The lines of a window more.
use super::ScriptReader;
use fc_base::Refusal;
use fc_lines::{LineFault, ScriptFault, at_line};
use fc_window::{Ahead, Slot};
use json::Scratch;
use std::alloc::Global;

impl ScriptReader {
    ghost use Rattle.std.specs.Prelude.{◌≡◌, All, IfOk, map};
    ghost use Rattle.fc_lines.specs.AskedLines.{asked_on};
    ghost use Rattle.fc_lines.specs.FaultView.{line_fault_view, script_fault_view};
    ghost use Rattle.fc_script.specs.Meets.{Meets};
    ghost use Rattle.fc_script.specs.ReadSoFar.{ReadSoFar, with_all, with_numbered, with_text as with_text_line};
    ghost use Rattle.fc_script.specs.ReadView.{HasRead};
    ghost use Rattle.fc_window.specs.Ahead.{IsAhead, IsPlaced};
    ghost use Rattle.fc_window.specs.Slots.{HasSaid, line_of};

    // With the line of this text, of which a block or a fault may have been read ahead.
    fn with_ahead(
        self,
        alloc: Global,
        scratch: &mut Scratch,
        text: &[u8],
        ahead: Ahead,
    ) -> Result<ScriptReader, Refusal<LineFault>>
        requires answer { IsAhead (asked_on self.schema text.now) ahead }
        requires placed { IfOk ahead (IsPlaced self.schema) }
        ensures schema { IfOk result (λ r. r.schema ≡ self.schema) }
        ensures meets { (S : ReadSoFar) → HasRead self S
            → Meets HasRead line_fault_view result (with_text_line S text.now) }
    {
        match ahead {
            Ok(Some((shard, block))) => self.with_block(shard, block),
            Ok(None) => self.with_text(alloc, scratch, text),
            Err(refusal) => Err(refusal),
        }
    }

    // With a line of a window.
    fn with_slot(
        self,
        alloc: Global,
        scratch: &mut Scratch,
        slot: &mut Slot<'_>,
    ) -> Result<ScriptReader, Refusal<ScriptFault>>
        requires { HasSaid self.schema slot.old }
        ensures schema { IfOk result (λ r. r.schema ≡ self.schema) }
        ensures meets { (S : ReadSoFar) → HasRead self S
            → Meets HasRead script_fault_view result (with_numbered S (line_of slot.old)) }
    {
        let number = slot.number;
        let text = slot.text;
        let ahead = slot.take();
        self.with_ahead(alloc, scratch, text, ahead)
            .map_err(|refusal| at_line(number, refusal))
    }

    /// With the lines of a window, in their order; what was read of a line ahead is taken from it.
    pub(crate) fn with_window(
        self,
        alloc: Global,
        scratch: &mut Scratch,
        window: &mut [Slot<'_>],
    ) -> Result<ScriptReader, Refusal<ScriptFault>>
        requires { All (HasSaid self.schema) window.old }
        ensures { (S : ReadSoFar) → HasRead self S
            → Meets HasRead script_fault_view result (with_all S (map line_of window.old)) }
    {
        let mut reading = self;
        for slot in window.iter_mut() {
            reading = reading.with_slot(alloc, scratch, slot)?;
        }
        Ok(reading)
    }
}
