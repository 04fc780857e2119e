// Integers as texts.
ghost use Rattle.std.specs.Prelude.{◌≡◌, ◌≤◌, IfOk, length};
ghost use Rattle.fc_spec.specs.documents.IntegerTexts.{decimal_text};

use fc_base::{Name, WantMemory};
use itoa::Buffer;
use std::alloc::Global;

/// The decimal text of an integer, which has at most 20 bytes.
pub fn decimal_name(alloc: Global, number: i64) -> Result<Name, WantMemory>
    ensures text { IfOk result (λ name. name ≡ decimal_text number) }
    ensures short { IfOk result (λ name. length name ≤ 20) }
{
    Name::new(alloc, Buffer::new().format(number))
}
