// The lines of one document.
ghost use Rattle.std.specs.Prelude.{◌≡◌, ◌≤◌, ◌++◌, IfOk};
ghost use Rattle.fc_demo.specs.Demo.{add_line, lines_of, numbered};

use crate::lines::COMMIT;
use fc_base::WantMemory;
use itoa::Buffer;

// Appends a text, and then a number in decimal digits.
fn push_number(script: &mut Vec<u8>, before: &[u8], number: u32) -> Result<(), WantMemory>
    ensures { IfOk result (λ _. script.new.items ≡ script.old.items ++ numbered before.now number) }
{
    let mut digits = Buffer::new();
    script.extend_from_slice(before)?;
    script.extend_from_slice(digits.format(number).as_bytes())?;
    Ok(())
}

// Appends the line that adds the document of this number.
fn push_added(script: &mut Vec<u8>, i: u32) -> Result<(), WantMemory>
    requires { i ≤ 200_000 }
    ensures { IfOk result (λ _. script.new.items ≡ script.old.items ++ add_line i) }
{
    push_number(script, b"{\"add\":{\"shard\":", i % 4)?;
    push_number(script, b",\"doc\":{\"id\":\"d", i)?;
    push_number(script, b"\",\"brand\":\"b", 7 * i % 13)?;
    push_number(script, b"\",\"price\":", 31 * i % 1000)?;
    push_number(script, b",\"tags\":[\"t", i % 5)?;
    push_number(script, b"\",\"t", i % 3)?;
    script.extend_from_slice(b"\"]}}}\n")?;
    Ok(())
}

// Appends a document's line, and after each thousandth document a commit.
pub fn push_document(script: &mut Vec<u8>, i: u32) -> Result<(), WantMemory>
    requires { i ≤ 200_000 }
    ensures { IfOk result (λ _. script.new.items ≡ script.old.items ++ lines_of i) }
{
    push_added(script, i)?;
    if (i + 1) % 1000 == 0 {
        script.extend_from_slice(COMMIT)?;
    }
    Ok(())
}
