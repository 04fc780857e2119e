// The whole script.
ghost use Rattle.std.specs.Prelude.{◌≡◌, ◌≤◌, IfOk};
ghost use Rattle.fc_demo.specs.Demo.{demo_script};

use crate::document::push_document;
use crate::lines::{COMMIT, SCHEMA, SEARCH, SYNC};
use fc_base::WantMemory;
use std::alloc::Global;

/// The script of the demo with so many documents: in four shards, a commit after each thousand and one at the end, and one
/// search by brand and by tag.
pub fn demo(alloc: Global, documents: u32) -> Result<Vec<u8>, WantMemory>
    requires { documents ≤ 200_000 }
    ensures { IfOk result (λ script. script.items ≡ demo_script documents) }
{
    let mut script = Vec::from_slice(alloc, SCHEMA)?;
    for i in 0..documents {
        push_document(&mut script, i)?;
    }
    script.extend_from_slice(COMMIT)?;
    script.extend_from_slice(SYNC)?;
    script.extend_from_slice(SEARCH)?;
    Ok(script)
}
