// Texts, each in as little memory as its length asks for.
ghost use Rattle.std.specs.Prelude.{◌≡◌, ◌≤◌, IfOk, length, take};
ghost use Rattle.fc_base.specs.IsText.{IsText, StartsWithText};
ghost use Rattle.fc_base.specs.TextBytes.{text_bytes};

use crate::WantMemory;
use std::alloc::Global;
use std::str;

// A text of at most 14 bytes stands in the value itself. A longer one has a piece of memory of one of
// two sizes, so that a pointer alone stands in the value; one of more than 40 bytes has two pieces.
// Each size is a block of malloc, which is a multiple of 16 bytes, less the 8 of its header.
#[derive(Drop)]
pub enum Text {
    Short(u8, [u8; 14]),
    UpTo24(u8, Box<[u8; 24]>),
    UpTo40(u8, Box<[u8; 40]>),
    Long(Box<String>),
}

impl Text {
    // A copy of the text.
    pub fn new(alloc: Global, text: &str) -> Result<Text, WantMemory>
        ensures invariant { IfOk result (λ made. IsText made) }
        ensures value { IfOk result (λ made. text_bytes made ≡ text.now) }
    {
        let len = text.len();
        Ok(match len {
            ..=14 => Text::Short(len as u8, padded(text)),
            ..=24 => Text::UpTo24(len as u8, Box::new(alloc, padded(text))?),
            ..=40 => Text::UpTo40(len as u8, Box::new(alloc, padded(text))?),
            _ => Text::Long(Box::new(alloc, String::from_str(alloc, text)?)?),
        })
    }

    // The text.
    pub fn as_str(&self) -> &str
        requires { IsText self.now }
        ensures { result.now ≡ text_bytes self.now }
    {
        match self {
            Text::Short(len, bytes) => text_in(*len, bytes),
            Text::UpTo24(len, bytes) => text_in(*len, bytes),
            Text::UpTo40(len, bytes) => text_in(*len, bytes),
            Text::Long(text) => text.as_str(),
        }
    }
}

// The bytes of the text, and zeros after them.
fn padded<const N: usize>(text: &str) -> [u8; N]
    requires { length text.now ≤ N }
    ensures text { take (length text.now) result ≡ text.now }
    ensures room { length text.now ≤ length result }
{
    let mut bytes = [0; N];
    bytes[..text.len()].copy_from_slice(text.as_bytes());
    bytes
}

// The text in the first bytes.
fn text_in<const N: usize>(len: u8, bytes: &[u8; N]) -> &str
    requires { StartsWithText len bytes.now }
    ensures { result.now ≡ take len bytes.now }
{
    unsafe { str::from_utf8_unchecked(&bytes[..len as usize]) }
}
