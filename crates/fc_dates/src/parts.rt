// The numbers that stand at their places in a date text.
ghost use Rattle.std.specs.Prelude.{◌≡◌, ◌<◌, ◌≤◌, length, IfSome, IsTrue, option_map};
ghost use Rattle.fc_spec.specs.dates.DateTexts as definition;
ghost use Rattle.fc_dates.specs.MomentView.{parts_view, AreSmall};

use crate::digits::natural;

#[derive(Clone, Copy)]
pub(crate) struct Parts {
    pub(crate) year: u32,
    pub(crate) month: u32,
    pub(crate) day: u32,
    pub(crate) hour: u32,
    pub(crate) minute: u32,
    pub(crate) second: u32,
    pub(crate) milli: u32,
}

pub(crate) fn has_marks(text: &[u8]) -> bool
    ensures { result ≡ definition.has_marks text.now }
{
    text.len() >= 20
        && text[4] == b'-'
        && text[7] == b'-'
        && text[10] == b'T'
        && text[13] == b':'
        && text[16] == b':'
}

// Missing digits are 0, later ones are dropped.
fn thousandths_of(digits: &[u8]) -> Option<u32>
    ensures value { result ≡ definition.thousandths_of digits.now }
    ensures bound { IfSome result (λ number. number < 1000) }
{
    if digits.len() > 9 {
        return None;
    }
    let number = natural(digits)?;
    let whole = 10_u64.pow(digits.len() as u32);
    Some((u64::from(number) * 1000 / whole) as u32)
}

// What stands behind the seconds.
fn milli_of(rest: &[u8]) -> Option<u32>
    ensures value { result ≡ definition.milli_of rest.now }
    ensures bound { IfSome result (λ number. number < 1000) }
{
    if rest == b"Z".as_slice() {
        return Some(0);
    }
    if rest.len() < 2 || rest[0] != b'.' || rest[rest.len() - 1] != b'Z' {
        return None;
    }
    thousandths_of(&rest[1..rest.len() - 1])
}

pub(crate) fn parts_of(text: &[u8]) -> Option<Parts>
    requires { 20 ≤ length text.now }
    ensures value { option_map parts_view result ≡ definition.parts_of text.now }
    ensures small { IfSome result AreSmall }
{
    let year = natural(&text[0..4])?;
    let month = natural(&text[5..7])?;
    let day = natural(&text[8..10])?;
    let hour = natural(&text[11..13])?;
    let minute = natural(&text[14..16])?;
    let second = natural(&text[17..19])?;
    let (_, rest) = text.split_at(19);
    let milli = milli_of(rest)?;
    Some(Parts {
        year,
        month,
        day,
        hour,
        minute,
        second,
        milli,
    })
}
