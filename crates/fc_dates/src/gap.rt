// Gap texts.
ghost use Rattle.std.specs.Prelude.{◌≡◌, ◌<◌, ◌≤◌, ◌||◌, length, option_map};
ghost use Rattle.std.specs.List.{prefix_len};
ghost use Rattle.fc_spec.specs.documents.Val.{same_text};
ghost use Rattle.fc_spec.specs.documents.SchemaReading.{is_digit};
ghost use Rattle.fc_spec.specs.dates.GapTexts as definition;
ghost use Rattle.fc_dates.specs.GapView.{gap_view};

use crate::digits::natural;

/// What gaps are counted in.
#[derive(Clone, Copy, Debug, PartialEq, Eq)]
pub enum Unit {
    /// Months of the calendar, on the same day or on the month's last.
    Months,
    Days,
    Seconds,
}

/// How far one date is behind another.
#[derive(Clone, Copy, Debug, PartialEq, Eq)]
pub struct Gap {
    pub unit: Unit,
    pub number: u32,
}

// How many digits stand in front.
fn digits_in_front(text: &[u8]) -> usize
    ensures value { result ≡ prefix_len is_digit text.now }
    ensures within { result ≤ length text.now }
{
    let mut count = 0;
    for byte in text {
        if !byte.is_ascii_digit() {
            return count;
        }
        count += 1;
    }
    count
}

// Whether the name is one of the two.
fn is_either(name: &[u8], one: &[u8], many: &[u8]) -> bool
    ensures { result ≡ (same_text name.now one.now || same_text name.now many.now) }
{
    name == one || name == many
}

// So many of a unit.
fn counted(unit: Unit, number: u32) -> Option<Gap>
    ensures { result ≡ Some (record { unit = unit; number = number }) }
{
    Some(Gap { unit, number })
}

// The gap of so many of a unit's name.
fn gap_named(number: u32, name: &[u8]) -> Option<Gap>
    requires { number < 10000 }
    ensures { option_map gap_view result ≡ definition.gap_named number name.now }
{
    if is_either(name, b"YEAR", b"YEARS") {
        return counted(Unit::Months, number * 12);
    }
    if is_either(name, b"MONTH", b"MONTHS") {
        return counted(Unit::Months, number);
    }
    if is_either(name, b"DAY", b"DAYS") {
        return counted(Unit::Days, number);
    }
    if is_either(name, b"HOUR", b"HOURS") {
        return counted(Unit::Seconds, number * 3600);
    }
    if is_either(name, b"MINUTE", b"MINUTES") {
        return counted(Unit::Seconds, number * 60);
    }
    if is_either(name, b"SECOND", b"SECONDS") {
        return counted(Unit::Seconds, number);
    }
    None
}

fn gap_of_parts(digits: &[u8], name: &[u8]) -> Option<Gap>
    ensures { option_map gap_view result ≡ definition.gap_of_parts digits.now name.now }
{
    if digits.len() > 4 || digits.is_empty() || digits[0] == b'0' {
        return None;
    }
    let number = natural(digits)?;
    gap_named(number, name)
}

/// The gap that a text says: `+`, a number from 1 to 9,999 without a leading zero, and `YEAR`, `MONTH`, `DAY`, `HOUR`,
/// `MINUTE` or `SECOND`, perhaps with S. There is none where the text is not so. (Guide: Date Formatting and Date Math,
/// "Date Math Syntax")
pub fn read_gap(text: &str) -> Option<Gap>
    ensures { option_map gap_view result ≡ definition.gap_of text.now }
{
    let bytes = text.as_bytes();
    if bytes.is_empty() || bytes[0] != b'+' {
        return None;
    }
    let rest = &bytes[1..];
    let (digits, name) = rest.split_at(digits_in_front(rest));
    gap_of_parts(digits, name)
}
