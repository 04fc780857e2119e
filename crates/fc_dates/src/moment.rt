// The moment that a date text says.
ghost use Rattle.std.specs.Prelude.{◌≡◌, IfSome, option_map, if◌then◌else◌};
ghost use Rattle.fc_spec.specs.dates.Calendar.{is_moment};
ghost use Rattle.fc_spec.specs.dates.DateTexts as definition;
ghost use Rattle.fc_dates.specs.MomentView.{parts_view, AreSmall, moment_view, IsWhole};

use crate::parts::{Parts, has_marks, parts_of};
use jiff::civil::DateTime;

// The calendar has years from -9999 on, date texts from 1 on.
fn datetime(parts: &Parts) -> Option<DateTime>
    requires { AreSmall parts.now }
    ensures value { option_map moment_view result
        ≡ (if is_moment (parts_view parts.now) then Some (parts_view parts.now) else None) }
    ensures whole { IfSome result IsWhole }
{
    if parts.year == 0 {
        return None;
    }
    match DateTime::new(
        parts.year as i16,
        parts.month as i8,
        parts.day as i8,
        parts.hour as i8,
        parts.minute as i8,
        parts.second as i8,
        (parts.milli * 1_000_000) as i32,
    ) {
        Ok(moment) => Some(moment),
        Err(_) => None,
    }
}

pub(crate) fn moment_of(text: &[u8]) -> Option<DateTime>
    ensures value { option_map moment_view result ≡ definition.moment_of text.now }
    ensures whole { IfSome result IsWhole }
{
    if !has_marks(text) {
        return None;
    }
    let parts = parts_of(text)?;
    datetime(&parts)
}
