// A gap later.
ghost use Rattle.std.specs.Prelude.{◌≡◌, pos, nat_le, IfSome, option_map, if◌then◌else◌};
ghost use Rattle.fc_spec.specs.dates.Adding as definition;
ghost use Rattle.fc_spec.specs.dates.GapTexts.{months, days, seconds};
ghost use Rattle.fc_dates.specs.MomentView.{moment_view, IsWhole, in_years};
ghost use Rattle.fc_dates.specs.GapView.{unit_view};

use crate::{Gap, Unit};
use jiff::ToSpan;
use jiff::civil::DateTime;

// No date is more than this many months behind another.
const MOST_MONTHS: u32 = 119_988;

// The most days that the calendar adds at once: more than there are from the year 1 to 9999.
const MOST_DAYS: u32 = 7_304_484;

fn months_later(moment: DateTime, number: u32) -> Option<DateTime>
    requires { IsWhole moment }
    ensures value { option_map moment_view result ≡ in_years (definition.months_later number (moment_view moment)) }
    ensures whole { IfSome result IsWhole }
{
    if number > MOST_MONTHS {
        return None;
    }
    match moment.checked_add(i64::from(number).months()) {
        Ok(sum) => Some(sum),
        Err(_) => None,
    }
}

fn days_later(moment: DateTime, number: u32) -> Option<DateTime>
    requires { IsWhole moment }
    ensures value { option_map moment_view result ≡ in_years (definition.days_later number (moment_view moment)) }
    ensures whole { IfSome result IsWhole }
{
    if number > MOST_DAYS {
        return None;
    }
    match moment.checked_add(i64::from(number).days()) {
        Ok(sum) => Some(sum),
        Err(_) => None,
    }
}

fn seconds_later(moment: DateTime, number: u32) -> Option<DateTime>
    requires { IsWhole moment }
    ensures value { option_map moment_view result ≡ in_years (definition.seconds_later number (moment_view moment)) }
    ensures whole { IfSome result IsWhole }
{
    match moment.checked_add(i64::from(number).seconds()) {
        Ok(sum) => Some(sum),
        Err(_) => None,
    }
}

// The moment a gap later, up to the year 9999.
pub(crate) fn later(moment: DateTime, gap: &Gap) -> Option<DateTime>
    requires { IsWhole moment }
    ensures value { option_map moment_view result
        ≡ in_years (definition.later (unit_view gap.now.unit) gap.now.number (moment_view moment)) }
    ensures whole { IfSome result IsWhole }
{
    match gap.unit {
        Unit::Months => months_later(moment, gap.number),
        Unit::Days => days_later(moment, gap.number),
        Unit::Seconds => seconds_later(moment, gap.number),
    }
}
