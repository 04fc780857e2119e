// Canonical texts.
ghost use Rattle.std.specs.Prelude.{◌≡◌};
ghost use Rattle.fc_spec.specs.dates.DateTexts.{canonical_text};
ghost use Rattle.fc_dates.specs.MomentView.{moment_view};

use crate::digits::digit;
use jiff::civil::DateTime;

pub(crate) fn written(moment: DateTime) -> [u8; 24]
    ensures { result ≡ canonical_text (moment_view moment) }
{
    let year = u32::from(moment.year().unsigned_abs());
    let month = u32::from(moment.month().unsigned_abs());
    let day = u32::from(moment.day().unsigned_abs());
    let hour = u32::from(moment.hour().unsigned_abs());
    let minute = u32::from(moment.minute().unsigned_abs());
    let second = u32::from(moment.second().unsigned_abs());
    let milli = moment.subsec_nanosecond().unsigned_abs() / 1_000_000;
    [
        digit(year / 1000),
        digit(year / 100),
        digit(year / 10),
        digit(year),
        b'-',
        digit(month / 10),
        digit(month),
        b'-',
        digit(day / 10),
        digit(day),
        b'T',
        digit(hour / 10),
        digit(hour),
        b':',
        digit(minute / 10),
        digit(minute),
        b':',
        digit(second / 10),
        digit(second),
        b'.',
        digit(milli / 100),
        digit(milli / 10),
        digit(milli),
        b'Z',
    ]
}
