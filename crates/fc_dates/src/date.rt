// Date texts by their canonical texts.
ghost use Rattle.std.specs.Prelude.{◌≡◌, length, option_map};
ghost use Rattle.fc_spec.specs.dates.DateTexts.{canonical_of, IsCanonical};
ghost use Rattle.fc_spec.specs.dates.Adding.{added};
ghost use Rattle.fc_dates.specs.DateView.{date_view};
ghost use Rattle.fc_dates.specs.GapView.{gap_view};

use crate::Gap;
use crate::date_text::DateText;
use crate::later::later;
use crate::moment::moment_of;
use crate::written::written;

impl DateText {
    /// The 24 bytes.
    pub fn text(&self) -> &str
        ensures bytes { result.now ≡ date_view self.now }
        ensures canonical { IsCanonical result.now }
        ensures long { length result.now ≡ 24 }
    {
        match str::from_utf8(&self.bytes) {
            Ok(text) => text,
            Err(_) => "",
        }
    }
}

/// The canonical text of a date text: `YYYY-MM-DDThh:mm:ss`, perhaps `.` and 1 to 9 digits, and `Z`, in a year from 0001 to
/// 9999, on a day of the Gregorian calendar and at a time that a clock shows. Digits behind the third are dropped. There is
/// none where the text is not so. (Guide: Date Formatting and Date Math, "Date Formatting")
pub fn canonical(text: &str) -> Option<DateText>
    ensures { option_map date_view result ≡ canonical_of text.now }
{
    let moment = moment_of(text.as_bytes())?;
    Some(DateText {
        bytes: written(moment),
    })
}

/// The date a gap later; none where that is past the year 9999. (Guide: Date Formatting and Date Math, "Date Math Syntax")
pub fn add_gap(date: &DateText, gap: &Gap) -> Option<DateText>
    ensures { option_map date_view result ≡ added (date_view date.now) (gap_view gap.now) }
{
    let moment = moment_of(&date.bytes)?;
    let sum = later(moment, gap)?;
    Some(DateText {
        bytes: written(sum),
    })
}
