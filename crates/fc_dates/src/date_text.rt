// Canonical texts of dates.
ghost use Rattle.fc_spec.specs.dates.DateTexts.{IsCanonical};

/// The canonical text of a date text: `YYYY-MM-DDThh:mm:ss.sssZ`. Their byte order is the order of time.
#[derive(Clone, Copy, Debug, PartialEq, Eq)]
pub struct DateText {
    pub(crate) bytes: [u8; 24],
    ghost canonical: { IsCanonical bytes },
}
