// Integers as texts.
ghost use Rattle.std.specs.Prelude.{◌≡◌, ◌==◌, slice_index};
ghost use Rattle.fc_spec.specs.documents.IntegerTexts.{long_of as spelled};

fn begins_with_plus(text: &[u8]) -> bool
    ensures { result ≡ (slice_index text.now 0 == 43) }
{
    !text.is_empty() && text[0] == b'+'
}

/// The integer that a text spells: one or more ASCII digits, with `-` or nothing in front, within 64
/// bits signed. There is none where the text is not so.
pub fn long_of(text: &str) -> Option<i64>
    ensures { result ≡ spelled text.now }
{
    if begins_with_plus(text.as_bytes()) {
        return None;
    }
    text.parse().ok()
}
