// The value that one token stands for.
ghost use Rattle.std.specs.Prelude.{◌≡◌, ◌==◌, ◌<◌, IfOk, IfSome, IsTrue, Some, false, length, slice_index, true};
ghost use Rattle.std.specs.Option.{option_and_then};
ghost use Rattle.json.specs.Reads.{token_of};
ghost use Rattle.json.specs.Token.{number, string};
ghost use Rattle.serde_json.specs.Find.{as_i64};
ghost use Rattle.serde_json.specs.Read.{number_from, number_of};
ghost use Rattle.fc_base.specs.View.{field_type_view, val_view};
ghost use Rattle.fc_docs.specs.Direct.{GivesItem};

use crate::decimal::decimal_name;
use crate::read::TERM_LIMIT;
use fast_float::Numeral;
use fc_base::{FieldType, Name, Val, WantMemory, long_of};
use fc_dates::canonical;
use json::Token;
use std::alloc::Global;

/// The value that a token alone is in a field of this type, where it is one.
pub(super) fn item_of(
    alloc: Global,
    kind: FieldType,
    token: Token<'_>,
) -> Result<Option<Val>, WantMemory>
    ensures { IfOk result (λ found. IfSome found (λ val.
        GivesItem (field_type_view kind) (token_of token.entry) (val_view val))) }
{
    match token {
        Token::String(text) => text_given(alloc, kind, text),
        Token::Number(digits) => number_given(alloc, kind, digits),
        _ => Ok(None),
    }
}

fn text_given(alloc: Global, kind: FieldType, text: &str) -> Result<Option<Val>, WantMemory>
    ensures { IfOk result (λ found. IfSome found (λ val.
        GivesItem (field_type_view kind) (string text.now) (val_view val))) }
{
    if text.len() > TERM_LIMIT {
        return Ok(None);
    }
    match kind {
        FieldType::Str | FieldType::Strs => Ok(Some(Val::Text(Name::new(alloc, text)?))),
        FieldType::Long | FieldType::Longs => match long_of(text) {
            Some(number) => Ok(Some(Val::Long(number))),
            None => Ok(None),
        },
        FieldType::Date | FieldType::Dates => match canonical(text) {
            Some(date) => Ok(Some(Val::Text(Name::new(alloc, date.text())?))),
            None => Ok(None),
        },
    }
}

fn number_given(alloc: Global, kind: FieldType, digits: &str) -> Result<Option<Val>, WantMemory>
    ensures { IfOk result (λ found. IfSome found (λ val.
        GivesItem (field_type_view kind) (number digits.now) (val_view val))) }
{
    let Some(number) = integer_of(digits) else {
        return Ok(None);
    };
    match kind {
        FieldType::Str | FieldType::Strs => {
            let text = decimal_name(alloc, number)?;
            Ok(Some(Val::Text(text)))
        }
        FieldType::Long | FieldType::Longs => Ok(Some(Val::Long(number))),
        FieldType::Date | FieldType::Dates => Ok(None),
    }
}

/// The integer of 64 bits signed that the text of a number's token is, as `serde_json` reads it. None says nothing. It is
/// answered where the text is no such integer, as that of a fraction or an exponent, or is `-0`.
pub fn integer_of(digits: &str) -> Option<i64>
    ensures { IfSome result (λ number. option_and_then as_i64 (number_of digits.now) ≡ Some number) }
{
    let bytes = digits.as_bytes();
    if is_negative(bytes) {
        negative_of(&Numeral::scan(&bytes[1..]))
    } else {
        positive_of(&Numeral::scan(bytes))
    }
}

fn is_negative(bytes: &[u8]) -> bool
    ensures value { result ≡ (slice_index bytes.now 0 == 45) }
    ensures some { IsTrue result → 0 < length bytes.now }
{
    !bytes.is_empty() && bytes[0] == b'-'
}

fn positive_of(numeral: &Numeral<'_>) -> Option<i64>
    ensures { IfSome result (λ number.
        option_and_then as_i64 (number_from false numeral.now) ≡ Some number) }
{
    let number = numeral.to_u64()?;
    if number <= i64::MAX as u64 {
        Some(number as i64)
    } else {
        None
    }
}

fn negative_of(numeral: &Numeral<'_>) -> Option<i64>
    ensures { IfSome result (λ number.
        option_and_then as_i64 (number_from true numeral.now) ≡ Some number) }
{
    let number = numeral.to_i64(true)?;
    if number < 0 { Some(number) } else { None }
}
