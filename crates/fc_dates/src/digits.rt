// Numbers by their digits.
ghost use Rattle.std.specs.Prelude.{◌≡◌, ◌+◌, ◌%◌, ◌<◌, ◌≤◌, ◌^◌, length, IfSome};
ghost use Rattle.fc_spec.specs.documents.IntegerTexts.{natural_of};

// The number that one or more digits write, where there is nothing else.
pub(crate) fn natural(digits: &[u8]) -> Option<u32>
    requires { length digits.now ≤ 9 }
    ensures value { result ≡ natural_of digits.now }
    ensures bound { IfSome result (λ number. number < 10 ^ length digits.now) }
{
    if digits.is_empty() {
        return None;
    }
    let mut number: u32 = 0;
    for digit in digits {
        if !digit.is_ascii_digit() {
            return None;
        }
        number = number * 10 + u32::from(*digit - b'0');
    }
    Some(number)
}

// The last digit of a number.
pub(crate) fn digit(number: u32) -> u8
    ensures { result ≡ 48 + number % 10 }
{
    b'0' + (number % 10) as u8
}
