// Texts of digits.
ghost use Rattle.std.specs.Prelude.{◌≡◌, ◌≤◌, ◌<◌, ◌+◌, ◌-◌, ◌*◌, ◌^◌, true};
ghost use Rattle.std.specs.List.{list_all};
ghost use Rattle.std.specs.Char.{is_ascii_digit};
ghost use Rattle.std.specs.Option.{SomeIff};
ghost use Rattle.xc_decimal.specs.Decimals.{signed};
ghost use Rattle.xc_decimal.specs.Digits.{AreDigits, behind};

// Whether a text has nothing but digits.
pub fn are_digits(text: &[u8]) -> bool
    ensures { result ≡ list_all is_ascii_digit text.now }
{
    text.iter().all(|c| c.is_ascii_digit())
}

// The number that digits spell behind those of another number, where it is not more than the most.
pub fn number_behind(before: u128, digits: &[u8], most: u128) -> Option<u128>
    requires digits { AreDigits digits.now }
    requires within { before ≤ most }
    ensures { SomeIff result (behind before digits.now ≤ most) (behind before digits.now) }
{
    let mut number = before;
    for digit in digits {
        let Some(next) = one_more(number, *digit, most) else {
            return None;
        };
        number = next;
    }
    Some(number)
}

// The same of one digit.
fn one_more(number: u128, digit: u8, most: u128) -> Option<u128>
    requires { is_ascii_digit digit ≡ true }
    ensures { SomeIff result (10 * number + (digit - 48) ≤ most) (10 * number + (digit - 48)) }
{
    let Some(tens) = number.checked_mul(10) else {
        return None;
    };
    let Some(next) = tens.checked_add(u128::from(digit - b'0')) else {
        return None;
    };
    if next > most { None } else { Some(next) }
}

// A number, or its negative.
pub fn signed(negative: bool, number: u128) -> i128
    requires { number < 2 ^ 127 }
    ensures { result ≡ signed negative number }
{
    let number = number as i128;
    if negative { -number } else { number }
}
