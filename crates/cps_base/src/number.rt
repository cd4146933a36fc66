ghost use Rattle.std.specs.Prelude.{◌≡◌, ℕ, ◌+◌, ◌-◌, ◌*◌, ◌^◌, ◌<◌, ◌≤◌, IfOk, SomeIff, true};
ghost use Rattle.std.specs.Int.{IsInRange};
ghost use Rattle.std.specs.List.{list_all};
ghost use Rattle.std.specs.Char.{is_ascii_digit};
ghost use Rattle.std.specs.Str.Parse.{digits_value};
ghost use Rattle.cps_base.specs.Number.{is_number, number_within};

/// Why a text is not a number of the range.
#[derive(Clone, Copy, Debug, PartialEq, Eq)]
pub enum NumberFault {
    /// It is empty, has a byte that is no digit, or begins with a 0 before another digit.
    NotNumber,
    /// It is a number below the range.
    Below,
    /// It is a number above the range, however long.
    Above,
}

fn are_digits(text: &[u8]) -> bool
    ensures { result ≡ list_all is_ascii_digit text.now }
{
    text.iter().all(|b| b.is_ascii_digit())
}

// One digit or more, with no 0 before another.
fn is_number(text: &[u8]) -> bool
    ensures { result ≡ is_number text.now }
{
    text.len() > 0 && (text.len() == 1 || text[0] != b'0') && are_digits(text)
}

// A value with one more digit behind it, or none where it is above the greatest `u64`.
fn with_digit(value: Option<u64>, digit: u8) -> Option<u64>
    requires { IsInRange 48 57 digit }
    ensures { (n : ℕ) → SomeIff value (n < 2 ^ 64) n
        → SomeIff result (n * 10 + (digit - 48) < 2 ^ 64) (n * 10 + (digit - 48)) }
{
    value?.checked_mul(10)?.checked_add(u64::from(digit - b'0'))
}

// The value of digits, or none where it is above the greatest `u64`.
fn value_of(digits: &[u8]) -> Option<u64>
    requires { list_all is_ascii_digit digits.now ≡ true }
    ensures { SomeIff result (digits_value 10 digits.now < 2 ^ 64) (digits_value 10 digits.now) }
{
    digits.iter().fold(Some(0), |value: Option<u64>, digit| {
        with_digit(value, *digit)
    })
}

/// The number that a text of decimal digits is, of those from `least` to `most`.
#[tactic(auto, unfolding(crate::specs::Number::number_within))]
pub fn read_number(text: &[u8], least: u64, most: u64) -> Result<u64, NumberFault>
    ensures value { result ≡ number_within text.now least most }
    ensures range { IfOk result (λ n. (least ≤ n) × (n ≤ most)) }
{
    if !is_number(text) {
        return Err(NumberFault::NotNumber);
    }
    match value_of(text) {
        Some(value) if value < least => Err(NumberFault::Below),
        Some(value) if value <= most => Ok(value),
        _ => Err(NumberFault::Above),
    }
}
