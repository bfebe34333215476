//! The numbers of a configuration.

ghost use Rattle.std.specs.Prelude.{◌≡◌, ◌≤◌};
ghost use Rattle.text_words.specs.Numbers.{digit_value, digit, numeral, sized, with_digit, hexadecimal, number_of, is_number, are_both_numbers, within, value};

/// What a word in the place of a number is.
#[derive(Clone, Copy, Debug, PartialEq, Eq)]
pub enum Number {
    /// No number.
    Malformed,
    /// A number of 2^64 or above.
    Large,
    Value(u64),
}

impl Number {
    pub fn is_number(self) -> bool
        ensures { result ≡ is_number self }
    {
        !matches!(self, Number::Malformed)
    }

    /// Whether it is a number from `low` to `high`.
    pub fn within(self, low: u64, high: u64) -> bool
        ensures { result ≡ within low high self }
    {
        match self {
            Number::Value(number) => low <= number && number <= high,
            _ => false,
        }
    }

    /// The number, and 0 where there is none below 2^64.
    pub fn value(self) -> u64
        ensures { result ≡ value self }
    {
        match self {
            Number::Value(number) => number,
            _ => 0,
        }
    }
}

/// Whether both are numbers.
pub fn are_both_numbers(first: Number, second: Number) -> bool
    ensures { result ≡ are_both_numbers first second }
{
    first.is_number() && second.is_number()
}

/// What a digit adds, up to base 16.
fn digit_value(byte: u8) -> Option<u64>
    ensures { result ≡ digit_value byte }
{
    match byte {
        b'0'..=b'9' => Some(u64::from(byte - b'0')),
        b'a'..=b'f' => Some(u64::from(byte - b'a' + 10)),
        b'A'..=b'F' => Some(u64::from(byte - b'A' + 10)),
        _ => None,
    }
}

/// What a digit to a base up to 16 says.
pub fn digit(base: u64, byte: u8) -> Option<u64>
    ensures { result ≡ digit base byte }
{
    match digit_value(byte) {
        Some(digit) if digit < base => Some(digit),
        _ => None,
    }
}

/// The number that the digits say.
fn numeral(base: u64, digits: &[u8]) -> Number
    requires { 1 ≤ base }
    ensures { result ≡ sized (numeral base 0 digits.now) }
{
    let mut number = Some(0u64);
    for byte in digits {
        let Some(digit) = digit(base, *byte) else {
            return Number::Malformed;
        };
        number = with_digit(base, number, digit);
    }
    match number {
        Some(number) => Number::Value(number),
        None => Number::Large,
    }
}

/// The number with one digit more, while it is below 2^64.
fn with_digit(base: u64, number: Option<u64>, digit: u64) -> Option<u64>
    ensures { result ≡ with_digit base number digit }
{
    number?.checked_mul(base)?.checked_add(digit)
}

fn hexadecimal(digits: &[u8]) -> Number
    ensures { result ≡ hexadecimal digits.now }
{
    if (1..=16).contains(&digits.len()) {
        numeral(16, digits)
    } else {
        Number::Malformed
    }
}

/// The word's number: decimal, or `0x` and 1 to 16 hexadecimal digits.
pub fn number_of(word: &[u8]) -> Number
    ensures { result ≡ number_of word.now }
{
    match word {
        [] => Number::Malformed,
        [b'0', b'x', digits @ ..] => hexadecimal(digits),
        _ => numeral(10, word),
    }
}
