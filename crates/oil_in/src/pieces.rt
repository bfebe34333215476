//! What a line is made of: fixed text, names and numbers.

ghost use Rattle.std.specs.Prelude.{◌≡◌, ◌≤◌, length, bytes_eq, decimal};
ghost use Rattle.std.specs.List.{prefix_len};
ghost use Rattle.oil_in.specs.Pieces.{Finds, behind, is_digit, is_letter, is_name_byte, begins_with_letter, begins_with_zero, name_at, value, capped, with_digit, numeral, number_at};

use itoa::Buffer;

/// A number in the text.
#[derive(Clone, Copy, Debug, PartialEq, Eq)]
pub enum Number {
    /// 2^64 or above.
    Large,
    Value(u64),
}

/// The bytes behind the text.
pub fn behind<'a>(text: &str, bytes: &'a [u8]) -> Option<&'a [u8]>
    ensures { Finds (λ rest. rest.now) result (behind text.now bytes.now) }
{
    bytes.strip_prefix(text.as_bytes())
}

fn is_digit(byte: u8) -> bool
    ensures { result ≡ is_digit byte }
{
    (b'0'..=b'9').contains(&byte)
}

fn is_letter(byte: u8) -> bool
    ensures { result ≡ is_letter byte }
{
    (b'A'..=b'Z').contains(&byte) || (b'a'..=b'z').contains(&byte)
}

fn is_name_byte(byte: u8) -> bool
    ensures { result ≡ is_name_byte byte }
{
    is_letter(byte) || is_digit(byte) || byte == b'_'
}

/// How many bytes from the front are of a name.
#[tactic(auto, using(crate::proofs::PieceLemmas::fits))]
fn name_length(bytes: &[u8]) -> usize
    ensures run { result ≡ prefix_len is_name_byte bytes.now }
    ensures within { result ≤ length bytes.now }
{
    bytes.iter().take_while(|byte| is_name_byte(**byte)).count()
}

/// How many bytes from the front are digits.
#[tactic(auto, using(crate::proofs::PieceLemmas::fits))]
fn number_length(bytes: &[u8]) -> usize
    ensures run { result ≡ prefix_len is_digit bytes.now }
    ensures within { result ≤ length bytes.now }
{
    bytes.iter().take_while(|byte| is_digit(**byte)).count()
}

fn begins_with_letter(bytes: &[u8]) -> bool
    ensures { result ≡ begins_with_letter bytes.now }
{
    match bytes {
        [first, ..] => is_letter(*first),
        [] => false,
    }
}

/// A name, and the bytes behind it.
#[tactic(auto, unfolding(crate::specs::Pieces::name_at))]
pub fn name_of(bytes: &[u8]) -> Option<(&[u8], &[u8])>
    ensures { Finds (λ x. (x.0.now, x.1.now)) result (name_at bytes.now) }
{
    let (word, rest) = bytes.split_at(name_length(bytes));
    if begins_with_letter(word) && word.len() <= 32 {
        Some((word, rest))
    } else {
        None
    }
}

/// The number with one digit more, while it is below 2^64.
fn with_digit(number: Option<u64>, digit: u8) -> Option<u64>
    ensures { result ≡ with_digit number digit }
{
    number?.checked_mul(10)?.checked_add(u64::from(digit))
}

/// The number that the digits say, if it is below 2^64.
fn value_of(digits: &[u8]) -> Option<u64>
    ensures { result ≡ capped (value 0 digits.now) }
{
    let mut number = Some(0u64);
    for byte in digits {
        number = with_digit(number, byte.saturating_sub(b'0'));
    }
    number
}

fn begins_with_zero(bytes: &[u8]) -> bool
    ensures { result ≡ begins_with_zero bytes.now }
{
    match bytes {
        [first, ..] => *first == b'0',
        [] => false,
    }
}

/// Whether the digits are the number as it is printed.
fn is_printed(digits: &[u8], number: u64) -> bool
    ensures { result ≡ bytes_eq digits.now (decimal number) }
{
    digits == Buffer::new().format(number).as_bytes()
}

fn numeral(digits: &[u8]) -> Option<Number>
    ensures { result ≡ numeral digits.now }
{
    match value_of(digits) {
        Some(number) if is_printed(digits, number) => Some(Number::Value(number)),
        None if !begins_with_zero(digits) => Some(Number::Large),
        _ => None,
    }
}

/// A number, and the bytes behind it.
#[tactic(auto, unfolding(crate::specs::Pieces::number_at))]
pub fn number_of(bytes: &[u8]) -> Option<(Number, &[u8])>
    ensures { Finds (λ x. (x.0, x.1.now)) result (number_at bytes.now) }
{
    let (digits, rest) = bytes.split_at(number_length(bytes));
    let number = numeral(digits)?;
    Some((number, rest))
}
