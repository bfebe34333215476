//! The bytes of a poke, as hexadecimal digits.

ghost use Rattle.std.specs.Prelude.{◌≡◌, ◌≤◌, ◌++◌, IsTrue, OnOk};
ghost use Rattle.std.specs.List.{flat_map, list_all};
ghost use Rattle.script.specs.Hex.{digit_at, byte_at, is_digit, is_hex, poke_bytes, hex_digit, hex_byte};

use kes_text::NoMemory;
use osek_core::PokeBytes;
use text_words::digit;

fn is_digit(byte: u8) -> bool
    ensures { result ≡ is_digit byte }
{
    digit(16, byte).is_some()
}

fn are_digits(word: &[u8]) -> bool
    ensures { result ≡ list_all is_digit word.now }
{
    word.iter().all(|byte| is_digit(*byte))
}

/// Whether it is one to eight pairs of hexadecimal digits.
pub fn is_hex(word: &[u8]) -> bool
    ensures { result ≡ is_hex word.now }
{
    (1..=16).contains(&word.len()) && word.len() % 2 == 0 && are_digits(word)
}

fn digit_at(word: &[u8], place: usize) -> u64
    ensures says { result ≡ digit_at word.now place }
    ensures small { result ≤ 15 }
{
    match word.get(place) {
        Some(byte) => digit(16, *byte).unwrap_or(0),
        None => 0,
    }
}

/// The byte of a pair of digits, and 0 behind the last.
fn byte_at(word: &[u8], pair: usize) -> u8
    requires { pair ≤ 7 }
    ensures { result ≡ byte_at word.now pair }
{
    (16 * digit_at(word, 2 * pair) + digit_at(word, 2 * pair + 1)) as u8
}

/// The bytes of these pairs of digits.
pub fn poke_bytes(word: &[u8]) -> PokeBytes
    requires { IsTrue (is_hex word.now) }
    ensures { result ≡ poke_bytes word.now }
{
    PokeBytes {
        len: (word.len() / 2) as u8,
        bytes: [
            byte_at(word, 0),
            byte_at(word, 1),
            byte_at(word, 2),
            byte_at(word, 3),
            byte_at(word, 4),
            byte_at(word, 5),
            byte_at(word, 6),
            byte_at(word, 7),
        ],
    }
}

fn hex_digit(number: u8) -> u8
    requires { number ≤ 15 }
    ensures { result ≡ hex_digit number }
{
    if number <= 9 {
        b'0' + number
    } else {
        b'a' + number - 10
    }
}

/// Puts a byte's two digits behind the bytes.
fn append_byte(out: &mut Vec<u8>, byte: u8) -> Result<(), NoMemory>
    ensures { OnOk result (out.new.items ≡ out.old.items ++ hex_byte byte) }
{
    out.extend_from_slice(&[hex_digit(byte / 16), hex_digit(byte % 16)])
}

/// Puts the digits of a poke's bytes behind the bytes.
pub fn append_hex(out: &mut Vec<u8>, poked: &[u8]) -> Result<(), NoMemory>
    ensures { OnOk result (out.new.items ≡ out.old.items ++ flat_map hex_byte poked.now) }
{
    for byte in poked {
        append_byte(out, *byte)?;
    }
    Ok(())
}
