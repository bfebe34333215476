//! The forms of the words of a configuration.

ghost use Rattle.std.specs.Prelude.{◌≡◌, option_map, reverse};
ghost use Rattle.std.specs.List.{list_all, list_any, position};
ghost use Rattle.kconfig.specs.Words.{is_letter, is_name_byte, is_name, is_shown, is_shown_name, is_dot, parts, is_entry, is_field, has_call, is_method};

fn is_name_byte(byte: u8) -> bool
    ensures { result ≡ is_name_byte byte }
{
    byte.is_ascii_alphanumeric() || byte == b'_'
}

fn are_name_bytes(bytes: &[u8]) -> bool
    ensures { result ≡ list_all is_name_byte bytes.now }
{
    bytes.iter().all(|byte| is_name_byte(*byte))
}

/// Whether a line may declare this name.
pub fn is_name(word: &[u8]) -> bool
    ensures { result ≡ is_name word.now }
{
    let Some((first, others)) = word.split_first() else {
        return false;
    };
    first.is_ascii_alphabetic() && are_name_bytes(others) && others.len() <= 31
}

fn are_shown(bytes: &[u8]) -> bool
    ensures { result ≡ list_all is_shown bytes.now }
{
    bytes.iter().all(|byte| matches!(*byte, 0x21..=0x7E))
}

/// Whether it may be the shown name of a class or of a field.
pub fn is_shown_name(word: &[u8]) -> bool
    ensures { result ≡ is_shown_name word.now }
{
    !word.is_empty() && are_shown(word)
}

/// How many bytes stand behind the last dot.
fn behind_last_dot(word: &[u8]) -> Option<usize>
    ensures { result ≡ position is_dot (reverse word.now) }
{
    word.iter().rev().position(|byte| *byte == b'.')
}

/// What stands before the last dot and what behind it.
fn parts(word: &[u8]) -> Option<(&[u8], &[u8])>
    ensures { option_map (λ both. (both.0.now, both.1.now)) result ≡ parts word.now }
{
    let behind = behind_last_dot(word)?;
    let (before, member) = word.split_at(word.len() - behind);
    Some((&before[..before.len() - 1], member))
}

/// Whether it is of the form CLASS.NAME.
pub fn is_entry(word: &[u8]) -> bool
    ensures { result ≡ is_entry word.now }
{
    match parts(word) {
        Some((class, member)) => is_shown_name(class) && is_name(member),
        None => false,
    }
}

/// Whether it is of the form CLASS.FIELD.
pub fn is_field(word: &[u8]) -> bool
    ensures { result ≡ is_field word.now }
{
    match parts(word) {
        Some((class, member)) => is_shown_name(class) && is_shown_name(member),
        None => false,
    }
}

/// Whether a `(` stands somewhere behind a `.`.
fn has_call(word: &[u8]) -> bool
    ensures { result ≡ has_call word.now }
{
    let mut dot = false;
    for byte in word {
        if dot && *byte == b'(' {
            return true;
        }
        dot = dot || *byte == b'.';
    }
    false
}

/// Whether it is in the way of `Class/Name.method(desc)ret`.
pub fn is_method(word: &[u8]) -> bool
    ensures { result ≡ is_method word.now }
{
    are_shown(word) && has_call(word)
}
