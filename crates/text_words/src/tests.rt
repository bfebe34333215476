ghost use Rattle.std.specs.Prelude.{◌≡◌, ◌∷◌, [], codes};
ghost use Rattle.text_words.specs.declared.number.Number.TheVariants.{Malformed, Large, Value};
ghost use Rattle.text_words.specs.Numbers.{number_of};
ghost use Rattle.text_words.specs.TextLines.{words, spoken_lines};

use super::*;
use kes_text::{Kind, Refusal, Stop};
use std::test::Fail;

/// What the definitions give at examples worked out by hand.
fn worked_examples()
    ensures decimal { number_of (codes "007") ≡ Value 7 }
    ensures hexadecimal { number_of (codes "0x1f") ≡ Value 31 }
    ensures large { number_of (codes "18446744073709551616") ≡ Large }
    ensures greatest { number_of (codes "18446744073709551615") ≡ Value 18446744073709551615 }
    ensures no_digits { number_of (codes "0x") ≡ Malformed }
    ensures blanks { words (codes "  a  bc ") ≡ codes "a" ∷ codes "bc" ∷ [] }
    ensures lines { spoken_lines (codes "a\r\n #\n\nb\r") ≡ (1, codes "a") ∷ (4, codes "b\r") ∷ [] }
{}

#[test]
fn definitions_compute(_rt: HostRuntime) {
    worked_examples();
}

#[test]
fn numbers_are_decimal_or_hexadecimal(rt: HostRuntime) -> Result<(), Fail> {
    assert_eq!(rt; number_of(b"0042"), Number::Value(42));
    assert_eq!(rt; number_of(b"0xFf"), Number::Value(255));
    assert_eq!(rt; number_of(b"0x0000000000000000f"), Number::Malformed);
    assert_eq!(rt; number_of(b"18446744073709551616"), Number::Large);
    assert_eq!(rt; number_of(b"12a"), Number::Malformed);
    assert_eq!(rt; number_of(b""), Number::Malformed);
    assert!(rt; are_both_numbers(Number::Large, Number::Value(0)));
    assert_eq!(rt; digit(16, b'g'), None);
    Ok(())
}

#[test]
fn lines_that_say_something_keep_their_numbers(rt: HostRuntime) -> Result<(), Fail> {
    let found = text_lines(rt.alloc(), b"one\r\n\n # two\nthree")?;
    assert_eq!(rt; found.lines.len(), 2);
    assert_eq!(rt; found.end, 5);
    let last = found.lines.last().map(|line| (line.number, line.text));
    assert_eq!(rt; last, Some((4, b"three".as_slice())));
    Ok(())
}

#[test]
fn blanks_part_words(rt: HostRuntime) -> Result<(), Fail> {
    let found = words(rt.alloc(), b"  use t  r ")?;
    assert_eq!(rt; found.len(), 3);
    assert!(rt; is_word(found.as_slice()[0], "use"));
    assert!(rt; is_either("r", "s", found.as_slice()[2]));
    Ok(())
}

#[test]
fn a_failed_test_is_refused_at_its_line(rt: HostRuntime) -> Result<(), Fail> {
    assert!(rt; check(true, Kind::Range, 3).is_ok());
    let at = match check(false, Kind::Range, 3) {
        Err(Stop::Refused(Refusal { at, .. })) => at,
        _ => 0,
    };
    assert_eq!(rt; at, 3);
    Ok(())
}
