ghost use Rattle.std.specs.Prelude.{◌≡◌, [], ◌∷◌, codes};
ghost use Rattle.kes_text.specs.Complaints.{refusal_text};
ghost use Rattle.kes_text.specs.Lines.{lines};
ghost use Rattle.kes_text.specs.Shown.{shown};

use super::*;
use std::alloc::{AllocError, Global};
use std::test::Fail;

#[test]
fn each_complaint_has_its_line(rt: HostRuntime) -> Result<(), Fail> {
    let refusal = Refusal {
        file: 7,
        kind: Kind::Truncated,
        at: 9,
    };
    for (complaint, line) in [
        (
            Complaint::Refused(refusal, "Main.class"),
            "keso: Main.class: Truncated at 9\n",
        ),
        (Complaint::Usage, "keso: the words are not a command\n"),
        (Complaint::CannotRead("a.cfg"), "keso: cannot read a.cfg\n"),
        (
            Complaint::CannotWrite("b.oil"),
            "keso: cannot write b.oil\n",
        ),
        (
            Complaint::CannotWriteOutput,
            "keso: cannot write the output\n",
        ),
        (Complaint::NoMemory, "keso: out of memory\n"),
    ] {
        let made = complaint_line(rt.alloc(), &complaint)?;
        assert_eq!(rt; made.as_slice(), line.as_bytes());
    }
    assert_eq!(rt; no_memory_line(), b"keso: out of memory\n".as_slice());
    let last = Refusal {
        file: 0,
        kind: Kind::Later,
        at: u64::MAX,
    };
    let made = refusal_line(rt.alloc(), &last, "row1.cfg")?;
    assert_eq!(rt;
        made.as_slice(),
        b"keso: row1.cfg: Later at 18446744073709551615\n".as_slice()
    );
    Ok(())
}

#[test]
fn each_kind_is_named_as_it_is_spelled(rt: HostRuntime) -> Result<(), Fail> {
    for kind in [
        Kind::Truncated,
        Kind::Magic,
        Kind::Version,
        Kind::PoolTag,
        Kind::CodeLength,
        Kind::AttrLength,
        Kind::CodeCount,
        Kind::TwoMembers,
        Kind::Trailing,
        Kind::PoolIndex,
        Kind::BadDescriptor,
        Kind::Duplicate,
        Kind::MissingClass,
        Kind::SuperKind,
        Kind::SuperCycle,
        Kind::SplitPackage,
        Kind::Syntax,
        Kind::Range,
        Kind::Room,
        Kind::Twice,
        Kind::Unknown,
        Kind::NoEntry,
        Kind::BadNative,
        Kind::BadMapped,
        Kind::BadPortal,
        Kind::Handlers,
        Kind::Synchronized,
        Kind::Opcode,
        Kind::Unsupported,
        Kind::Operand,
        Kind::SwitchTable,
        Kind::Jump,
        Kind::FrameTag,
        Kind::FrameEnd,
        Kind::FrameItem,
        Kind::FramePlace,
        Kind::Typing,
        Kind::NoMember,
        Kind::FloatMember,
        Kind::ArrayMethod,
        Kind::BadNew,
        Kind::Unbound,
        Kind::InterfaceCode,
        Kind::OwnPortal,
        Kind::NoTarget,
        Kind::AtStart,
        Kind::AtRoutine,
        Kind::Recursive,
        Kind::Large,
        Kind::Unreached,
        Kind::NoFrames,
        Kind::StartDevice,
        Kind::StartFail,
        Kind::StartLong,
        Kind::TooMany,
        Kind::TooDeep,
        Kind::Label,
        Kind::Word,
        Kind::Callee,
        Kind::Region,
        Kind::Section,
        Kind::Falls,
        Kind::Cycle,
        Kind::Disagree,
        Kind::Later,
    ] {
        let spelled = format!(in rt.alloc(); "{kind:?}")?;
        assert_eq!(rt; spelled.as_str(), kind.name());
    }
    Ok(())
}

/// What the definitions give at examples worked out by hand.
fn worked_examples()
    ensures plain { shown (codes "a/B_9~!") ≡ codes "a/B_9~!" }
    ensures percent { shown (codes "a%b") ≡ codes "a%25b" }
    ensures edges { shown (0x20 ∷ 0x21 ∷ 0x7E ∷ 0x7F ∷ 0xFF ∷ []) ≡ codes "%20!~%7F%FF" }
    ensures no_name { shown [] ≡ [] }
    ensures refusal { refusal_text (record { file = 0; kind = Kind.PoolTag; at = 10 }) (codes "a.class")
        ≡ codes "keso: a.class: PoolTag at 10\n" }
    ensures whole_lines { lines (codes "ab\n\nc\n") ≡ codes "ab" ∷ [] ∷ codes "c" ∷ [] }
    ensures cut_line { lines (codes "\nc") ≡ [] ∷ codes "c" ∷ [] }
{}

#[test]
fn definitions_compute(_rt: HostRuntime) {
    worked_examples();
}

#[test]
fn escapes_what_is_no_plain_byte(rt: HostRuntime) -> Result<(), Fail> {
    for (name, text) in [
        (b"".as_slice(), ""),
        (b"a/B_9~!".as_slice(), "a/B_9~!"),
        (b"a%b".as_slice(), "a%25b"),
        (b" \t\x7f".as_slice(), "%20%09%7F"),
        (b"\xff\x80\x00".as_slice(), "%FF%80%00"),
    ] {
        let shown = escape(rt.alloc(), name)?;
        assert_eq!(rt; shown.as_slice(), text.as_bytes());
    }
    Ok(())
}

#[test]
fn appends_decimal_digits(rt: HostRuntime) -> Result<(), Fail> {
    let mut text = Vec::new(rt.alloc());
    append_decimal(&mut text, 0)?;
    append_decimal(&mut text, 120)?;
    assert_eq!(rt; text.as_slice(), b"0120".as_slice());
    Ok(())
}

#[test]
fn takes_pieces_and_stays_where_too_few_are_left(rt: HostRuntime) {
    let mut cursor = Cursor::new(b"abcde");
    assert_eq!(rt; cursor.take(2), Some(b"ab".as_slice()));
    assert_eq!(rt; cursor.take(4), None);
    assert_eq!(rt; cursor.at(), 2);
    assert_eq!(rt; cursor.rest(), b"cde".as_slice());
    assert_eq!(rt; cursor.take(0), Some(b"".as_slice()));
    assert!(rt; !cursor.is_at_end());
    assert_eq!(rt; cursor.take(3), Some(b"cde".as_slice()));
    assert!(rt; cursor.is_at_end());
    assert_eq!(rt; cursor.take(1), None);
    assert_eq!(rt; cursor.take(usize::MAX), None);
    assert_eq!(rt; cursor.at(), 5);
}

#[test]
fn reads_lines_with_and_without_a_last_line_feed(rt: HostRuntime) {
    for (text, end) in [(b"ab\n\nc\r\n".as_slice(), 7), (b"ab\n\nc\r".as_slice(), 6)] {
        let mut cursor = Cursor::new(text);
        assert_eq!(rt; cursor.line(), Some(b"ab".as_slice()));
        assert_eq!(rt; cursor.at(), 3);
        assert_eq!(rt; cursor.line(), Some(b"".as_slice()));
        assert_eq!(rt; cursor.at(), 4);
        assert_eq!(rt; cursor.line(), Some(b"c\r".as_slice()));
        assert_eq!(rt; cursor.at(), end);
        assert_eq!(rt; cursor.line(), None);
        assert_eq!(rt; cursor.at(), end);
    }
    assert_eq!(rt; Cursor::new(b"").line(), None);
}

fn copied(alloc: Global, bytes: &[u8]) -> Result<Vec<u8>, Stop> {
    let mut copy = Vec::with_capacity(alloc, bytes.len())?;
    for byte in bytes {
        copy.push(*byte)?;
    }
    Ok(copy)
}

#[test]
fn want_of_memory_becomes_a_stop(rt: HostRuntime) {
    assert!(rt; copied(rt.alloc(), b"ab").is_ok());
    assert_eq!(rt; Stop::from(AllocError), Stop::NoMemory);
}
