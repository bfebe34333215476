use classfile::read_class;
use jcode::*;
use kes_text::{Kind, Stop};
use std::test::Fail;

/// A class whose constant pool has a class at 2, a Fieldref at 8, a Methodref at 12, an InterfaceMethodref
/// at 13, the Integer 7 at 14 and the Long -1 at 15.
const CLASS: &[u8] = b"\xCA\xFE\xBA\xBE\0\0\0\x34\0\x11\
    \x01\0\x01A\
    \x07\0\x01\
    \x01\0\x10java/lang/Object\
    \x07\0\x03\
    \x01\0\x01f\
    \x01\0\x01I\
    \x0C\0\x05\0\x06\
    \x09\0\x02\0\x07\
    \x01\0\x01m\
    \x01\0\x03()V\
    \x0C\0\x09\0\x0A\
    \x0A\0\x02\0\x0B\
    \x0B\0\x02\0\x0B\
    \x03\0\0\0\x07\
    \x05\xFF\xFF\xFF\xFF\xFF\xFF\xFF\xFF\
    \0\x21\0\x02\0\x04\0\0\0\0\0\0\0\0";

/// Operands with which each instruction of the profile that has some reads.
fn operands_of(opcode: u8) -> &'static [u8] {
    match opcode {
        16 | 21 | 22 | 25 | 54 | 55 | 58 => &[1],
        17 => &[1, 2],
        18 => &[14],
        19 => &[0, 14],
        20 => &[0, 15],
        132 => &[1, 255],
        153..=167 | 198 | 199 => &[0, 0],
        170 => &[9, 9, 9, 0, 0, 0, 0, 0, 0, 0, 5, 0, 0, 0, 5, 0, 0, 0, 0],
        171 => &[9, 9, 9, 0, 0, 0, 0, 0, 0, 0, 0],
        178..=181 => &[0, 8],
        182..=184 => &[0, 12],
        185 => &[0, 13, 1, 0],
        187 | 189 | 192 | 193 => &[0, 2],
        188 => &[4],
        196 => &[21, 1, 0],
        200 => &[0, 0, 0, 0],
        _ => &[],
    }
}

/// Whether the profile leaves an instruction out (JVMS 6.5).
fn is_outside(opcode: u8) -> bool {
    matches!(opcode, 11..=15 | 23 | 24 | 34..=41 | 48 | 49 | 56 | 57 | 67..=74 | 81 | 82)
        || matches!(
            opcode,
            98 | 99 | 102 | 103 | 106 | 107 | 110 | 111 | 114 | 115 | 118 | 119
        )
        || matches!(opcode, 134 | 135 | 137..=144 | 149..=152 | 168 | 169 | 174 | 175)
        || matches!(opcode, 186 | 194 | 195 | 197 | 201)
}

#[test]
fn each_opcode_reads_once(rt: HostRuntime) -> Result<(), Fail> {
    let class = read_class(rt.alloc(), CLASS)?;
    for opcode in 0..=255u8 {
        let mut code = vec![in rt.alloc(); opcode]?;
        code.extend_from_slice(operands_of(opcode))?;
        match decode(rt.alloc(), &code, 7, &class) {
            Ok(found) => {
                assert!(rt; opcode <= 201 && !is_outside(opcode), "{opcode}");
                assert_eq!(rt; found.len(), 1, "{opcode}");
            }
            Err(Stop::Refused(refusal)) if opcode > 201 => {
                assert_eq!(rt; refusal.kind, Kind::Opcode, "{opcode}");
                assert_eq!(rt; refusal.at, 7);
            }
            Err(Stop::Refused(refusal)) => {
                assert_eq!(rt; refusal.kind, Kind::Unsupported, "{opcode}");
                assert!(rt; is_outside(opcode), "{opcode}");
                assert_eq!(rt; refusal.at, 7);
            }
            Err(Stop::NoMemory) => assert!(rt; false, "{opcode}"),
        }
    }
    Ok(())
}

#[test]
fn each_refusal_has_its_place(rt: HostRuntime) -> Result<(), Fail> {
    let class = read_class(rt.alloc(), CLASS)?;
    let table: [(&[u8], Kind, u64); 16] = [
        (&[0, 202], Kind::Opcode, 101),
        (&[0, 254], Kind::Opcode, 101),
        (&[0, 255], Kind::Opcode, 101),
        (&[0, 196, 0], Kind::Opcode, 102),
        (&[0, 11], Kind::Unsupported, 101),
        (&[0, 196, 23, 0, 1], Kind::Unsupported, 101),
        (&[0, 17, 1], Kind::Operand, 101),
        (&[0, 196], Kind::Operand, 101),
        (&[18, 15], Kind::Operand, 100),
        (&[184, 0, 13], Kind::Operand, 100),
        (&[188, 7], Kind::Operand, 100),
        (
            &[171, 0, 0, 0, 0, 0, 0, 0, 255, 255, 255, 255],
            Kind::SwitchTable,
            100,
        ),
        (&[0, 167, 0, 1], Kind::Jump, 101),
        (&[0, 167, 255, 254], Kind::Jump, 101),
        (&[0, 200, 0, 0, 255, 255], Kind::Jump, 101),
        (&[0, 167, 0, 1, 11], Kind::Unsupported, 104),
    ];
    for (code, kind, at) in table {
        match decode(rt.alloc(), code, 100, &class) {
            Err(Stop::Refused(refusal)) => {
                assert_eq!(rt; refusal.file, 0);
                assert_eq!(rt; refusal.kind, kind, "{code:?}");
                assert_eq!(rt; refusal.at, at, "{code:?}");
            }
            Err(Stop::NoMemory) => assert!(rt; false, "memory for {code:?}"),
            Ok(_) => assert!(rt; false, "{code:?} reads"),
        }
    }
    Ok(())
}

#[test]
fn a_switch_reads_behind_each_padding(rt: HostRuntime) -> Result<(), Fail> {
    let class = read_class(rt.alloc(), CLASS)?;
    for nops in 0..4u8 {
        let mut code = vec![in rt.alloc()]?;
        for _ in 0..nops {
            code.push(0)?;
        }
        code.push(170)?;
        for _ in 0..3 - nops {
            code.push(9)?;
        }
        code.extend_from_slice(&[0, 0, 0, 0, 255, 255, 255, 255, 0, 0, 0, 0])?;
        code.extend_from_slice(&[0, 0, 0, 0, 0, 0, 0, 24 - nops, 177])?;
        let found = decode(rt.alloc(), &code, 0, &class)?;
        let switch = found.get(usize::from(nops)).ok_or("no switch")?;
        assert_eq!(rt; switch.pc, u16::from(nops));
        let Op::Switch { cases, other } = &switch.op else {
            return Err(Fail::from("another instruction"));
        };
        assert_eq!(rt; *other, u16::from(nops));
        assert_eq!(rt;
            cases.as_slice(),
            [(-1, u16::from(nops)), (0, 24)].as_slice()
        );
    }
    Ok(())
}
