//! Initialisers in their order, and what statics start with.

use kes_text::{Kind, Refusal, Stop};
use run_lines::entry_lines;
use std::test::Fail;

const CONFIG: &str = "keso 1 order little
domain app heap 8
counter c max 9 base 1 min 1
task idle domain app prio 0 acts 1 auto no sched full entry Main.idle
alarm al counter c activate idle
start al at 9 cycle 0
native Main.show(II)I SetRelAlarm al
task main domain app prio 1 acts 1 auto yes sched full entry Main.";

/// What javac 17 with `--release 8 -g:none` wrote of
///
///     class Log { static int text; static int put(int n) { text = text * 10 + n; return n; } }
///     class A { static int x = Log.put(1) + Zed.w * 100; }
///     class B extends A { static int y = Log.put(5); }
///     class Zed { static int w = Log.put(3); }
///     class able { static int q = Log.put(4); }
///     class Never { static int v = Log.put(8); }
///     class Zero { static int n = 0; static int m = 1 / n; }
///     class Eager { static int n = Main.show(0, 0); }
///     class Main {
///         static native int show(int a, int b);
///         static void idle() { }
///         static int m = Log.put(2);
///
///         static void all() {
///             Object o = new B();
///             int k = able.q + Zed.w;
///             k += o instanceof Never ? 100 : 0;
///             show(Log.text, k);
///             show(B.x, B.y);
///         }
///
///         static void inherited() { show(B.x, Log.text); }
///         static void broken() { show(Zero.m, 0); }
///         static void eager() { show(Eager.n, 0); }
///     }
const MAIN: &[u8] = b"\
    \xca\xfe\xba\xbe\0\0\04\0?\x0a\0\x02\0\x03\x07\0\x04\x0c\0\x05\0\x06\x01\0\x10java/lang/Object\x01\0\x06<init>\
    \x01\0\x03()V\x07\0\x08\x01\0\x01B\x0a\0\x07\0\x03\x09\0\x0b\0\x0c\x07\0\x0d\x0c\0\x0e\0\x0f\x01\0\x04able\x01\
    \0\x01q\x01\0\x01I\x09\0\x11\0\x12\x07\0\x13\x0c\0\x14\0\x0f\x01\0\x03Zed\x01\0\x01w\x07\0\x16\x01\0\x05Never\
    \x09\0\x18\0\x19\x07\0\x1a\x0c\0\x1b\0\x0f\x01\0\x03Log\x01\0\x04text\x0a\0\x1d\0\x1e\x07\0\x1f\x0c\0\x20\0!\
    \x01\0\x04Main\x01\0\x04show\x01\0\x05(II)I\x09\0\x07\0#\x0c\0$\0\x0f\x01\0\x01x\x09\0\x07\0&\x0c\0'\0\x0f\x01\
    \0\x01y\x09\0)\0*\x07\0+\x0c\0,\0\x0f\x01\0\x04Zero\x01\0\x01m\x09\0.\0/\x07\00\x0c\01\0\x0f\x01\0\x05Eager\
    \x01\0\x01n\x0a\0\x18\03\x0c\04\05\x01\0\x03put\x01\0\x04(I)I\x09\0\x1d\0*\x01\0\x04Code\x01\0\x04idle\x01\0\
    \x03all\x01\0\x0dStackMapTable\x01\0\x09inherited\x01\0\x06broken\x01\0\x05eager\x01\0\x08<clinit>\0\x20\0\x1d\
    \0\x02\0\0\0\x01\0\x08\0,\0\x0f\0\0\0\x08\0\0\0\x05\0\x06\0\x01\07\0\0\0\x11\0\x01\0\x01\0\0\0\x05*\xb7\0\x01\
    \xb1\0\0\0\0\x01\x08\0\x20\0!\0\0\0\x08\08\0\x06\0\x01\07\0\0\0\x0d\0\0\0\0\0\0\0\x01\xb1\0\0\0\0\0\x08\09\0\
    \x06\0\x01\07\0\0\0`\0\x02\0\x02\0\0\03\xbb\0\x07Y\xb7\0\x09K\xb2\0\x0a\xb2\0\x10`<\x1b*\xc1\0\x15\x99\0\x08\
    \x10d\xa7\0\x04\x03`<\xb2\0\x17\x1b\xb8\0\x1cW\xb2\0\"\xb2\0%\xb8\0\x1cW\xb1\0\0\0\x01\0:\0\0\0\x1b\0\x02\xff\
    \0\x1d\0\x02\x07\0\x02\x01\0\x01\x01\xff\0\0\0\x02\x07\0\x02\x01\0\x02\x01\x01\0\x08\0;\0\x06\0\x01\07\0\0\0\
    \x17\0\x02\0\0\0\0\0\x0b\xb2\0\"\xb2\0\x17\xb8\0\x1cW\xb1\0\0\0\0\0\x08\0<\0\x06\0\x01\07\0\0\0\x15\0\x02\0\0\
    \0\0\0\x09\xb2\0(\x03\xb8\0\x1cW\xb1\0\0\0\0\0\x08\0=\0\x06\0\x01\07\0\0\0\x15\0\x02\0\0\0\0\0\x09\xb2\0-\x03\
    \xb8\0\x1cW\xb1\0\0\0\0\0\x08\0>\0\x06\0\x01\07\0\0\0\x14\0\x01\0\0\0\0\0\x08\x05\xb8\02\xb3\06\xb1\0\0\0\0\0\
    \0";

const LOG: &[u8] = b"\
    \xca\xfe\xba\xbe\0\0\04\0\x10\x0a\0\x02\0\x03\x07\0\x04\x0c\0\x05\0\x06\x01\0\x10java/lang/Object\x01\0\x06<in\
    it>\x01\0\x03()V\x09\0\x08\0\x09\x07\0\x0a\x0c\0\x0b\0\x0c\x01\0\x03Log\x01\0\x04text\x01\0\x01I\x01\0\x04Code\
    \x01\0\x03put\x01\0\x04(I)I\0\x20\0\x08\0\x02\0\0\0\x01\0\x08\0\x0b\0\x0c\0\0\0\x02\0\0\0\x05\0\x06\0\x01\0\
    \x0d\0\0\0\x11\0\x01\0\x01\0\0\0\x05*\xb7\0\x01\xb1\0\0\0\0\0\x08\0\x0e\0\x0f\0\x01\0\x0d\0\0\0\x19\0\x02\0\
    \x01\0\0\0\x0d\xb2\0\x07\x10\x0ah\x1a`\xb3\0\x07\x1a\xac\0\0\0\0\0\0";

const A: &[u8] = b"\
    \xca\xfe\xba\xbe\0\0\04\0\x1a\x0a\0\x02\0\x03\x07\0\x04\x0c\0\x05\0\x06\x01\0\x10java/lang/Object\x01\0\x06<in\
    it>\x01\0\x03()V\x0a\0\x08\0\x09\x07\0\x0a\x0c\0\x0b\0\x0c\x01\0\x03Log\x01\0\x03put\x01\0\x04(I)I\x09\0\x0e\0\
    \x0f\x07\0\x10\x0c\0\x11\0\x12\x01\0\x03Zed\x01\0\x01w\x01\0\x01I\x09\0\x14\0\x15\x07\0\x16\x0c\0\x17\0\x12\
    \x01\0\x01A\x01\0\x01x\x01\0\x04Code\x01\0\x08<clinit>\0\x20\0\x14\0\x02\0\0\0\x01\0\x08\0\x17\0\x12\0\0\0\x02\
    \0\0\0\x05\0\x06\0\x01\0\x18\0\0\0\x11\0\x01\0\x01\0\0\0\x05*\xb7\0\x01\xb1\0\0\0\0\0\x08\0\x19\0\x06\0\x01\0\
    \x18\0\0\0\x1b\0\x03\0\0\0\0\0\x0f\x04\xb8\0\x07\xb2\0\x0d\x10dh`\xb3\0\x13\xb1\0\0\0\0\0\0";

const B: &[u8] = b"\
    \xca\xfe\xba\xbe\0\0\04\0\x15\x0a\0\x02\0\x03\x07\0\x04\x0c\0\x05\0\x06\x01\0\x01A\x01\0\x06<init>\x01\0\x03()\
    V\x0a\0\x08\0\x09\x07\0\x0a\x0c\0\x0b\0\x0c\x01\0\x03Log\x01\0\x03put\x01\0\x04(I)I\x09\0\x0e\0\x0f\x07\0\x10\
    \x0c\0\x11\0\x12\x01\0\x01B\x01\0\x01y\x01\0\x01I\x01\0\x04Code\x01\0\x08<clinit>\0\x20\0\x0e\0\x02\0\0\0\x01\
    \0\x08\0\x11\0\x12\0\0\0\x02\0\0\0\x05\0\x06\0\x01\0\x13\0\0\0\x11\0\x01\0\x01\0\0\0\x05*\xb7\0\x01\xb1\0\0\0\
    \0\0\x08\0\x14\0\x06\0\x01\0\x13\0\0\0\x14\0\x01\0\0\0\0\0\x08\x08\xb8\0\x07\xb3\0\x0d\xb1\0\0\0\0\0\0";

const ZED: &[u8] = b"\
    \xca\xfe\xba\xbe\0\0\04\0\x15\x0a\0\x02\0\x03\x07\0\x04\x0c\0\x05\0\x06\x01\0\x10java/lang/Object\x01\0\x06<in\
    it>\x01\0\x03()V\x0a\0\x08\0\x09\x07\0\x0a\x0c\0\x0b\0\x0c\x01\0\x03Log\x01\0\x03put\x01\0\x04(I)I\x09\0\x0e\0\
    \x0f\x07\0\x10\x0c\0\x11\0\x12\x01\0\x03Zed\x01\0\x01w\x01\0\x01I\x01\0\x04Code\x01\0\x08<clinit>\0\x20\0\x0e\
    \0\x02\0\0\0\x01\0\x08\0\x11\0\x12\0\0\0\x02\0\0\0\x05\0\x06\0\x01\0\x13\0\0\0\x11\0\x01\0\x01\0\0\0\x05*\xb7\
    \0\x01\xb1\0\0\0\0\0\x08\0\x14\0\x06\0\x01\0\x13\0\0\0\x14\0\x01\0\0\0\0\0\x08\x06\xb8\0\x07\xb3\0\x0d\xb1\0\0\
    \0\0\0\0";

const ABLE: &[u8] = b"\
    \xca\xfe\xba\xbe\0\0\04\0\x15\x0a\0\x02\0\x03\x07\0\x04\x0c\0\x05\0\x06\x01\0\x10java/lang/Object\x01\0\x06<in\
    it>\x01\0\x03()V\x0a\0\x08\0\x09\x07\0\x0a\x0c\0\x0b\0\x0c\x01\0\x03Log\x01\0\x03put\x01\0\x04(I)I\x09\0\x0e\0\
    \x0f\x07\0\x10\x0c\0\x11\0\x12\x01\0\x04able\x01\0\x01q\x01\0\x01I\x01\0\x04Code\x01\0\x08<clinit>\0\x20\0\x0e\
    \0\x02\0\0\0\x01\0\x08\0\x11\0\x12\0\0\0\x02\0\0\0\x05\0\x06\0\x01\0\x13\0\0\0\x11\0\x01\0\x01\0\0\0\x05*\xb7\
    \0\x01\xb1\0\0\0\0\0\x08\0\x14\0\x06\0\x01\0\x13\0\0\0\x14\0\x01\0\0\0\0\0\x08\x07\xb8\0\x07\xb3\0\x0d\xb1\0\0\
    \0\0\0\0";

const NEVER: &[u8] = b"\
    \xca\xfe\xba\xbe\0\0\04\0\x15\x0a\0\x02\0\x03\x07\0\x04\x0c\0\x05\0\x06\x01\0\x10java/lang/Object\x01\0\x06<in\
    it>\x01\0\x03()V\x0a\0\x08\0\x09\x07\0\x0a\x0c\0\x0b\0\x0c\x01\0\x03Log\x01\0\x03put\x01\0\x04(I)I\x09\0\x0e\0\
    \x0f\x07\0\x10\x0c\0\x11\0\x12\x01\0\x05Never\x01\0\x01v\x01\0\x01I\x01\0\x04Code\x01\0\x08<clinit>\0\x20\0\
    \x0e\0\x02\0\0\0\x01\0\x08\0\x11\0\x12\0\0\0\x02\0\0\0\x05\0\x06\0\x01\0\x13\0\0\0\x11\0\x01\0\x01\0\0\0\x05*\
    \xb7\0\x01\xb1\0\0\0\0\0\x08\0\x14\0\x06\0\x01\0\x13\0\0\0\x15\0\x01\0\0\0\0\0\x09\x10\x08\xb8\0\x07\xb3\0\x0d\
    \xb1\0\0\0\0\0\0";

const ZERO: &[u8] = b"\
    \xca\xfe\xba\xbe\0\0\04\0\x12\x0a\0\x02\0\x03\x07\0\x04\x0c\0\x05\0\x06\x01\0\x10java/lang/Object\x01\0\x06<in\
    it>\x01\0\x03()V\x09\0\x08\0\x09\x07\0\x0a\x0c\0\x0b\0\x0c\x01\0\x04Zero\x01\0\x01n\x01\0\x01I\x09\0\x08\0\x0e\
    \x0c\0\x0f\0\x0c\x01\0\x01m\x01\0\x04Code\x01\0\x08<clinit>\0\x20\0\x08\0\x02\0\0\0\x02\0\x08\0\x0b\0\x0c\0\0\
    \0\x08\0\x0f\0\x0c\0\0\0\x02\0\0\0\x05\0\x06\0\x01\0\x10\0\0\0\x11\0\x01\0\x01\0\0\0\x05*\xb7\0\x01\xb1\0\0\0\
    \0\0\x08\0\x11\0\x06\0\x01\0\x10\0\0\0\x19\0\x02\0\0\0\0\0\x0d\x03\xb3\0\x07\x04\xb2\0\x07l\xb3\0\x0d\xb1\0\0\
    \0\0\0\0";

const EAGER: &[u8] = b"\
    \xca\xfe\xba\xbe\0\0\04\0\x15\x0a\0\x02\0\x03\x07\0\x04\x0c\0\x05\0\x06\x01\0\x10java/lang/Object\x01\0\x06<in\
    it>\x01\0\x03()V\x0a\0\x08\0\x09\x07\0\x0a\x0c\0\x0b\0\x0c\x01\0\x04Main\x01\0\x04show\x01\0\x05(II)I\x09\0\
    \x0e\0\x0f\x07\0\x10\x0c\0\x11\0\x12\x01\0\x05Eager\x01\0\x01n\x01\0\x01I\x01\0\x04Code\x01\0\x08<clinit>\0\
    \x20\0\x0e\0\x02\0\0\0\x01\0\x08\0\x11\0\x12\0\0\0\x02\0\0\0\x05\0\x06\0\x01\0\x13\0\0\0\x11\0\x01\0\x01\0\0\0\
    \x05*\xb7\0\x01\xb1\0\0\0\0\0\x08\0\x14\0\x06\0\x01\0\x13\0\0\0\x15\0\x02\0\0\0\0\0\x09\x03\x03\xb8\0\x07\xb3\
    \0\x0d\xb1\0\0\0\0\0\0";

const FILES: [&[u8]; 9] = [MAIN, ABLE, ZED, B, A, LOG, NEVER, ZERO, EAGER];

const ALL: &str = "main SetRelAlarm al 12345 7 7
main SetRelAlarm al 1 5 7
main TerminateTask 0
";

/// By the number of superclasses, and then by name; a class that is only asked for isn't reached.
#[test]
fn initialisers_run_in_order(rt: HostRuntime) -> Result<(), Fail> {
    let found = entry_lines(rt.alloc(), CONFIG, "all\n", &FILES)?;
    assert_eq!(rt; found.as_slice(), ALL.as_bytes());
    Ok(())
}

/// Reached are the entry's class, the class that declares the static, and what its initialiser names.
#[test]
fn a_static_reaches_the_class_that_declares_it(rt: HostRuntime) -> Result<(), Fail> {
    let found = entry_lines(rt.alloc(), CONFIG, "inherited\n", &FILES)?;
    assert_eq!(rt;
        found.as_slice(),
        b"main SetRelAlarm al 1 123 7\nmain TerminateTask 0\n".as_slice()
    );
    Ok(())
}

/// Behind it no task runs.
#[test]
fn an_initialiser_fails_as_start(rt: HostRuntime) -> Result<(), Fail> {
    let found = entry_lines(rt.alloc(), CONFIG, "broken\n", &FILES)?;
    assert_eq!(rt;
        found.as_slice(),
        b"start fail DivZero Zero.<clinit>()V 8\n".as_slice()
    );
    Ok(())
}

/// The call stands there in the ninth file.
const AT_START: Stop = Stop::Refused(Refusal {
    file: 8,
    kind: Kind::AtStart,
    at: 214,
});

#[test]
fn a_service_in_an_initialiser_is_refused(rt: HostRuntime) -> Result<(), Fail> {
    let found = entry_lines(rt.alloc(), CONFIG, "eager\n", &FILES);
    assert_eq!(rt; found.err(), Some(AT_START));
    Ok(())
}

/// What javac 17 with `--release 8 -g:none` wrote of this and another `Fixed`, whose fields aren't constants:
///
///     class Main {
///         static native int show(int a, int b);
///         static void idle() { }
///
///         static void fixed() {
///             show(Fixed.i, (int) (Fixed.l >>> 32));
///             show((int) Fixed.l, Fixed.s);
///             show(Fixed.c, Fixed.b);
///             show(Fixed.z ? 1 : 2, 0);
///         }
///     }
const READS: &[u8] = b"\
    \xca\xfe\xba\xbe\0\0\04\0+\x0a\0\x02\0\x03\x07\0\x04\x0c\0\x05\0\x06\x01\0\x10java/lang/Object\x01\0\x06<init>\
    \x01\0\x03()V\x09\0\x08\0\x09\x07\0\x0a\x0c\0\x0b\0\x0c\x01\0\x05Fixed\x01\0\x01i\x01\0\x01I\x09\0\x08\0\x0e\
    \x0c\0\x0f\0\x10\x01\0\x01l\x01\0\x01J\x0a\0\x12\0\x13\x07\0\x14\x0c\0\x15\0\x16\x01\0\x04Main\x01\0\x04show\
    \x01\0\x05(II)I\x09\0\x08\0\x18\x0c\0\x19\0\x1a\x01\0\x01s\x01\0\x01S\x09\0\x08\0\x1c\x0c\0\x1d\0\x1e\x01\0\
    \x01c\x01\0\x01C\x09\0\x08\0\x20\x0c\0!\0\"\x01\0\x01b\x01\0\x01B\x09\0\x08\0$\x0c\0%\0&\x01\0\x01z\x01\0\x01Z\
    \x01\0\x04Code\x01\0\x04idle\x01\0\x05fixed\x01\0\x0dStackMapTable\0\x20\0\x12\0\x02\0\0\0\0\0\x04\0\0\0\x05\0\
    \x06\0\x01\0'\0\0\0\x11\0\x01\0\x01\0\0\0\x05*\xb7\0\x01\xb1\0\0\0\0\x01\x08\0\x15\0\x16\0\0\0\x08\0(\0\x06\0\
    \x01\0'\0\0\0\x0d\0\0\0\0\0\0\0\x01\xb1\0\0\0\0\0\x08\0)\0\x06\0\x01\0'\0\0\0K\0\x04\0\0\0\0\04\xb2\0\x07\xb2\
    \0\x0d\x10\x20}\x88\xb8\0\x11W\xb2\0\x0d\x88\xb2\0\x17\xb8\0\x11W\xb2\0\x1b\xb2\0\x1f\xb8\0\x11W\xb2\0#\x99\0\
    \x07\x04\xa7\0\x04\x05\x03\xb8\0\x11W\xb1\0\0\0\x01\0*\0\0\0\x05\0\x02-@\x01\0\0";

/// What javac 17 with `--release 8 -g:none` wrote of
///
///     class Fixed {
///         static final int i = -7; static final long l = 5000000000L; static final short s = -3;
///         static final char c = 65535; static final byte b = -128; static final boolean z = true;
///     }
const FIXED: &[u8] = b"\
    \xca\xfe\xba\xbe\0\0\04\0\x1e\x0a\0\x02\0\x03\x07\0\x04\x0c\0\x05\0\x06\x01\0\x10java/lang/Object\x01\0\x06<in\
    it>\x01\0\x03()V\x07\0\x08\x01\0\x05Fixed\x01\0\x01i\x01\0\x01I\x01\0\x0dConstantValue\x03\xff\xff\xff\xf9\x01\
    \0\x01l\x01\0\x01J\x05\0\0\0\x01*\x05\xf2\0\x01\0\x01s\x01\0\x01S\x03\xff\xff\xff\xfd\x01\0\x01c\x01\0\x01C\
    \x03\0\0\xff\xff\x01\0\x01b\x01\0\x01B\x03\xff\xff\xff\x80\x01\0\x01z\x01\0\x01Z\x03\0\0\0\x01\x01\0\x04Code\0\
    \x20\0\x07\0\x02\0\0\0\x06\0\x18\0\x09\0\x0a\0\x01\0\x0b\0\0\0\x02\0\x0c\0\x18\0\x0d\0\x0e\0\x01\0\x0b\0\0\0\
    \x02\0\x0f\0\x18\0\x11\0\x12\0\x01\0\x0b\0\0\0\x02\0\x13\0\x18\0\x14\0\x15\0\x01\0\x0b\0\0\0\x02\0\x16\0\x18\0\
    \x17\0\x18\0\x01\0\x0b\0\0\0\x02\0\x19\0\x18\0\x1a\0\x1b\0\x01\0\x0b\0\0\0\x02\0\x1c\0\x01\0\0\0\x05\0\x06\0\
    \x01\0\x1d\0\0\0\x11\0\x01\0\x01\0\0\0\x05*\xb7\0\x01\xb1\0\0\0\0\0\0";

/// The same file with 0x180 for -128, and 2 for true.
const WIDER: &[u8] = b"\
    \xca\xfe\xba\xbe\0\0\04\0\x1e\x0a\0\x02\0\x03\x07\0\x04\x0c\0\x05\0\x06\x01\0\x10java/lang/Object\x01\0\x06<in\
    it>\x01\0\x03()V\x07\0\x08\x01\0\x05Fixed\x01\0\x01i\x01\0\x01I\x01\0\x0dConstantValue\x03\xff\xff\xff\xf9\x01\
    \0\x01l\x01\0\x01J\x05\0\0\0\x01*\x05\xf2\0\x01\0\x01s\x01\0\x01S\x03\xff\xff\xff\xfd\x01\0\x01c\x01\0\x01C\
    \x03\0\0\xff\xff\x01\0\x01b\x01\0\x01B\x03\0\0\x01\x80\x01\0\x01z\x01\0\x01Z\x03\0\0\0\x02\x01\0\x04Code\0\x20\
    \0\x07\0\x02\0\0\0\x06\0\x18\0\x09\0\x0a\0\x01\0\x0b\0\0\0\x02\0\x0c\0\x18\0\x0d\0\x0e\0\x01\0\x0b\0\0\0\x02\0\
    \x0f\0\x18\0\x11\0\x12\0\x01\0\x0b\0\0\0\x02\0\x13\0\x18\0\x14\0\x15\0\x01\0\x0b\0\0\0\x02\0\x16\0\x18\0\x17\0\
    \x18\0\x01\0\x0b\0\0\0\x02\0\x19\0\x18\0\x1a\0\x1b\0\x01\0\x0b\0\0\0\x02\0\x1c\0\x01\0\0\0\x05\0\x06\0\x01\0\
    \x1d\0\0\0\x11\0\x01\0\x01\0\0\0\x05*\xb7\0\x01\xb1\0\0\0\0\0\0";

const FIXED_LINES: &str = "main SetRelAlarm al -7 1 7
main SetRelAlarm al 705032704 -3 7
main SetRelAlarm al 65535 -128 7
";

#[test]
fn statics_start_with_their_constants(rt: HostRuntime) -> Result<(), Fail> {
    let found = entry_lines(rt.alloc(), CONFIG, "fixed\n", &[READS, FIXED])?;
    let wanted = format!(in rt.alloc();
        "{FIXED_LINES}main SetRelAlarm al 1 0 7\nmain TerminateTask 0\n"
    )?;
    assert_eq!(rt; found.as_slice(), wanted.as_bytes());
    Ok(())
}

#[test]
fn constants_are_kept_as_a_store_keeps_them(rt: HostRuntime) -> Result<(), Fail> {
    let found = entry_lines(rt.alloc(), CONFIG, "fixed\n", &[READS, WIDER])?;
    let wanted = format!(in rt.alloc();
        "{FIXED_LINES}main SetRelAlarm al 2 0 7\nmain TerminateTask 0\n"
    )?;
    assert_eq!(rt; found.as_slice(), wanted.as_bytes());
    Ok(())
}
