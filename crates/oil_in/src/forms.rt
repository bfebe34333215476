//! The forms of the lines that have a name or a number in them.

ghost use Rattle.std.specs.Prelude.{codes};
ghost use Rattle.oil_in.specs.Pieces.{Finds};
ghost use Rattle.oil_in.specs.Forms.{name_in, header, reference, number_in, number_line, choice, schedule_line, autostart_line, activate_line, set_line, started_line};

use crate::pieces::{Number, behind, name_of, number_of};

/// A name between two texts, and the bytes behind them.
#[tactic(auto, unfolding(crate::specs::Forms::name_in))]
fn name_in<'a>(front: &str, back: &str, bytes: &'a [u8]) -> Option<(&'a [u8], &'a [u8])>
    ensures { Finds (λ x. (x.0.now, x.1.now)) result (name_in front.now back.now bytes.now) }
{
    let word = behind(front, bytes)?;
    let (name, rest) = name_of(word)?;
    let rest = behind(back, rest)?;
    Some((name, rest))
}

/// An object's name in its first line.
pub fn header<'a>(front: &str, bytes: &'a [u8]) -> Option<(&'a [u8], &'a [u8])>
    ensures { Finds (λ x. (x.0.now, x.1.now)) result (header front.now bytes.now) }
{
    name_in(front, " {\n", bytes)
}

/// The name of another object in an attribute.
pub fn reference<'a>(front: &str, bytes: &'a [u8]) -> Option<(&'a [u8], &'a [u8])>
    ensures { Finds (λ x. (x.0.now, x.1.now)) result (reference front.now bytes.now) }
{
    name_in(front, ";\n", bytes)
}

/// A number between two texts, and the bytes behind them.
#[tactic(auto, unfolding(crate::specs::Forms::number_in))]
fn number_in<'a>(front: &str, back: &str, bytes: &'a [u8]) -> Option<(Number, &'a [u8])>
    ensures { Finds (λ x. (x.0, x.1.now)) result (number_in front.now back.now bytes.now) }
{
    let word = behind(front, bytes)?;
    let (number, rest) = number_of(word)?;
    let rest = behind(back, rest)?;
    Some((number, rest))
}

/// The number of an attribute.
pub fn number_line<'a>(front: &str, bytes: &'a [u8]) -> Option<(Number, &'a [u8])>
    ensures { Finds (λ x. (x.0, x.1.now)) result (number_line front.now bytes.now) }
{
    number_in(front, ";\n", bytes)
}

/// Whether the first of two lines stands there, or the second.
#[tactic(auto, unfolding(crate::specs::Forms::choice))]
fn choice<'a>(one: &str, other: &str, bytes: &'a [u8]) -> Option<(bool, &'a [u8])>
    ensures { Finds (λ x. (x.0, x.1.now)) result (choice one.now other.now bytes.now) }
{
    if let Some(rest) = behind(one, bytes) {
        return Some((true, rest));
    }
    let rest = behind(other, bytes)?;
    Some((false, rest))
}

/// Whether a task gives way to others at any time.
pub fn schedule_line(bytes: &[u8]) -> Option<(bool, &[u8])>
    ensures { Finds (λ x. (x.0, x.1.now)) result (schedule_line bytes.now) }
{
    choice("    SCHEDULE = FULL;\n", "    SCHEDULE = NON;\n", bytes)
}

/// Whether a task is activated when the kernel starts.
pub fn autostart_line(bytes: &[u8]) -> Option<(bool, &[u8])>
    ensures { Finds (λ x. (x.0, x.1.now)) result (autostart_line bytes.now) }
{
    let yes = "    AUTOSTART = TRUE { APPMODE = mode; };\n";
    choice(yes, "    AUTOSTART = FALSE;\n", bytes)
}

/// The task that an alarm activates.
pub fn activate_line(bytes: &[u8]) -> Option<(&[u8], &[u8])>
    ensures { Finds (λ x. (x.0.now, x.1.now)) result (activate_line bytes.now) }
{
    name_in("    ACTION = ACTIVATETASK { TASK = t_", "; };\n", bytes)
}

/// The task and the event that an alarm sets for it.
#[tactic(auto, unfolding(crate::specs::Forms::set_line))]
pub fn set_line(bytes: &[u8]) -> Option<(&[u8], &[u8], &[u8])>
    ensures { Finds (λ x. (x.0.now, x.1.now, x.2.now)) result (set_line bytes.now) }
{
    let (task, rest) = name_in("    ACTION = SETEVENT { TASK = t_", "; EVENT = e_", bytes)?;
    let (event, rest) = name_in("", "; };\n", rest)?;
    Some((task, event, rest))
}

/// When an alarm that starts with the kernel is due, and after how many ticks again.
#[tactic(auto, unfolding(crate::specs::Forms::started_line))]
pub fn started_line(bytes: &[u8]) -> Option<(Number, Number, &[u8])>
    ensures { Finds (λ x. (x.0, x.1, x.2.now)) result (started_line bytes.now) }
{
    let (first, rest) = number_in(
        "    AUTOSTART = TRUE { ALARMTIME = ",
        "; CYCLETIME = ",
        bytes,
    )?;
    let (cycle, rest) = number_in("", "; APPMODE = mode; };\n", rest)?;
    Some((first, cycle, rest))
}
