//! The lines of what a move shows, put on an output.

ghost use Rattle.std.specs.Prelude.{◌≡◌, IfOk, map};
ghost use Rattle.osek_core.specs.declared.event.Event.TheVariants.{Lost};
ghost use Rattle.system.specs.Lost.{lost_alarms};
ghost use Rattle.b_machine.specs.Moves.{events_of};
ghost use Rattle.b_machine.specs.Shown.{shown};
ghost use Rattle.script.specs.Names.{AreFew, event_names};
ghost use Rattle.replay.specs.Puts.{Puts};
ghost use Rattle.replay.specs.Seen.{sink_seen};
ghost use Rattle.replay.specs.Text.{event_text, trace_text};

use crate::ending::Ending;
use b_machine::Shown;
use kes_outside::{Sink, SinkFault};
use kes_text::NoMemory;
use osek_core::Event;
use script::{Names, event_line};
use std::alloc::Global;
use system::lost_alarms;

/// Puts a piece on the output.
fn put<O: Sink>(alloc: Global, bytes: &[u8], out: &mut O) -> Result<(), Ending>
    ensures { Puts bytes.now (sink_seen O.taken O.faults out.old) result (sink_seen O.taken O.faults out.new) }
{
    match out.put(alloc, bytes) {
        Ok(()) => Ok(()),
        Err(SinkFault::Failed) => Err(Ending::OutputFailed),
        Err(SinkFault::NoMemory) => Err(Ending::NoMemory),
    }
}

/// An event's line, with its line feed.
fn event_text(alloc: Global, names: &Names, event: &Event) -> Result<Vec<u8>, NoMemory>
    requires { AreFew names.now }
    ensures { IfOk result (λ text. text.items ≡ event_text (event_names names.now) event.now) }
{
    let mut text = event_line(alloc, event, names)?;
    text.push(b'\n')?;
    Ok(text)
}

/// Puts an event's line.
fn put_event<O: Sink>(
    alloc: Global,
    names: &Names,
    event: &Event,
    out: &mut O,
) -> Result<(), Ending>
    requires { AreFew names.now }
    ensures { Puts (event_text (event_names names.now) event.now) (sink_seen O.taken O.faults out.old) result (sink_seen O.taken O.faults out.new) }
{
    let text = event_text(alloc, names, event)?;
    put(alloc, text.as_slice(), out)
}

/// Puts the line of the event, if there is one.
fn put_if_shown<O: Sink>(
    alloc: Global,
    names: &Names,
    event: Option<Event>,
    out: &mut O,
) -> Result<(), Ending>
    requires { AreFew names.now }
    ensures { Puts (trace_text (event_names names.now) (shown event)) (sink_seen O.taken O.faults out.old) result (sink_seen O.taken O.faults out.new) }
{
    match event {
        Some(event) => put_event(alloc, names, &event, out),
        None => Ok(()),
    }
}

/// Puts a line for each of the alarms, whose action was lost.
fn put_alarms<O: Sink>(
    alloc: Global,
    names: &Names,
    alarms: &[u32],
    out: &mut O,
) -> Result<(), Ending>
    requires { AreFew names.now }
    ensures { Puts (trace_text (event_names names.now) (map Lost alarms.now)) (sink_seen O.taken O.faults out.old) result (sink_seen O.taken O.faults out.new) }
{
    for alarm in alarms {
        put_event(alloc, names, &Event::Lost { alarm: *alarm }, out)?;
    }
    Ok(())
}

/// The same, of a set of alarms, bit k for alarm k.
fn put_lost<O: Sink>(alloc: Global, names: &Names, lost: u64, out: &mut O) -> Result<(), Ending>
    requires { AreFew names.now }
    ensures { Puts (trace_text (event_names names.now) (map Lost (lost_alarms lost))) (sink_seen O.taken O.faults out.old) result (sink_seen O.taken O.faults out.new) }
{
    if lost == 0 {
        return Ok(());
    }
    let alarms = lost_alarms(alloc, lost)?;
    put_alarms(alloc, names, alarms.as_slice(), out)
}

/// Puts the lines of what a move shows: its event, and behind it the alarms whose action was lost.
///
/// Nothing is allocated where it shows nothing.
pub fn put_shown<O: Sink>(
    alloc: Global,
    names: &Names,
    shown: &Shown,
    out: &mut O,
) -> Result<(), Ending>
    requires { AreFew names.now }
    ensures { Puts (trace_text (event_names names.now) (events_of shown.now)) (sink_seen O.taken O.faults out.old) result (sink_seen O.taken O.faults out.new) }
{
    put_if_shown(alloc, names, shown.event, out)?;
    put_lost(alloc, names, shown.lost, out)
}
