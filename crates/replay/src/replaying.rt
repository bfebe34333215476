//! A script's moves on the bytecode, line by line.

ghost use Rattle.std.specs.Prelude.{◌≡◌, [], ◌∷◌, replicate, All, IfOk};
ghost use Rattle.script.specs.Names.{AreFew, event_names};
ghost use Rattle.script.specs.Writing.{moves_of};
ghost use Rattle.kconfig.specs.Sound.{IsSound};
ghost use Rattle.b_machine.specs.Trace.{trace, IsMove};
ghost use Rattle.replay.specs.Puts.{Puts};
ghost use Rattle.replay.specs.Replays.{Replays};
ghost use Rattle.replay.specs.Rest.{rests, rests_at};
ghost use Rattle.replay.specs.Seen.{sink_seen};
ghost use Rattle.replay.specs.Text.{trace_text};

use crate::ending::Ending;
use crate::putting::put_shown;
use b_machine::{Bm, Program, Shown};
use kes_outside::Sink;
use osek_core::Move;
use script::{Line, Names};
use std::alloc::Global;

/// Whether the move was a step, and nobody made it.
fn rests(step: &Move, shown: &Shown) -> bool
    ensures { result ≡ rests step.now shown.now.weight }
{
    match step {
        Move::Run => shown.weight == 0,
        Move::Tick(_) | Move::Poke { .. } => false,
    }
}

/// Makes a move and puts the lines of what it shows. Whether it was a step, and nobody made it.
fn replay_move<O: Sink>(
    alloc: Global,
    machine: &mut Bm<'_>,
    names: &Names,
    step: &Move,
    out: &mut O,
) -> Result<bool, Ending>
    requires moves { IsMove machine.old.app step.now }
    requires few { AreFew names.now }
    ensures replays { Replays (event_names names.now) (step.now ∷ []) machine.old (sink_seen O.taken O.faults out.old) result machine.new (sink_seen O.taken O.faults out.new) }
    ensures rests { IfOk result (λ resting. resting ≡ rests_at machine.old step.now) }
{
    let shown = machine.apply(alloc, step)?;
    put_shown(alloc, names, &shown, out)?;
    Ok(rests(step, &shown))
}

/// The moves of a line. They end with the first step that nobody makes, since then nobody makes the next ones either.
fn replay_line<O: Sink>(
    alloc: Global,
    machine: &mut Bm<'_>,
    names: &Names,
    line: Line,
    out: &mut O,
) -> Result<(), Ending>
    requires moves { IsMove machine.old.app line.step }
    requires few { AreFew names.now }
    ensures { Replays (event_names names.now) (replicate line.times line.step) machine.old (sink_seen O.taken O.faults out.old) result machine.new (sink_seen O.taken O.faults out.new) }
{
    for _made in 0..line.times {
        if replay_move(alloc, machine, names, &line.step, out)? {
            return Ok(());
        }
    }
    Ok(())
}

/// Makes the moves of a script's lines and puts the line of each event on the output as soon as it is shown, behind
/// it those of the alarms whose action was lost.
///
/// Where it stops on its way, the output has taken the first bytes of these lines and no others: it failed, which it
/// has counted, or there was no memory. The machine has then made some of the moves.
///
/// A line of steps ends as soon as nobody acts, whatever its count. Nothing is allocated for a move that shows
/// nothing.
pub fn replay<O: Sink>(
    alloc: Global,
    machine: &mut Bm<'_>,
    names: &Names,
    lines: &[Line],
    out: &mut O,
) -> Result<(), Ending>
    requires moves { All (λ line. IsMove machine.old.app line.step) lines.now }
    requires few { AreFew names.now }
    ensures { Replays (event_names names.now) (moves_of lines.now) machine.old (sink_seen O.taken O.faults out.old) result machine.new (sink_seen O.taken O.faults out.new) }
{
    for line in lines {
        replay_line(alloc, machine, names, *line, out)?;
    }
    Ok(())
}

/// Runs an application from its start with the moves of a script's lines, and puts the lines of its trace on the
/// output, as [`replay`] does.
pub fn trace<O: Sink>(
    alloc: Global,
    program: Program<'_>,
    names: &Names,
    lines: &[Line],
    out: &mut O,
) -> Result<(), Ending>
    requires sound { IsSound program.bound.config }
    requires moves { All (λ line. IsMove program line.step) lines.now }
    requires few { AreFew names.now }
    ensures { Puts (trace_text (event_names names.now) (trace program.entry (moves_of lines.now))) (sink_seen O.taken O.faults out.old) result (sink_seen O.taken O.faults out.new) }
{
    let mut machine = Bm::new(alloc, program)?;
    replay(alloc, &mut machine, names, lines, out)
}
