ghost use Rattle.std.specs.Prelude.{◌≡◌, ◌≤◌, ℕ, List, IfOk, IfErr, OnOk, length};
ghost use Rattle.std.specs.Io.KnownBytes.{Appends};
ghost use Rattle.script_text.specs.declared.line.Line.{Line as LineOf};
ghost use Rattle.world_run.specs.Conditions.{KeepsConditions};
ghost use Rattle.transcript_replay.specs.Cuts.{lines_of};
ghost use Rattle.transcript_replay.specs.Ends.{HeardEnds, end_of};
ghost use Rattle.transcript_replay.specs.Players.{fresh, set_up};
ghost use Rattle.transcript_replay.specs.Runs.{Runs};
ghost use Rattle.transcript_replay.specs.Stops.{HasStopCause};

use crate::cut::first_line;
use crate::game::play_events;
use crate::reading::put_fault;
use crate::setup::Setup;
use crate::stop::Stop;
use outside::Sink;
use std::alloc::Global;

/// Hears a line before the first event line, or writes that it is bad. Answers whether it is the first event line.
fn hear_line<O: Sink>(
    alloc: Global,
    setup: &mut Setup,
    text: &[u8],
    number: usize,
    out: &mut O,
) -> Result<bool, Stop>
    requires kept { KeepsConditions setup.old.config }
    ensures ends { HeardEnds result number (set_up setup.old.config setup.old.rules.items) text.now
        (set_up setup.new.config setup.new.rules.items) (O.put_so_far out.old)
        (O.put_so_far out.new) }
    ensures kept { OnOk result (KeepsConditions setup.new.config) }
    ensures cause { HasStopCause (O.fault_count out.old) (O.fault_count out.new) result }
{
    match setup.hear(alloc, text) {
        Ok(event) => Ok(event),
        Err(fault) => Err(put_fault(alloc, fault, number, out)),
    }
}

/// Plays a whole script.
pub(crate) fn play<O: Sink>(alloc: Global, text: &[u8], out: &mut O) -> Result<(), Stop>
    requires short { length text.now ≤ 1_048_576 }
    ensures ends { (written : List ℕ) × Runs 1 fresh (lines_of text.now) (end_of result) written
        × Appends (O.put_so_far out.old) (O.put_so_far out.new) written }
    ensures cause { HasStopCause (O.fault_count out.old) (O.fault_count out.new) result }
{
    let mut setup = Setup::new(alloc);
    let mut rest = text;
    let mut number = 1;
    while !rest.is_empty() {
        let (line, after) = first_line(rest);
        let event = hear_line(alloc, &mut setup, line, number, out)?;
        if event {
            return play_events(alloc, setup, rest, number, out);
        }
        number += 1;
        rest = after;
    }
    Ok(())
}
