ghost use Rattle.std.specs.Prelude.{IfOk, IfErr};
ghost use Rattle.transcript_replay.specs.Ends.{FaultEnds, IsUnsaid, TextEnds};
ghost use Rattle.transcript_replay.specs.Said.{Says};
ghost use Rattle.transcript_replay.specs.Stops.{HasFaultCause, HasStopCause};

use crate::printed::print_bad;
use crate::reason::Reason;
use crate::stop::{LineFault, Stop};
use outside::Sink;
use script_text::{BadLine, Line, read_line};
use std::alloc::Global;
use term_values::Term;

/// Writes a text. An empty one is no write.
pub(crate) fn put_text<O: Sink>(out: &mut O, text: &[u8]) -> Result<(), Stop>
    ensures ends { TextEnds result text.now (O.put_so_far out.old) (O.put_so_far out.new) }
    ensures cause { HasStopCause (O.fault_count out.old) (O.fault_count out.new) result }
{
    if text.is_empty() {
        return Ok(());
    }
    match out.put(text) {
        Ok(()) => Ok(()),
        Err(fault) => Err(Stop::from(fault)),
    }
}

/// Reads a line, or finds it bad.
pub(crate) fn line_of(alloc: Global, text: &[u8], sent: &[Term]) -> Result<Line, LineFault>
    ensures ok { IfOk result (Says sent.now text.now) }
    ensures bad { IfErr result (IsUnsaid sent.now text.now) }
{
    match read_line(alloc, text, sent) {
        Ok(line) => Ok(line),
        Err(BadLine::Grammar) => Err(LineFault::Bad(Reason::Grammar)),
        Err(BadLine::Reference) => Err(LineFault::Bad(Reason::Reference)),
        Err(BadLine::Memory) => Err(LineFault::Memory),
    }
}

/// Writes that a line is bad.
pub(crate) fn put_fault<O: Sink>(
    alloc: Global,
    fault: LineFault,
    number: usize,
    out: &mut O,
) -> Stop
    ensures ends { FaultEnds result fault number (O.put_so_far out.old) (O.put_so_far out.new) }
    ensures cause { HasFaultCause (O.fault_count out.old) (O.fault_count out.new) result }
{
    let LineFault::Bad(reason) = fault else {
        return Stop::Memory;
    };
    let text = match print_bad(alloc, number, reason) {
        Ok(text) => text,
        Err(_) => return Stop::Memory,
    };
    match put_text(out, &text) {
        Ok(()) => Stop::Bad,
        Err(stop) => stop,
    }
}
