ghost use Rattle.std.specs.Prelude.{◌≡◌, ◌↔◌, ◌⊎◌, ◌+◌, ◌<◌, ◌∷◌, [], Some, IsErr, IfOk, OnErr};
ghost use Rattle.std.specs.Prelude.{is_err, length};
ghost use Rattle.outside.specs.Causes.{HasCause};
ghost use Rattle.outside.specs.Gates.{Gated, Admits, Leaves, after_return, out_after, out_dialed};
ghost use Rattle.outside.specs.Tally.{IsToFail, no_calls, tally_after};

use crate::calls::Calls;
use crate::fault::Failed;
use crate::gate::Gate;
use crate::link::Link;
use std::alloc::Global;
use std::marker::Model;
use term_values::OutOfMemory;

/// A gate in memory, some of whose calls fail. Contracts see its three lists, how many lines are
/// out, and the calls.
#[derive(Debug, Drop)]
pub struct MemGate<L> {
    to_come: Vec<L>,
    returned: Vec<L>,
    dialed: Vec<u16>,
    lines_out: usize,
    calls: Calls,
}

impl<L> Model for MemGate<L> {
    ghost use Rattle.std.specs.Prelude.{◌+◌, ◌≤◌, vec_len, vec_capacity};
    ghost use Rattle.outside.specs.Gates.{GateParts};

    ghost Value = { GateParts L };

    ghost view = { λ g. record {
      lists = record { to_come = g.to_come.items; returned = g.returned.items; dialed = g.dialed.items };
      lines_out = g.lines_out;
      calls = g.calls;
    } };

    ghost invariant = { λ g.
        (vec_len g.returned + (g.lines_out + vec_len g.to_come) ≤ vec_capacity g.returned)
        × (vec_len g.dialed + vec_len g.to_come ≤ vec_capacity g.dialed) };
}

impl<L: Link + Drop> MemGate<L> {
    /// A gate to which these lines come, in this order. The calls that can fail are numbered
    /// together from 1; those whose numbers are listed fail. It takes the room for all its lists at
    /// once, so no later call of it wants memory.
    ///
    /// # Errors
    ///
    /// [`OutOfMemory`] for want of memory alone.
    pub fn new(alloc: Global, lines: Vec<L>, failing: Vec<u64>) -> Result<MemGate<L>, OutOfMemory>
        ensures to_come { IfOk result (λ gate. gate.lists.to_come ≡ lines.items) }
        ensures returned { IfOk result (λ gate. gate.lists.returned ≡ []) }
        ensures dialed { IfOk result (λ gate. gate.lists.dialed ≡ []) }
        ensures out { IfOk result (λ gate. gate.lines_out ≡ 0) }
        ensures calls { IfOk result (λ gate. gate.calls ≡ no_calls failing.items) }
    {
        let returned = Vec::with_capacity(alloc, lines.len())?;
        let dialed = Vec::with_capacity(alloc, lines.len())?;
        Ok(MemGate {
            to_come: lines,
            returned,
            dialed,
            lines_out: 0,
            calls: Calls::new(failing),
        })
    }

    /// The lines given back, the first one first. Takes no memory.
    pub fn returned(&self) -> &[L]
        ensures returned { result.now ≡ self.now.lists.returned }
    {
        &self.returned
    }

    /// The next line, which is then out.
    fn next_line(&mut self) -> L
        requires { 0 < length self.old.lists.to_come }
        ensures line { Leaves self.old.lists self.new.lists result [] }
        ensures out { self.new.lines_out ≡ self.old.lines_out + 1 }
        ensures calls { self.new.calls ≡ self.old.calls }
    {
        self.lines_out += 1;
        self.to_come.remove(0)
    }
}

impl<L: Link + Drop> Gate for MemGate<L> {
    type Line = L;

    ghost told = { λ g. Some g.lists };

    ghost lines_out = { λ g. g.lines_out };

    ghost fault_count = { λ g. g.calls.faults };

    fn faults(&self) -> u64 {
        self.calls.faults()
    }

    /// The next line to come; None where no more come, and in no other case.
    ///
    /// # Errors
    ///
    /// [`Failed`] exactly where the number of this call is listed or above
    /// 18,446,744,073,709,551,615; the lists stay.
    fn admit(&mut self) -> Result<Option<L>, Failed>
        ensures admits { IfOk result (λ line. Admits self.old.lists self.new.lists line) }
        ensures stays { OnErr result (self.new.lists ≡ self.old.lists) }
        ensures out { self.new.lines_out ≡ out_after result self.old.lines_out }
        ensures fails { IsErr result ↔ IsToFail self.old.calls }
        ensures counted { self.new.calls ≡ tally_after (is_err result) self.old.calls }
        ensures cause { HasCause self.old.calls.faults self.new.calls.faults result }
    {
        self.calls.count()?;
        if self.to_come.is_empty() {
            return Ok(None);
        }
        Ok(Some(self.next_line()))
    }

    /// The next line to come, as a connection to this port.
    ///
    /// # Errors
    ///
    /// [`Failed`] exactly where no line is to come, or the number of this call is listed or above
    /// 18,446,744,073,709,551,615; the lists stay.
    fn dial(&mut self, port: u16) -> Result<L, Failed>
        ensures dials { IfOk result (λ line.
            Leaves self.old.lists self.new.lists line (port ∷ [])) }
        ensures stays { OnErr result (self.new.lists ≡ self.old.lists) }
        ensures out { self.new.lines_out ≡ out_dialed result self.old.lines_out }
        ensures fails { IsErr result ↔ (IsToFail self.old.calls ⊎ (self.old.lists.to_come ≡ [])) }
        ensures counted { self.new.calls ≡ tally_after (is_err result) self.old.calls }
        ensures cause { HasCause self.old.calls.faults self.new.calls.faults result }
    {
        if self.to_come.is_empty() {
            self.calls.count_fault();
            return Err(Failed);
        }
        self.calls.count()?;
        self.dialed.push_reserved(port);
        self.lines_out += 1;
        Ok(self.to_come.remove(0))
    }

    /// Takes back a line whose session has ended. Takes no memory.
    fn give_back(&mut self, line: L)
        requires { 0 < self.old.lines_out }
        ensures returned { self.new.lists ≡ after_return line self.old.lists }
        ensures out { self.new.lines_out + 1 ≡ self.old.lines_out }
        ensures calls { self.new.calls ≡ self.old.calls }
    {
        self.lines_out -= 1;
        self.returned.push_reserved(line);
    }
}
