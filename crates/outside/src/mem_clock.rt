ghost use Rattle.std.specs.Prelude.{◌≡◌, ◌<◌, ◌+◌, ◌↔◌, ◌++◌, ◌∷◌, [], Some, IsErr, IfOk, OnErr};
ghost use Rattle.std.specs.Prelude.{is_err, length};
ghost use Rattle.outside.specs.Causes.{HasCause};
ghost use Rattle.outside.specs.Memory.{answer_at, answers_of};
ghost use Rattle.outside.specs.Tally.{IsToFail, no_calls, tally_after};

use crate::calls::Calls;
use crate::clock::Clock;
use crate::fault::Failed;
use std::marker::Model;

/// A clock in memory that gives these answers, the last of them again and again, and some of whose calls fail. Contracts
/// see the answers that it was made with, how many it gave, and the calls.
#[derive(Debug, Drop)]
pub struct MemClock {
    script: Vec<u64>,
    given: u64,
    calls: Calls,
}

impl Model for MemClock {
    ghost use Rattle.std.specs.Prelude.{◌<◌, ◌≤◌, length};
    ghost use Rattle.outside.specs.Memory.{ClockParts};

    ghost Value = { ClockParts };

    ghost view = { λ c. record { script = c.script.items; given = c.given; calls = c.calls } };

    ghost invariant = { λ c. (0 < length c.script.items) × (c.given ≤ c.calls.done) };
}

impl MemClock {
    /// A clock of these answers, of which there is one at least. The calls are numbered from 1; those whose numbers are
    /// listed fail. Takes no memory.
    pub fn new(answers: Vec<u64>, failing: Vec<u64>) -> MemClock
        requires { 0 < length answers.items }
        ensures script { result.script ≡ answers.items }
        ensures given { result.given ≡ 0 }
        ensures calls { result.calls ≡ no_calls failing.items }
    {
        MemClock {
            script: answers,
            given: 0,
            calls: Calls::new(failing),
        }
    }
}

/// Answer k of a clock with these answers.
fn answer(script: &[u64], k: u64) -> u64
    requires { 0 < length script.now }
    ensures { result ≡ answer_at script.now k }
{
    let last = script.len() - 1;
    if k < last as u64 {
        return script[k as usize];
    }
    script[last]
}

impl Clock for MemClock {
    ghost answers = { λ c. Some (answers_of c.script c.given) };

    ghost fault_count = { λ c. c.calls.faults };

    fn faults(&self) -> u64 {
        self.calls.faults()
    }

    /// The next answer, or the last one again.
    ///
    /// # Errors
    ///
    /// [`Failed`] exactly where the number of this call is listed or above
    /// 18,446,744,073,709,551,615; the list of answers stays.
    fn now_ms(&mut self) -> Result<u64, Failed>
        ensures told { IfOk result (λ ms. (ms ≡ answer_at self.old.script self.old.given)
            × (self.new.given ≡ self.old.given + 1)) }
        ensures grows { IfOk result (λ ms. answers_of self.new.script self.new.given
            ≡ answers_of self.old.script self.old.given ++ ms ∷ []) }
        ensures stays { OnErr result (self.new.given ≡ self.old.given) }
        ensures script { self.new.script ≡ self.old.script }
        ensures fails { IsErr result ↔ IsToFail self.old.calls }
        ensures counted { self.new.calls ≡ tally_after (is_err result) self.old.calls }
        ensures cause { HasCause self.old.calls.faults self.new.calls.faults result }
    {
        self.calls.count()?;
        let at = self.given;
        self.given += 1;
        Ok(answer(&self.script, at))
    }
}
