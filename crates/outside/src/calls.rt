ghost use Rattle.std.specs.Prelude.{◌≡◌, ◌≤◌, ◌↔◌, IsErr, OnOk, OnErr, is_err, true};
ghost use Rattle.outside.specs.Causes.{HasCause, Rose};
ghost use Rattle.outside.specs.Keeping.{ListsNext};
ghost use Rattle.outside.specs.Tally.{IsToFail, no_calls, tally_after};

use crate::fault::Failed;
use std::marker::Model;
use term_values::OutOfMemory;

/// The calls of one object, numbered from 1, some of which are to fail.
#[derive(Debug, Drop)]
pub(crate) struct Calls {
    done: u64,
    failing: Vec<u64>,
    faults: u64,
}

impl Model for Calls {
    ghost use Rattle.outside.specs.Causes.{HasCause};
    ghost use Rattle.outside.specs.Tally.{Tally};

    ghost Value = { Tally };

    ghost view = { λ c. record { done = c.done; failing = c.failing.items; faults = c.faults } };
}

impl Calls {
    pub(crate) fn new(failing: Vec<u64>) -> Calls
        ensures none { result ≡ no_calls failing.items }
    {
        Calls {
            done: 0,
            failing,
            faults: 0,
        }
    }

    pub(crate) fn faults(&self) -> u64
        ensures faults { result ≡ self.now.faults }
    {
        self.faults
    }

    /// Counts a call, which fails where its number is to fail.
    pub(crate) fn count(&mut self) -> Result<(), Failed>
        ensures fails { IsErr result ↔ IsToFail self.old }
        ensures counted { self.new ≡ tally_after (is_err result) self.old }
        ensures cause { HasCause self.old.faults self.new.faults result }
    {
        let is_last = self.done == u64::MAX;
        self.done = self.done.saturating_add(1);
        if is_last || self.failing.contains(&self.done) {
            self.faults = self.faults.saturating_add(1);
            return Err(Failed);
        }
        Ok(())
    }

    /// Counts a call that fails whatever its number.
    pub(crate) fn count_fault(&mut self)
        ensures counted { self.new ≡ tally_after true self.old }
        ensures cause { Rose self.old.faults self.new.faults }
        ensures later { self.old.faults ≤ self.new.faults }
    {
        self.done = self.done.saturating_add(1);
        self.faults = self.faults.saturating_add(1);
    }

    /// Lists the number of the next call, where it has one and that isn't listed.
    pub(crate) fn list_next(&mut self) -> Result<(), OutOfMemory>
        ensures fails { OnOk result (IsToFail self.new) }
        ensures listed { OnOk result (ListsNext self.old self.new) }
        ensures stays { OnErr result (self.new ≡ self.old) }
    {
        if self.done == u64::MAX {
            return Ok(());
        }
        let next = self.done + 1;
        if !self.failing.contains(&next) {
            self.failing.push(next)?;
        }
        Ok(())
    }
}
