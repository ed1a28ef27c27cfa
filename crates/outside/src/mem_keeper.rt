ghost use Rattle.std.specs.Prelude.{◌≡◌, ◌↔◌, ◌++◌, [], Some, Err, IfOk, OnOk, OnErr};
ghost use Rattle.outside.specs.Keeping.{HasKeepCause, ListsNext, keeper_failed};
ghost use Rattle.outside.specs.Tally.{IsToFail, no_calls, tally_after};
ghost use Rattle.outside.specs.declared.fault.KeepFault.TheVariants as fault;

use crate::calls::Calls;
use crate::fault::KeepFault;
use crate::keeper::{Keeper, copy_of};
use crate::mark::Mark;
use std::alloc::Global;
use std::marker::Model;
use term_values::OutOfMemory;

/// A keeper in memory, some of whose appends fail. Contracts see its marks and its appends.
#[derive(Debug, Drop)]
pub struct MemKeeper {
    kept: Vec<Mark>,
    calls: Calls,
}

impl Model for MemKeeper {
    ghost use Rattle.outside.specs.Keeping.{KeeperParts};

    ghost Value = { KeeperParts };

    ghost view = { λ k. record { marks = k.kept.items; calls = k.calls } };
}

impl MemKeeper {
    /// A keeper without marks. The appends are numbered from 1; those whose numbers are listed
    /// fail. Takes no memory.
    pub fn new(alloc: Global, failing: Vec<u64>) -> MemKeeper
        ensures marks { result.marks ≡ [] }
        ensures calls { result.calls ≡ no_calls failing.items }
    {
        MemKeeper {
            kept: Vec::new(alloc),
            calls: Calls::new(failing),
        }
    }

    /// The marks kept, the first one first. Takes no memory.
    pub fn kept(&self) -> &[Mark]
        ensures kept { result.now ≡ self.now.marks }
    {
        &self.kept
    }

    /// Lists the number of the next append, which then fails, where it isn't listed and is at most
    /// 18,446,744,073,709,551,615. Said again before an append it changes nothing.
    ///
    /// # Errors
    ///
    /// [`OutOfMemory`] for want of memory alone, and then nothing changed.
    pub fn fail_next(&mut self) -> Result<(), OutOfMemory>
        ensures fails { OnOk result (IsToFail self.new.calls) }
        ensures listed { OnOk result (ListsNext self.old.calls self.new.calls) }
        ensures marks { self.new.marks ≡ self.old.marks }
        ensures stays { OnErr result (self.new ≡ self.old) }
    {
        self.calls.list_next()
    }
}

impl Keeper for MemKeeper {
    ghost told = { λ k. Some k.marks };

    ghost fault_count = { λ k. k.calls.faults };

    fn faults(&self) -> u64 {
        self.calls.faults()
    }

    /// Adds all the marks, in their order. Each call counts, also one that ends for want of memory.
    ///
    /// # Errors
    ///
    /// [`KeepFault::Failed`] exactly where the number of this append is listed or above
    /// 18,446,744,073,709,551,615, and [`KeepFault::Memory`] for want of memory. After either no
    /// mark was added.
    fn append(&mut self, marks: &[Mark]) -> Result<(), KeepFault>
        ensures added { OnOk result (self.new.marks ≡ self.old.marks ++ marks.now) }
        ensures stays { OnErr result (self.new.marks ≡ self.old.marks) }
        ensures fails { (result ≡ Err fault.Failed) ↔ IsToFail self.old.calls }
        ensures counted { self.new.calls ≡ tally_after (keeper_failed result) self.old.calls }
        ensures cause { HasKeepCause self.old.calls.faults self.new.calls.faults result }
    {
        self.calls.count()?;
        self.kept.extend_from_slice(marks)?;
        Ok(())
    }

    /// All the marks kept, the first one first; nothing changes. Never fails.
    ///
    /// # Errors
    ///
    /// [`KeepFault::Memory`] for want of memory alone.
    fn marks(&mut self) -> Result<Vec<Mark>, KeepFault>
        ensures all { IfOk result (λ list. list.items ≡ self.old.marks) }
        ensures stays { self.new ≡ self.old }
        ensures memory { OnErr result (result ≡ Err fault.Memory) }
    {
        copy_of(&self.kept)
    }
}
