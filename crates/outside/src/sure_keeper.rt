ghost use Rattle.std.specs.Prelude.{◌≡◌, ◌++◌, [], Some, Err, IfOk, OnOk, OnErr};
ghost use Rattle.outside.specs.declared.fault.KeepFault.TheVariants as fault;

use crate::fault::KeepFault;
use crate::keeper::{Keeper, copy_of};
use crate::mark::Mark;
use std::alloc::Global;
use std::marker::Model;

/// A keeper in memory that never fails. Contracts see its marks.
#[derive(Debug, Drop)]
pub struct SureKeeper {
    kept: Vec<Mark>,
}

impl Model for SureKeeper {
    ghost use Rattle.std.specs.Prelude.{List};
    ghost use Rattle.outside.specs.declared.mark.Mark.{Mark};

    ghost Value = { List Mark };

    ghost view = { λ k. k.kept.items };
}

impl SureKeeper {
    /// A keeper without marks. Takes no memory.
    pub fn new(alloc: Global) -> SureKeeper
        ensures marks { result ≡ [] }
    {
        SureKeeper {
            kept: Vec::new(alloc),
        }
    }

    /// The marks kept, the first one first. Takes no memory.
    pub fn kept(&self) -> &[Mark]
        ensures kept { result.now ≡ self.now }
    {
        &self.kept
    }
}

impl Keeper for SureKeeper {
    ghost told = { λ k. Some k };

    ghost fault_count = { λ _. 0 };

    fn faults(&self) -> u64 {
        0
    }

    /// Adds all the marks, in their order.
    ///
    /// # Errors
    ///
    /// [`KeepFault::Memory`] for want of memory alone, and then no mark was added.
    fn append(&mut self, marks: &[Mark]) -> Result<(), KeepFault>
        ensures added { OnOk result (self.new ≡ self.old ++ marks.now) }
        ensures stays { OnErr result (self.new ≡ self.old) }
        ensures memory { OnErr result (result ≡ Err fault.Memory) }
    {
        self.kept.extend_from_slice(marks)?;
        Ok(())
    }

    /// All the marks kept, the first one first; nothing changes.
    ///
    /// # Errors
    ///
    /// [`KeepFault::Memory`] for want of memory alone.
    fn marks(&mut self) -> Result<Vec<Mark>, KeepFault>
        ensures all { IfOk result (λ list. list.items ≡ self.old) }
        ensures stays { self.new ≡ self.old }
        ensures memory { OnErr result (result ≡ Err fault.Memory) }
    {
        copy_of(&self.kept)
    }
}
