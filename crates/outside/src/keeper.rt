ghost use Rattle.std.specs.Prelude.{◌≡◌, List, ℕ, Option, Err, IfOk, IfSome, OnErr};
ghost use Rattle.outside.specs.Keeping.{HasKeepCause, KeepAdds};
ghost use Rattle.outside.specs.declared.fault.KeepFault.TheVariants as fault;
ghost use Rattle.outside.specs.declared.mark.Mark.{Mark};

use crate::fault::KeepFault;
use crate::mark::Mark;

/// What keeps a party's marks over its restarts.
pub trait Keeper {
    /// The marks kept so far, the first one first, where they are told.
    ghost told: { Self → Option (List Mark) };

    /// How often the outside has failed.
    ghost fault_count: { Self → ℕ };

    /// How often the outside has failed. The count never falls; one that stands at
    /// 18,446,744,073,709,551,615 stands still.
    fn faults(&self) -> u64
        ensures count { result ≡ fault_count self.now };

    /// Adds all the marks, in their order.
    ///
    /// # Errors
    ///
    /// [`KeepFault::Failed`] only where the count of faults rose in this call, and then a front of
    /// the marks was added. [`KeepFault::Memory`] for want of memory, and then none was.
    fn append(&mut self, marks: &[Mark]) -> Result<(), KeepFault>
        ensures added { KeepAdds (told self.old) (told self.new) result marks.now }
        ensures cause { HasKeepCause (fault_count self.old) (fault_count self.new) result };

    /// All the marks kept, the first one first; they stay.
    ///
    /// # Errors
    ///
    /// [`KeepFault::Failed`] only where the count of faults rose in this call, and
    /// [`KeepFault::Memory`] for want of memory.
    fn marks(&mut self) -> Result<Vec<Mark>, KeepFault>
        ensures all { IfOk result (λ list. IfSome (told self.old) (λ kept. list.items ≡ kept)) }
        ensures stays { told self.new ≡ told self.old }
        ensures cause { HasKeepCause (fault_count self.old) (fault_count self.new) result };
}

/// A copy of these marks, in their order.
pub(crate) fn copy_of(marks: &Vec<Mark>) -> Result<Vec<Mark>, KeepFault>
    ensures all { IfOk result (λ list. list.items ≡ marks.now.items) }
    ensures memory { OnErr result (result ≡ Err fault.Memory) }
{
    let mut list = Vec::new(*marks.allocator());
    list.extend_from_slice(marks)?;
    Ok(list)
}
