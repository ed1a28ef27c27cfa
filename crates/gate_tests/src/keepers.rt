use outside::{KeepFault, Keeper, Mark, MemKeeper, SureKeeper};
use std::alloc::Global;
use std::test::Fail;
use term_values::{Name, Stamp, Tag};

/// The mark of this number, issued at 5 milliseconds.
fn issued(number: u64) -> Mark {
    Mark::Issued { now: 5, number }
}

/// A mark of a stamp that this name sent, accepted at 8 milliseconds.
fn accepted(sender: Name) -> Mark {
    Mark::Accepted {
        now: 8,
        sender,
        tag: Tag([1, 5, 4, 0]),
        stamp: Stamp::Time(7),
    }
}

/// The mark of an issued number, and that of an accepted stamp.
fn two_marks(alloc: Global) -> Result<Vec<Mark>, Fail> {
    let mut marks = vec![in alloc; issued(1)]?;
    if let Some(sender) = Name::new(2) {
        marks.push(accepted(sender))?;
    }
    Ok(marks)
}

/// Appends the marks and reads them back, through the bound.
fn append_and_read<K: Keeper>(keeper: &mut K, marks: &[Mark]) -> Result<Vec<Mark>, KeepFault> {
    keeper.append(marks)?;
    keeper.marks()
}

#[test]
fn a_listed_append_adds_nothing(rt: HostRuntime) -> Result<(), Fail> {
    let alloc = rt.alloc();
    let mut keeper = MemKeeper::new(alloc, vec![in alloc; 2]?);
    assert_eq!(rt; keeper.append(&[issued(1)]), Ok(()));
    assert_eq!(rt; keeper.append(&[issued(2)]), Err(KeepFault::Failed));
    assert_eq!(rt; keeper.kept(), [issued(1)].as_slice());
    assert_eq!(rt; keeper.faults(), 1);
    let marks = append_and_read(&mut keeper, &[issued(3)])?;
    assert_eq!(rt; marks.as_slice(), [issued(1), issued(3)].as_slice());
    assert_eq!(rt; keeper.faults(), 1);
    Ok(())
}

#[test]
fn reading_marks_has_no_number(rt: HostRuntime) -> Result<(), Fail> {
    let alloc = rt.alloc();
    let marks = two_marks(alloc)?;
    let mut keeper = MemKeeper::new(alloc, vec![in alloc; 1]?);
    assert_eq!(rt; keeper.marks()?.len(), 0);
    assert_eq!(rt; keeper.append(&marks), Err(KeepFault::Failed));
    assert_eq!(rt; append_and_read(&mut keeper, &marks)?, marks);
    Ok(())
}

#[test]
fn the_next_append_fails_once(rt: HostRuntime) -> Result<(), Fail> {
    let alloc = rt.alloc();
    let mut keeper = MemKeeper::new(alloc, Vec::new(alloc));
    keeper.append(&[issued(1)])?;
    keeper.fail_next()?;
    keeper.fail_next()?;
    assert_eq!(rt; keeper.faults(), 0);
    assert_eq!(rt; keeper.append(&[issued(2)]), Err(KeepFault::Failed));
    assert_eq!(rt; keeper.append(&[issued(3)]), Ok(()));
    assert_eq!(rt; keeper.kept(), [issued(1), issued(3)].as_slice());
    keeper.fail_next()?;
    assert_eq!(rt; keeper.append(&[issued(4)]), Err(KeepFault::Failed));
    assert_eq!(rt; keeper.faults(), 2);
    Ok(())
}

#[test]
fn a_sure_keeper_keeps_all(rt: HostRuntime) -> Result<(), Fail> {
    let alloc = rt.alloc();
    let marks = two_marks(alloc)?;
    let mut keeper = SureKeeper::new(alloc);
    assert_eq!(rt; append_and_read(&mut keeper, &marks)?, marks);
    assert_eq!(rt; keeper.append(&[]), Ok(()));
    assert_eq!(rt; keeper.kept(), marks.as_slice());
    assert_eq!(rt; keeper.faults(), 0);
    Ok(())
}
