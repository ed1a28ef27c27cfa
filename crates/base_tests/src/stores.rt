ghost use Rattle.std.specs.Prelude.{◌<◌};

use replay_store::{ListStore, Store, Verdict, WindowStore};
use std::process::Abort;
use std::test::Fail;
use term_values::{Name, OutOfMemory, Stamp, StampKind, Tag};

const TAG: Tag = Tag([1, 1, 1, 1]);

const OTHER_TAG: Tag = Tag([1, 1, 1, 2]);

fn accept<T: Store>(store: &mut T, sender: Name, stamp: Stamp) -> Result<(), OutOfMemory> {
    let kind = match stamp {
        Stamp::Time(_) => StampKind::Time,
        Stamp::Seq(_) => StampKind::Seq,
    };
    store.reserve(1)?;
    store.record(kind, sender, &TAG, &stamp);
    Ok(())
}

fn time<T: Store>(store: &T, clock: u64, sender: Name, at: u64) -> Verdict {
    store.probe(clock, StampKind::Time, sender, &TAG, &Stamp::Time(at))
}

fn number<T: Store>(store: &T, sender: Name, at: u64) -> Verdict {
    store.probe(0, StampKind::Seq, sender, &TAG, &Stamp::Seq(at))
}

fn names(rt: &impl Abort) -> (Name, Name) {
    let one = Name::new(1).expect(rt, "a name");
    let two = Name::new(2).expect(rt, "a name");
    (one, two)
}

fn fills_up<T: Store>(rt: &impl Abort, mut store: T) -> Result<(), Fail> {
    let (one, two) = names(rt);
    for at in 0..4096 {
        accept(&mut store, one, Stamp::Time(at))?;
    }
    let full = Verdict::StoreFull { count: 4096 };
    assert_eq!(rt; time(&store, 0, one, 4096), full);
    assert_eq!(rt; time(&store, 0, two, 4096), Verdict::Fit);
    let at = Stamp::Time(4096);
    let other = store.probe(0, StampKind::Time, one, &OTHER_TAG, &at);
    assert_eq!(rt; other, Verdict::Fit);
    store.reserve(1)?;
    store.restore(one, &TAG, &at);
    let full = Verdict::StoreFull { count: 4097 };
    assert_eq!(rt; time(&store, 0, one, 4097), full);
    assert_eq!(rt;
        time(&store, 5001, one, 4097),
        Verdict::StoreFull { count: 4096 }
    );
    assert_eq!(rt; time(&store.emptied(), 0, one, 4097), Verdict::Fit);
    Ok(())
}

fn judges<T: Store>(rt: &impl Abort, mut store: T) -> Result<(), Fail> {
    let (one, _) = names(rt);
    assert_eq!(rt; number(&store, one, 0), Verdict::Fit);
    accept(&mut store, one, Stamp::Seq(66))?;
    assert_eq!(rt; number(&store, one, 3), Verdict::Fit);
    accept(&mut store, one, Stamp::Seq(3))?;
    for (at, want) in [
        (2, Verdict::Late { at: 66 }),
        (3, Verdict::Repeated),
        (4, Verdict::Fit),
        (65, Verdict::Fit),
        (66, Verdict::Repeated),
        (67, Verdict::Fit),
    ] {
        assert_eq!(rt; number(&store, one, at), want, "at {at}");
    }
    assert_eq!(rt; store.tick(10_000), 10_000);
    accept(&mut store, one, Stamp::Time(10_000))?;
    for (clock, at, want) in [
        (0, 15_000, Verdict::Fit),
        (0, 15_001, Verdict::Early { at: 10_000 }),
        (0, 5_000, Verdict::Fit),
        (0, 4_999, Verdict::Late { at: 10_000 }),
        (15_000, 10_000, Verdict::Repeated),
        (15_001, 10_000, Verdict::Late { at: 15_001 }),
    ] {
        assert_eq!(rt; time(&store, clock, one, at), want, "at {at}, {clock}");
    }
    let wrong = store.probe(0, StampKind::Seq, one, &TAG, &Stamp::Time(10_000));
    assert_eq!(rt; wrong, Verdict::WrongStampKind);
    assert_eq!(rt; store.tick(9_000), 10_000);
    Ok(())
}

#[test]
fn fills_up_by_a_list(rt: HostRuntime) -> Result<(), Fail> {
    fills_up(&rt, ListStore::new(rt.alloc(), 5000))
}

#[test]
fn judges_by_a_list(rt: HostRuntime) -> Result<(), Fail> {
    judges(&rt, ListStore::new(rt.alloc(), 5000))
}

#[test]
fn fills_up_by_a_window(rt: HostRuntime) -> Result<(), Fail> {
    fills_up(&rt, WindowStore::new(rt.alloc(), 5000))
}

#[test]
fn judges_by_a_window(rt: HostRuntime) -> Result<(), Fail> {
    judges(&rt, WindowStore::new(rt.alloc(), 5000))
}

#[test]
fn forgets_what_is_not_live(rt: HostRuntime) -> Result<(), Fail> {
    let (one, _) = names(&rt);
    let mut store = WindowStore::new(rt.alloc(), 5000);
    store.tick(10);
    for at in 5..8 {
        accept(&mut store, one, Stamp::Time(at))?;
    }
    assert_eq!(rt; store.kept(), 3);
    store.tick(5006);
    assert_eq!(rt; store.kept(), 2);
    assert_eq!(rt; time(&store, 0, one, 5), Verdict::Late { at: 5006 });
    assert_eq!(rt; time(&store, 0, one, 6), Verdict::Repeated);
    accept(&mut store, one, Stamp::Seq(9))?;
    accept(&mut store, one, Stamp::Seq(8))?;
    assert_eq!(rt; store.kept(), 3);
    assert_eq!(rt; store.emptied().kept(), 0);
    Ok(())
}

/// What is sent at a step.
#[derive(Drop)]
struct Sent {
    sender: Name,
    tag: Tag,
    time: Stamp,
    number: Stamp,
}

fn sent_at(step: u64, one: Name, two: Name) -> Sent
    requires { step < 300 }
{
    Sent {
        sender: if step % 3 == 0 { one } else { two },
        tag: if step % 5 == 0 { TAG } else { OTHER_TAG },
        time: Stamp::Time(step * 10 + step * 37 % 101 * 10),
        number: Stamp::Seq(step / 2 + step * 29 % 97),
    }
}

/// What both stores say of the time and of the number.
fn judge_by_both(
    rt: &impl Abort,
    plain: &ListStore,
    window: &WindowStore,
    clock: u64,
    sent: &Sent,
) -> (Verdict, Verdict) {
    let (sender, tag) = (sent.sender, &sent.tag);
    let time = plain.probe(clock, StampKind::Time, sender, tag, &sent.time);
    let same = window.probe(clock, StampKind::Time, sender, tag, &sent.time);
    assert_eq!(rt; time, same, "the time at {clock}");
    let number = plain.probe(clock, StampKind::Seq, sender, tag, &sent.number);
    let same = window.probe(clock, StampKind::Seq, sender, tag, &sent.number);
    assert_eq!(rt; number, same, "the number at {clock}");
    (time, number)
}

fn keep<T: Store>(store: &mut T, said: (Verdict, Verdict), sent: &Sent) -> Result<(), OutOfMemory> {
    let (sender, tag) = (sent.sender, &sent.tag);
    store.reserve(1)?;
    if said.0 == Verdict::Fit {
        store.record(StampKind::Time, sender, tag, &sent.time);
    } else {
        store.restore(sender, tag, &sent.time);
    }
    store.reserve(1)?;
    if said.1 == Verdict::Fit {
        store.record(StampKind::Seq, sender, tag, &sent.number);
    } else {
        store.restore(sender, tag, &sent.number);
    }
    Ok(())
}

#[test]
fn both_stores_say_the_same(rt: HostRuntime) -> Result<(), Fail> {
    let (one, two) = names(&rt);
    let mut plain = ListStore::new(rt.alloc(), 500);
    let mut window = WindowStore::new(rt.alloc(), 500);
    let (mut early, mut late, mut repeated) = (false, false, false);
    for step in 0..300u64 {
        for back in [75, 15, 0] {
            let past = sent_at(step.saturating_sub(back), one, two);
            match judge_by_both(&rt, &plain, &window, step * 11, &past).0 {
                Verdict::Early { .. } => early = true,
                Verdict::Late { .. } => late = true,
                Verdict::Repeated => repeated = true,
                _ => {}
            }
        }
        let now = sent_at(step, one, two);
        let said = judge_by_both(&rt, &plain, &window, step * 11, &now);
        keep(&mut plain, said, &now)?;
        keep(&mut window, said, &now)?;
        assert_eq!(rt; plain.tick(step * 10), window.tick(step * 10));
    }
    assert!(rt; early && late && repeated);
    Ok(())
}
