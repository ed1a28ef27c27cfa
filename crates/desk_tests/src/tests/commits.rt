//! Steps are made apart from their commits: a step of an older state is stale, and a step may not suit another desk.
ghost use Rattle.std.specs.Prelude.{◌≡◌, []};
ghost use Rattle.text_hooks.specs.Rules.{allowed};

use super::*;
use mech_rows::Step;
use node_desk::{Live, make_first, make_step};

/// What a step's commit answers, which is what it is judged to be.
fn committed(
    rt: &impl Abort,
    desk: &mut Desk<WindowStore>,
    run: u32,
    step: Step<Live>,
    clock: u64,
) -> Result<(), Refusal> {
    assert!(rt; desk.ready().is_ok());
    assert!(rt; desk.suits(&step));
    let judged = desk.judge(run, &step, clock);
    let answer = desk.commit(run, step, clock);
    assert!(rt; answer == judged);
    answer
}

/// Two steps that a run would take at the same bytes.
fn made_twice(
    alloc: Global,
    desk: &mut Desk<WindowStore>,
    run: u32,
    bytes: &[u8],
) -> Result<(Step<Live>, Step<Live>), Refusal> {
    let judgement: Judgement = Box::new(
        alloc,
        |mech: Mech, slot: Slot, text: &[u8]|
            ensures { result ≡ allowed [] mech slot text.now }
        { judge_by(&[], mech, slot, text) },
    )?;
    let hook = Hook::new(Vec::new(alloc), judgement);
    let step = made(alloc, desk, &hook, run, bytes);
    let older = made(alloc, desk, &hook, run, bytes);
    both(step, older)
}

/// The step that a run would take at these bytes.
fn made(
    alloc: Global,
    desk: &mut Desk<WindowStore>,
    hook: &Hook,
    run: u32,
    bytes: &[u8],
) -> Result<Step<Live>, Refusal> {
    let sealer = Symbolic::new();
    let mut draws = Counted::new();
    make_step(alloc, desk, &sealer, hook, &mut draws, run, bytes, 6)
}

/// Both values.
fn both<V: Drop>(one: Result<V, Refusal>, other: Result<V, Refusal>) -> Result<(V, V), Refusal> {
    match (one, other) {
        (Ok(one), Ok(other)) => Ok((one, other)),
        (Err(refusal), _) => Err(refusal),
        (_, Err(refusal)) => Err(refusal),
    }
}

/// Two steps of one state: the first is committed, and the other is stale.
fn stales(
    rt: &impl Abort,
    desk: &mut Desk<WindowStore>,
    run: u32,
    step: Step<Live>,
    older: Step<Live>,
) {
    assert!(rt; committed(rt, desk, run, step, 6).is_ok());
    assert_eq!(rt; desk.log().list().len(), 2);
    let stale = Refusal::Moved { made: 0, held: 2 };
    is_refused(rt, committed(rt, desk, run, older, 6).err(), stale);
    assert_eq!(rt; desk.log().list().len(), 2);
}

/// That the answer is this refusal.
fn is_refused(rt: &impl Abort, answer: Option<Refusal>, refusal: Refusal) {
    assert!(rt;
        answer == Some(refusal),
        "{answer:?} in place of {refusal:?}"
    );
}

/// Party 1 commits the one of two steps that answer the first message of party 2.
fn commits_one(
    rt: &impl Abort,
    alloc: Global,
    one: &mut Desk<WindowStore>,
    first: &[u8],
) -> Result<(), Fail> {
    let opened = opens(rt, alloc, one, Mech::C4, Role::A, 1, 2);
    assert_eq!(rt; opened, Ok(Answer::Run(1)));
    let (step, older) = made_twice(alloc, one, 1, first)?;
    stales(rt, one, 1, step, older);
    Ok(())
}

/// Party 2 says the first message of a run of C4.
fn begins(rt: &impl Abort, alloc: Global, said: &mut Vec<Vec<u8>>) -> Result<(), OutOfMemory> {
    let mut two = desk_of(rt, alloc, PARTY_2)?;
    let opened = opens(rt, alloc, &mut two, Mech::C4, Role::B, 1, 2);
    assert_eq!(rt; opened, Ok(Answer::Run(1)));
    let first = says(rt, alloc, &mut two, said, &mut Counted::new(), 1, 1);
    assert_eq!(rt; first, Ok(Answer::Said));
    Ok(())
}

#[test]
fn a_step_of_an_older_state_is_stale(rt: HostRuntime) -> Result<(), Fail> {
    let alloc = rt.alloc();
    let mut said = Vec::new(alloc);
    begins(&rt, alloc, &mut said)?;
    let mut one = desk_of(&rt, alloc, PARTY_1)?;
    let first = bytes_of(&rt, &said, Word::Message(0));
    commits_one(&rt, alloc, &mut one, first)
}

/// The first step of a desk's first run.
fn first_step(
    rt: &impl Abort,
    alloc: Global,
    desk: &mut Desk<WindowStore>,
    mech: Mech,
    role: Role,
) -> Result<Step<Live>, Refusal> {
    let opened = opens(rt, alloc, desk, mech, role, 1, 2);
    assert_eq!(rt; opened, Ok(Answer::Run(1)));
    make_first(alloc, desk, &Symbolic::new(), &mut Counted::new(), 1, 5)
}

/// A first step suits the desk that made it, and each of the others or none.
fn suits_its_maker(
    rt: &impl Abort,
    alloc: Global,
    desk: &mut Desk<WindowStore>,
    others: &[Desk<WindowStore>],
    mech: Mech,
    role: Role,
    each: bool,
) -> Result<(), Fail> {
    let step = first_step(rt, alloc, desk, mech, role)?;
    assert!(rt; desk.suits(&step));
    for other in others {
        assert!(rt; other.suits(&step) == each);
    }
    assert!(rt; committed(rt, desk, 1, step, 5).is_ok());
    Ok(())
}

/// A first step of a party suits its desk, and each of the desks of others or none.
fn first_step_suits(
    rt: &impl Abort,
    alloc: Global,
    party: Party,
    others: &[Party],
    mech: Mech,
    role: Role,
    each: bool,
) -> Result<(), Fail> {
    let others = desks_of(rt, alloc, others)?;
    let mut desk = desk_of(rt, alloc, party)?;
    suits_its_maker(rt, alloc, &mut desk, &others, mech, role, each)
}

#[test]
fn a_step_suits_the_desk_that_made_it(rt: HostRuntime) -> Result<(), Fail> {
    let others = [PARTY_1, ALIEN_1, STRANGER_1];
    first_step_suits(&rt, rt.alloc(), PARTY_1, &others, Mech::E1, Role::A, false)
}

#[test]
fn a_step_under_no_key_suits_another_desk(rt: HostRuntime) -> Result<(), Fail> {
    first_step_suits(
        &rt,
        rt.alloc(),
        PARTY_2,
        &[ALIEN_1],
        Mech::E2,
        Role::B,
        true,
    )
}
