//! What is done to a world, and what it answers.
ghost use Rattle.std.specs.Prelude.{true, ◌≡◌, IsTrue};
ghost use Rattle.tagged_codec.specs.Grammar.{IsInLimits};
ghost use Rattle.node_desk.specs.Lives.{plays_live};

use super::fixtures::{name, text};
use super::words::{Word, term_of};
use mech_rows::{Mech, Refusal, Role, RunHead, Slot, Texts};
use std::alloc::Global;
use std::process::Abort;
use tagged_codec::encode;
use term_values::{OutOfMemory, Term};
use text_hooks::Hook;
use world_run::World;

/// What is done to a world.
#[derive(Clone, Copy)]
pub(super) enum Act {
    /// The clock of this party is raised to this time.
    Clock(u32, u64),
    /// A run of this mechanism is opened in this role, for these parties as A and B.
    Open(Mech, Role, u32, u32),
    /// The same for parties 1 and 2, with the text of this byte in this slot.
    OpenWith(Mech, Role, Slot, u8),
    /// This run is given this term.
    Give(u32, Word),
    /// This run is given this message.
    PassOn(u32, u32),
    /// This run is dropped.
    Drop(u32),
}

/// What a world answers.
#[derive(Clone, Copy, Debug, PartialEq, Eq)]
pub(super) enum Answer {
    /// The time that the clock shows.
    Now(u64),
    /// The run's number, the message that it said, and whether it is done.
    Opened(u32, Option<u32>, bool),
    /// The pass that the run took, the message that it answered with, and whether it is done.
    Given(u8, Option<u32>, bool),
    Dropped,
}

/// Whether a run of the head can be opened.
fn is_built(head: &RunHead) -> bool
    ensures { IsTrue result → plays_live head.now ≡ true }
{
    match head.mech {
        Mech::E1 | Mech::E2 | Mech::E3 | Mech::E4 => true,
        Mech::C1 | Mech::C2 | Mech::C3 | Mech::C4 => true,
        _ => false,
    }
}

fn head_of(rt: &impl Abort, mech: Mech, role: Role, a: u32, b: u32) -> RunHead
    ensures plays { plays_live result ≡ true }
{
    let head = RunHead::new(mech, role, name(rt, a), name(rt, b), None).expect(rt, "a head");
    assert!(rt; is_built(&head));
    head
}

fn texts_of(rt: &impl Abort, alloc: Global, slot: Slot, byte: u8) -> Result<Texts, OutOfMemory> {
    let text = text(rt, alloc, &[byte])?;
    Ok(Texts::new(vec![in alloc; (slot, text)]?))
}

fn raise(rt: &impl Abort, world: &mut World, party: u32, ms: u64) -> Result<Answer, Refusal> {
    let now = world.clock(name(rt, party), ms)?;
    Ok(Answer::Now(now))
}

fn open(
    rt: &impl Abort,
    world: &mut World,
    head: &RunHead,
    texts: &Texts,
) -> Result<Answer, Refusal>
    requires plays { plays_live head.now ≡ true }
{
    assert!(rt; world.has_numbers());
    let opened = world.open(head, texts)?;
    Ok(Answer::Opened(opened.run, opened.sent, opened.done))
}

fn open_with(
    rt: &impl Abort,
    alloc: Global,
    world: &mut World,
    head: &RunHead,
    slot: Slot,
    byte: u8,
) -> Result<Answer, Refusal>
    requires plays { plays_live head.now ≡ true }
{
    let texts = texts_of(rt, alloc, slot, byte).expect(rt, "memory");
    open(rt, world, head, &texts)
}

/// That the term is within the limits of the codec.
fn is_spelled(rt: &impl Abort, alloc: Global, term: &Term)
    ensures limits { IsInLimits term.now }
{
    let _spelled = encode(alloc, term)
        .ok()
        .expect(rt, "a term within the limits");
}

fn give(
    rt: &impl Abort,
    alloc: Global,
    world: &mut World,
    hook: &Hook,
    run: u32,
    term: &Term,
) -> Result<Answer, Refusal> {
    is_spelled(rt, alloc, term);
    assert!(rt; world.has_numbers());
    let given = world.give(hook, run, term)?;
    Ok(Answer::Given(given.pass, given.sent, given.done))
}

fn give_word(
    rt: &impl Abort,
    alloc: Global,
    world: &mut World,
    hook: &Hook,
    run: u32,
    word: Word,
) -> Result<Answer, Refusal> {
    let term = term_of(rt, alloc, word).expect(rt, "memory");
    give(rt, alloc, world, hook, run, &term)
}

fn pass_on(
    rt: &impl Abort,
    alloc: Global,
    world: &mut World,
    hook: &Hook,
    run: u32,
    number: u32,
) -> Result<Answer, Refusal> {
    let message = world.message(number).expect(rt, "a message");
    let term = message.copy(alloc).expect(rt, "memory");
    give(rt, alloc, world, hook, run, &term)
}

fn drop_run(world: &mut World, run: u32) -> Result<Answer, Refusal> {
    world.drop(run)?;
    Ok(Answer::Dropped)
}

/// Does this to a world.
pub(super) fn answer_to(
    rt: &impl Abort,
    alloc: Global,
    world: &mut World,
    hook: &Hook,
    act: Act,
) -> Result<Answer, Refusal> {
    match act {
        Act::Clock(party, ms) => raise(rt, world, party, ms),
        Act::Open(mech, role, a, b) => {
            let head = head_of(rt, mech, role, a, b);
            open(rt, world, &head, &Texts::new(Vec::new(alloc)))
        }
        Act::OpenWith(mech, role, slot, byte) => {
            let head = head_of(rt, mech, role, 1, 2);
            open_with(rt, alloc, world, &head, slot, byte)
        }
        Act::Give(run, word) => give_word(rt, alloc, world, hook, run, word),
        Act::PassOn(run, number) => pass_on(rt, alloc, world, hook, run, number),
        Act::Drop(run) => drop_run(world, run),
    }
}
