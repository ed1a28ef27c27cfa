//! Tables of acts and answers, which are played row by row.
ghost use Rattle.std.specs.Prelude.{◌≡◌, ◌∷◌, [], IfOk};
ghost use Rattle.text_hooks.specs.Rules.{allowed};

use super::acts::{Act, Answer, answer_to};
use super::fixtures::{PairRow, PartyRow, begun, text};
use mech_rows::{Mech, Refusal, Slot};
use std::alloc::Global;
use std::process::Abort;
use term_values::OutOfMemory;
use text_hooks::{Hook, Judgement, Rule, judge_by};
use world_run::World;

/// What is done to a world, and what it answers.
pub(super) type Row = (Act, Result<Answer, Refusal>);

/// That a row's answer is the one that is wanted.
fn is_answered(
    rt: &impl Abort,
    place: usize,
    answer: Result<Answer, Refusal>,
    wanted: Result<Answer, Refusal>,
) {
    assert!(rt;
        answer == wanted,
        "row {place}: {answer:?} in place of {wanted:?}"
    );
}

/// Does to a world what the rows say, one after the other, and compares each answer.
fn play_under(rt: &impl Abort, alloc: Global, world: &mut World, hook: &Hook, rows: &[Row]) {
    for (place, (act, wanted)) in rows.iter().enumerate() {
        let answer = answer_to(rt, alloc, world, hook, *act);
        is_answered(rt, place, answer, *wanted);
    }
}

/// Plays the rows under a hook that lets every text through.
pub(super) fn play(
    rt: &impl Abort,
    alloc: Global,
    world: &mut World,
    rows: &[Row],
) -> Result<(), OutOfMemory> {
    let judgement: Judgement = Box::new(
        alloc,
        |mech: Mech, slot: Slot, text: &[u8]|
            ensures { result ≡ allowed [] mech slot text.now }
        { judge_by(&[], mech, slot, text) },
    )?;
    let hook = Hook::new(Vec::new(alloc), judgement);
    play_under(rt, alloc, world, &hook, rows);
    Ok(())
}

/// The rule that the text in X1 of E1 begins with h.
fn rule(rt: &impl Abort, alloc: Global) -> Result<Rule, OutOfMemory> {
    Ok(Rule {
        mech: Mech::E1,
        slot: Slot::X1,
        longest: 9,
        prefix: text(rt, alloc, b"h")?,
    })
}

/// A list of an equal rule.
fn copied(alloc: Global, rule: &Rule) -> Result<Vec<Rule>, OutOfMemory>
    ensures alone { IfOk result (λ rules. rules.items ≡ rule.now ∷ []) }
{
    let rule = rule.copy(alloc)?;
    Ok(vec![in alloc; rule]?)
}

/// Plays the rows under a hook of these rules, which are there twice.
fn play_by(
    rt: &impl Abort,
    alloc: Global,
    world: &mut World,
    rules: Vec<Rule>,
    same: Vec<Rule>,
    rows: &[Row],
) -> Result<(), OutOfMemory>
    requires equal { rules.items ≡ same.items }
{
    let judgement: Judgement = Box::new(
        alloc,
        move |mech: Mech, slot: Slot, text: &[u8]|
            ensures { result ≡ allowed same.items mech slot text.now }
        { judge_by(&same, mech, slot, text) },
    )?;
    let hook = Hook::new(rules, judgement);
    play_under(rt, alloc, world, &hook, rows);
    Ok(())
}

/// Plays the rows under a hook that lets no text through in X1 of E1 but those that begin with h.
pub(super) fn play_strictly(
    rt: &impl Abort,
    alloc: Global,
    world: &mut World,
    rows: &[Row],
) -> Result<(), OutOfMemory> {
    let rule = rule(rt, alloc)?;
    let same = copied(alloc, &rule)?;
    let rules = copied(alloc, &rule)?;
    play_by(rt, alloc, world, rules, same, rows)
}

/// Plays the rows in a new world of these parties and pairs, under a hook that lets every text through.
pub(super) fn played(
    rt: &impl Abort,
    alloc: Global,
    parties: &[PartyRow],
    pairs: &[PairRow],
    rows: &[Row],
) -> World {
    let mut world = begun(rt, alloc, parties, pairs);
    play(rt, alloc, &mut world, rows).expect(rt, "memory");
    world
}
