//! The third party as the tables say: what it refuses and takes, and what it gives to A and B.
ghost use Rattle.std.specs.Prelude.{◌≡◌, true, Some, IfOk, OnOk, is_some};
ghost use Rattle.mech_rows.specs.Openings.{has_parts};
ghost use Rattle.mech_rows.specs.Replies.{needs_stamp};
ghost use Rattle.mech_rows.specs.Rings.{part_by};
ghost use Rattle.mech_rows.specs.Rows.{has_third};
ghost use Rattle.mech_rows.specs.declared.kinds.Role.TheVariants.{P};
ghost use Rattle.text_hooks.specs.Rules.{allowed};
ghost use Rattle.third_party.specs.PStates.{plays_p, state_of};

mod spellings;
mod tables;

use self::spellings::spelled;
use self::tables::Service;
use mech_rows::{Mech, Peer, Refusal, Ring, Role, RunHead, Slot, Step, Texts, key_of};
use outside::{Draws, MemDraws};
use seal_symbolic::Symbolic;
use std::alloc::Global;
use std::process::Abort;
use std::test::Fail;
use tagged_codec::encode;
use term_values::{Name, Part, Stamp, StampKind, Text};
use text_hooks::{Hook, Judgement, RoleState, Rule, compose, judge_by, prepare};
use third_party::PState;

fn name(number: u32) -> Result<Name, Fail>
    ensures number { IfOk result (λ n. n ≡ number) }
{
    Ok(Name::new(number).ok_or("no name")?)
}

fn peer(number: u32, byte: u8) -> Result<Peer, Fail>
    ensures number { IfOk result (λ p. p.name ≡ number) }
    ensures shared { IfOk result (λ p. is_some p.part ≡ true) }
{
    Ok(Peer {
        name: name(number)?,
        server: false,
        part: Some(Part([byte; 32])),
    })
}

/// The ring of the third party 9, which shares a part with 1 and another one with 2.
fn ring_of(alloc: Global, kind: StampKind) -> Result<Ring, Fail>
    ensures me { IfOk result (λ r. r.me ≡ 9) }
    ensures one { IfOk result (λ r. is_some (part_by r.peers 1) ≡ true) }
    ensures two { IfOk result (λ r. is_some (part_by r.peers 2) ≡ true) }
{
    let one = peer(1, 0xaa)?;
    let two = peer(2, 0xbb)?;
    Ok(Ring {
        me: name(9)?,
        server: true,
        kind,
        window: 5000,
        peers: vec![in alloc; one, two]?,
    })
}

fn text(alloc: Global, bytes: &[u8]) -> Result<Text, Fail> {
    Ok(Text::new(bytes.to_vec(alloc)?)?)
}

/// All texts, whoever sends them.
fn texts(alloc: Global) -> Result<Texts, Fail> {
    let one = text(alloc, b"1")?;
    let two = text(alloc, b"2")?;
    let three = text(alloc, b"3")?;
    let four = text(alloc, b"4")?;
    let five = text(alloc, b"5")?;
    Ok(Texts::new(vec![in alloc;
        (Slot::X1, one),
        (Slot::X2, two),
        (Slot::X3, three),
        (Slot::X4, four),
        (Slot::X5, five),
    ]?))
}

/// The rule that allows texts with this prefix alone, of at most one byte.
fn rule(alloc: Global, mech: Mech, slot: Slot, prefix: &[u8]) -> Result<Rule, Fail> {
    let prefix = text(alloc, prefix)?;
    Ok(Rule {
        mech,
        slot,
        longest: 1,
        prefix,
    })
}

/// Adds the rule that allows texts with this prefix alone, of at most one byte.
fn add_rule(
    alloc: Global,
    mech: Mech,
    slot: Slot,
    prefix: &[u8],
    rules: &mut Vec<Rule>,
    same: &mut Vec<Rule>,
) -> Result<(), Fail>
    requires equal { rules.old.items ≡ same.old.items }
    ensures equal { OnOk result (rules.new.items ≡ same.new.items) }
{
    let added = rule(alloc, mech, slot, prefix)?;
    same.push(added.copy(alloc)?)?;
    rules.push(added)?;
    Ok(())
}

/// The third party's run of the mechanism, between 1 and 2.
fn begun(alloc: Global, mech: Mech, texts: &Texts) -> Result<PState, Fail>
    requires plays { plays_p (record { mech = mech; role = P; a = 1; b = 2; p = Some 9 }) ≡ true }
    ensures head { IfOk result (λ s. (state_of s).head
        ≡ record { mech = mech; role = P; a = 1; b = 2; p = Some 9 }) }
{
    let p = Some(name(9)?);
    let head = RunHead::new(mech, Role::P, name(1)?, name(2)?, p).ok_or("no head")?;
    Ok(PState::begin(alloc, &head, texts)?)
}

/// The stamp, where a state needs one.
fn stamp_for(state: &PState, stamp: Stamp) -> Option<Stamp>
    ensures needed { is_some result ≡ needs_stamp (state_of state.now) }
{
    if !state.stamps_now() {
        return None;
    }
    Some(stamp)
}

/// The step that answers these bytes, with this stamp where one is needed.
fn answered<D: Draws>(
    alloc: Global,
    hook: &Hook,
    draws: &mut D,
    ring: &Ring,
    state: &PState,
    given: (&[u8], Stamp),
) -> Result<Step<PState>, Refusal>
    requires parts { has_parts ring.now (state_of state.now).head ≡ true }
    ensures head { IfOk result (λ s. s.after.head ≡ (state_of state.now).head) }
{
    let sealer = Symbolic::new();
    if !state.receives() {
        return Err(Refusal::EndedRun);
    }
    let prepared = prepare(state, alloc, &sealer, ring, hook, given.0)?;
    let stamp = stamp_for(&prepared.after, given.1);
    compose(prepared, alloc, &sealer, ring, draws, stamp)
}

/// That a message was taken, with so many items opened and stamps to judge.
fn taken(alloc: Global, many: usize) -> Result<String, Fail> {
    if many > 0 {
        return Ok(format!(in alloc; "taken with {many}")?);
    }
    Ok(format!(in alloc; "taken")?)
}

/// What a state answers to these bytes, in words.
fn answer_to(
    alloc: Global,
    hook: &Hook,
    ring: &Ring,
    state: &PState,
    bytes: &[u8],
) -> Result<String, Fail>
    requires parts { has_parts ring.now (state_of state.now).head ≡ true }
{
    if !state.receives() {
        return Err("it takes no message".into());
    }
    match prepare(state, alloc, &Symbolic::new(), ring, hook, bytes) {
        Ok(prepared) => taken(alloc, prepared.opened.len() + prepared.got.len()),
        Err(refusal) => Ok(format!(in alloc; "{refusal:?}")?),
    }
}

/// The request that is taken at last, after a state has answered all that stands in the table as it
/// says.
fn right_one(
    rt: &impl Abort,
    alloc: Global,
    hook: &Hook,
    ring: &Ring,
    state: &PState,
    table: &str,
) -> Result<Vec<u8>, Fail>
    requires parts { has_parts ring.now (state_of state.now).head ≡ true }
{
    let mut last = Vec::new(alloc);
    for line in table.lines() {
        if line.is_empty() {
            continue;
        }
        let (words, want) = line.split_once("| ").ok_or("a line without an answer")?;
        last = spelled(alloc, words)?;
        let answer = answer_to(alloc, hook, ring, state, &last)?;
        assert!(rt; answer.as_str() == want, "{answer} to {line}");
    }
    Ok(last)
}

/// The end of a run: it is done and has noted as many values as the table says, it has no session
/// key, and it is the same as its copy.
fn ends(rt: &impl Abort, alloc: Global, state: &PState, table: &Service) -> Result<(), Fail> {
    assert!(rt; state.is_done());
    assert!(rt; !state.sends() && !state.receives() && !state.needs_stamp());
    let notes = state.notes(alloc)?;
    assert_eq!(rt; notes.list().len(), table.notes);
    assert!(rt; key_of(&state.head(), &notes).is_none());
    assert!(rt; state.copy(alloc)?.same(state));
    Ok(())
}

/// The draws after some nonces were drawn, of which one fails before the next one is drawn.
fn draws_after(alloc: Global, drawn: u8) -> Result<MemDraws, Fail> {
    let mut draws = MemDraws::new(0xd0, vec![in alloc; u64::from(drawn) + 1]?);
    for _ in 0..drawn {
        draws.nonce()?;
    }
    Ok(draws)
}

/// Whether the next draw that the answer needs fails.
fn draw_fails(
    alloc: Global,
    hook: &Hook,
    draws: &mut MemDraws,
    ring: &Ring,
    state: &PState,
    given: (&[u8], Stamp),
) -> bool
    requires parts { has_parts ring.now (state_of state.now).head ≡ true }
{
    match answered(alloc, hook, draws, ring, state, given) {
        Ok(_) => false,
        Err(refusal) => refusal == Refusal::DrawFault,
    }
}

/// That the step says what the table says, and ends the run.
fn is_right(
    rt: &impl Abort,
    alloc: Global,
    state: &PState,
    step: &Step<PState>,
    table: &Service,
) -> Result<(), Fail> {
    let message = step.reply.as_ref().ok_or("no reply")?;
    let reply = encode(alloc, message)?;
    assert!(rt; reply == spelled(alloc, table.reply)?);
    assert_eq!(rt; step.sealed.len(), 2);
    assert!(rt; !state.same(&step.after));
    ends(rt, alloc, &step.after, table)
}

/// One run: it refuses and takes what the table says, and answers so, once its draw succeeds.
fn serves(
    rt: &impl Abort,
    alloc: Global,
    hook: &Hook,
    ring: &Ring,
    state: &PState,
    table: &Service,
) -> Result<(), Fail>
    requires parts { has_parts ring.now (state_of state.now).head ≡ true }
{
    assert!(rt; !state.sends_first() && state.needs_stamp() == table.issues);
    let request = right_one(rt, alloc, hook, ring, state, table.requests)?;
    let given = (request.as_slice(), table.stamp);
    let mut draws = draws_after(alloc, table.drawn)?;
    assert!(rt; draw_fails(alloc, hook, &mut draws, ring, state, given));
    let step = answered(alloc, hook, &mut draws, ring, state, given)?;
    is_right(rt, alloc, state, &step, table)
}

/// The third party of a mechanism serves 1 and 2 by these rules, and with these texts.
fn served(
    rt: &impl Abort,
    alloc: Global,
    mech: Mech,
    hook: &Hook,
    texts: &Texts,
    table: &Service,
) -> Result<(), Fail>
    requires third { has_third mech ≡ true }
    requires plays { plays_p (record { mech = mech; role = P; a = 1; b = 2; p = Some 9 }) ≡ true }
{
    let ring = ring_of(alloc, table.kind)?;
    let state = begun(alloc, mech, texts)?;
    serves(rt, alloc, hook, &ring, &state, table)
}

/// The same, where texts begin with these prefixes and have at most one byte.
fn goes(
    rt: &impl Abort,
    alloc: Global,
    mech: Mech,
    texts: &Texts,
    table: &Service,
    prefixes: (&[u8], &[u8]),
) -> Result<(), Fail>
    requires third { has_third mech ≡ true }
    requires plays { plays_p (record { mech = mech; role = P; a = 1; b = 2; p = Some 9 }) ≡ true }
{
    let mut rules = Vec::new(alloc);
    let mut same = Vec::new(alloc);
    add_rule(alloc, mech, Slot::X1, prefixes.0, &mut rules, &mut same)?;
    add_rule(alloc, mech, Slot::X2, prefixes.1, &mut rules, &mut same)?;
    let judgement: Judgement = Box::new(
        alloc,
        move |mech: Mech, slot: Slot, text: &[u8]|
            ensures { result ≡ allowed same.items mech slot text.now }
        { judge_by(&same, mech, slot, text) },
    )?;
    let hook = Hook::new(rules, judgement);
    served(rt, alloc, mech, &hook, texts, table)
}

#[test]
fn third_parties_serve_as_the_tables_say(rt: HostRuntime) -> Result<(), Fail> {
    let alloc = rt.alloc();
    let texts = texts(alloc)?;
    goes(&rt, alloc, Mech::E5, &texts, &tables::E5, (b"1", b"2"))?;
    goes(&rt, alloc, Mech::K8, &texts, &tables::K8, (b"1", b"2"))?;
    goes(&rt, alloc, Mech::E6, &texts, &tables::E6, (b"1", b"2"))?;
    goes(&rt, alloc, Mech::K9, &texts, &tables::K9, (b"1", b"2"))
}

#[test]
fn without_texts_it_seals_empty_ones(rt: HostRuntime) -> Result<(), Fail> {
    let alloc = rt.alloc();
    let none = Texts::new(Vec::new(alloc));
    goes(
        &rt,
        alloc,
        Mech::E5,
        &none,
        &tables::E5_WITHOUT_TEXTS,
        (b"", b""),
    )
}
