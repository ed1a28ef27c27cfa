//! The roles of the mechanisms by encipherment and by checks, as the tables say: one undisturbed exchange of each, and what each
//! receiver refuses on the way.
ghost use Rattle.std.specs.Prelude.{◌≡◌, true, false, None, IfOk, OnOk, is_some};
ghost use Rattle.mech_rows.specs.Openings.{has_parts};
ghost use Rattle.mech_rows.specs.Replies.{needs_stamp};
ghost use Rattle.mech_rows.specs.Rings.{part_by};
ghost use Rattle.mech_rows.specs.Rows.{has_third};
ghost use Rattle.mech_rows.specs.declared.kinds.Role.TheVariants.{A, B};
ghost use Rattle.text_hooks.specs.Rules.{allowed};

mod checked;
mod enciphered;
mod spellings;

use self::spellings::spelled;
use mech_rows::{Got, Mech, Peer, Refusal, Ring, Role, RunHead, Slot, Step, Texts};
use outside::{Draws, MemDraws};
use roles_9798_2::EState;
use roles_9798_4::CState;
use seal_symbolic::Symbolic;
use std::alloc::Global;
use std::process::Abort;
use std::test::Fail;
use tagged_codec::encode;
use term_values::{Name, Part, Stamp, StampKind, Text};
use text_hooks::{Hook, Judgement, RoleState, Rule, compose, first, judge_by, prepare};

/// An undisturbed exchange of a mechanism.
struct Exchange {
    /// The stamps that both issue.
    kind: StampKind,
    /// How many nonces both draw.
    draws: u64,
    /// How many values each has noted at its end.
    notes: usize,
    /// For each pass the bytes that its receiver is given, one after the other, and what it answers: what they are spelled from, and
    /// the answer, beside each other in a line. The last line has the message of the pass. It is taken, with the stamps to judge,
    /// if any: slot, sender, tag and stamp.
    passes: [&'static str; 3],
}

/// The part that both have.
const PART: Part = Part([0xaa; 32]);

fn name(number: u32) -> Result<Name, Fail>
    ensures number { IfOk result (λ n. n ≡ number) }
{
    Ok(Name::new(number).ok_or("no name")?)
}

/// The ring of a node that shares a part with one peer.
fn ring_of(alloc: Global, kind: StampKind, me: u32, peer: u32) -> Result<Ring, Fail>
    ensures me { IfOk result (λ r. r.me ≡ me) }
    ensures shared { IfOk result (λ r. is_some (part_by r.peers peer) ≡ true) }
{
    let peer = Peer {
        name: name(peer)?,
        server: false,
        part: Some(PART),
    };
    Ok(Ring {
        me: name(me)?,
        server: false,
        kind,
        window: 5000,
        peers: vec![in alloc; peer]?,
    })
}

fn text(alloc: Global, bytes: &[u8]) -> Result<Text, Fail> {
    Ok(Text::new(bytes.to_vec(alloc)?)?)
}

/// All texts, whoever sends them.
fn texts(alloc: Global) -> Result<Texts, Fail> {
    let one = text(alloc, b"1")?;
    let two = text(alloc, b"2")?;
    let three = text(alloc, b"3")?;
    let four = text(alloc, b"4")?;
    let five = text(alloc, b"5")?;
    Ok(Texts::new(vec![in alloc;
        (Slot::X1, one),
        (Slot::X2, two),
        (Slot::X3, three),
        (Slot::X4, four),
        (Slot::X5, five),
    ]?))
}

/// The rule that allows this text alone.
fn rule(alloc: Global, mech: Mech, slot: Slot, only: &[u8]) -> Result<Rule, Fail> {
    let prefix = text(alloc, only)?;
    Ok(Rule {
        mech,
        slot,
        longest: 1,
        prefix,
    })
}

/// Adds the rule that allows this text alone to rules and to their copy.
fn add_rule(
    alloc: Global,
    mech: Mech,
    slot: Slot,
    only: &[u8],
    rules: &mut Vec<Rule>,
    same: &mut Vec<Rule>,
) -> Result<(), Fail>
    requires equal { rules.old.items ≡ same.old.items }
    ensures equal { OnOk result (rules.new.items ≡ same.new.items) }
{
    let added = rule(alloc, mech, slot, only)?;
    same.push(added.copy(alloc)?)?;
    rules.push(added)?;
    Ok(())
}

/// Adds the rules that allow these texts alone in that mechanism to rules and to their copy.
fn add_rules(
    alloc: Global,
    mech: Mech,
    rules: &mut Vec<Rule>,
    same: &mut Vec<Rule>,
) -> Result<(), Fail>
    requires equal { rules.old.items ≡ same.old.items }
    ensures equal { OnOk result (rules.new.items ≡ same.new.items) }
{
    add_rule(alloc, mech, Slot::X1, b"1", rules, same)?;
    add_rule(alloc, mech, Slot::X2, b"2", rules, same)?;
    add_rule(alloc, mech, Slot::X3, b"3", rules, same)?;
    add_rule(alloc, mech, Slot::X4, b"4", rules, same)?;
    add_rule(alloc, mech, Slot::X5, b"5", rules, same)
}

/// A run between parties 1 and 2 that begins.
fn begun<T: RoleState>(alloc: Global, mech: Mech, role: Role) -> Result<T, Fail>
    requires plays { T.plays (record { mech = mech; role = role; a = 1; b = 2; p = None }) ≡ true }
    ensures head { IfOk result (λ s. (T.state_of s).head
        ≡ record { mech = mech; role = role; a = 1; b = 2; p = None }) }
{
    let head = RunHead::new(mech, role, name(1)?, name(2)?, None).ok_or("no head")?;
    Ok(T::begin(alloc, &head, &texts(alloc)?)?)
}

/// The stamp that a state needs: A's has the number 5, B's the number 6.
fn stamp_for<T: RoleState>(state: &T, ring: &Ring) -> Option<Stamp>
    ensures needed { is_some result ≡ needs_stamp (T.state_of state.now) }
{
    if !state.stamps_now() {
        return None;
    }
    let number = if ring.me.get() == 1 { 5 } else { 6 };
    match ring.kind {
        StampKind::Time => Some(Stamp::Time(number)),
        StampKind::Seq => Some(Stamp::Seq(number)),
    }
}

/// The step that answers these bytes, or, where there are none, the one that says the first message.
fn answered<T: RoleState>(
    alloc: Global,
    hook: &Hook,
    draws: &mut MemDraws,
    ring: &Ring,
    state: &T,
    bytes: Option<&[u8]>,
) -> Result<Step<T>, Refusal>
    requires parts { has_parts ring.now (T.state_of state.now).head ≡ true }
    ensures head { IfOk result (λ s. s.after.head ≡ (T.state_of state.now).head) }
{
    let sealer = Symbolic::new();
    let Some(bytes) = bytes else {
        if !state.sends_first() {
            return Err(Refusal::EndedRun);
        }
        let stamp = stamp_for(state, ring);
        return first(state, alloc, &sealer, ring, draws, stamp);
    };
    if !state.receives() {
        return Err(Refusal::EndedRun);
    }
    let prepared = prepare(state, alloc, &sealer, ring, hook, bytes)?;
    let stamp = stamp_for(&prepared.after, ring);
    compose(prepared, alloc, &sealer, ring, draws, stamp)
}

/// That step, tried a second time where a draw failed.
fn stepped<T: RoleState>(
    rt: &impl Abort,
    alloc: Global,
    hook: &Hook,
    draws: &mut MemDraws,
    ring: &Ring,
    state: &T,
    bytes: Option<&[u8]>,
) -> Result<Step<T>, Fail>
    requires parts { has_parts ring.now (T.state_of state.now).head ≡ true }
    ensures head { IfOk result (λ s. s.after.head ≡ (T.state_of state.now).head) }
{
    let faults = draws.faults();
    match answered(alloc, hook, draws, ring, state, bytes) {
        Ok(step) => {
            assert_eq!(rt; draws.faults(), faults);
            Ok(step)
        }
        Err(refusal) => {
            assert!(rt; refusal == Refusal::DrawFault);
            assert!(rt; draws.faults() > faults);
            Ok(answered(alloc, hook, draws, ring, state, bytes)?)
        }
    }
}

/// The reply of a step, in bytes.
fn reply_of<T: RoleState>(alloc: Global, step: &Step<T>) -> Result<Option<Vec<u8>>, Fail> {
    match &step.reply {
        Some(message) => Ok(Some(encode(alloc, message)?)),
        None => Ok(None),
    }
}

/// What a state answers to these bytes, in words.
fn answer_to<T: RoleState>(
    alloc: Global,
    hook: &Hook,
    ring: &Ring,
    state: &T,
    bytes: &[u8],
) -> Result<String, Fail>
    requires parts { has_parts ring.now (T.state_of state.now).head ≡ true }
{
    if !state.receives() {
        return Err("it takes no message".into());
    }
    match prepare(state, alloc, &Symbolic::new(), ring, hook, bytes) {
        Ok(prepared) => taken(alloc, &prepared.got),
        Err(refusal) => Ok(format!(in alloc; "{refusal:?}")?),
    }
}

/// That a message was taken, with the stamps to judge.
fn taken(alloc: Global, got: &[Got]) -> Result<String, Fail> {
    let mut text = format!(in alloc; "taken")?;
    for one in got {
        let sender = one.sender.get();
        let tag = one.tag.0;
        write!(text, " {:?} {sender} {tag:?} {:?}", one.slot, one.stamp)?;
    }
    Ok(text)
}

/// The message that is taken at last, after a state has answered all that stands in the table as it says.
fn right_one<T: RoleState>(
    rt: &impl Abort,
    alloc: Global,
    hook: &Hook,
    ring: &Ring,
    state: &T,
    table: &str,
) -> Result<Vec<u8>, Fail>
    requires parts { has_parts ring.now (T.state_of state.now).head ≡ true }
{
    let mut last = Vec::new(alloc);
    for line in table.lines() {
        if line.is_empty() {
            continue;
        }
        let (words, want) = line.split_once("| ").ok_or("a line without an answer")?;
        last = spelled(alloc, words)?;
        let answer = answer_to(alloc, hook, ring, state, &last)?;
        assert!(rt; answer.as_str() == want, "{answer} to {line}");
    }
    Ok(last)
}

/// The state after a pass that it receives, and its reply. What it was told is the message of the table.
fn hears<T: RoleState>(
    rt: &impl Abort,
    alloc: Global,
    hook: &Hook,
    draws: &mut MemDraws,
    ring: &Ring,
    state: T,
    said: Option<Vec<u8>>,
    table: &str,
) -> Result<(T, Option<Vec<u8>>), Fail>
    requires parts { has_parts ring.now (T.state_of state).head ≡ true }
    ensures head { IfOk result (λ p. (T.state_of p.0).head ≡ (T.state_of state).head) }
{
    let Some(said) = said else {
        assert!(rt; table.is_empty());
        return Ok((state, None));
    };
    let right = right_one(rt, alloc, hook, ring, &state, table)?;
    assert!(rt; said == right);
    let step = stepped(rt, alloc, hook, draws, ring, &state, Some(&said))?;
    let reply = reply_of(alloc, &step)?;
    Ok((step.after, reply))
}

/// The end of a run: it is done, has noted as many values as the table says, and is the same as its copy.
fn ends<T: RoleState>(rt: &impl Abort, alloc: Global, state: &T, notes: usize) -> Result<(), Fail> {
    assert!(rt; state.is_done());
    assert_eq!(rt; state.notes(alloc)?.list().len(), notes);
    assert!(rt; state.copy(alloc)?.same(state));
    Ok(())
}

/// The passes of an exchange, one after the other.
fn converse<T: RoleState>(
    rt: &impl Abort,
    alloc: Global,
    hook: &Hook,
    draws: &mut MemDraws,
    one: &Ring,
    opener: T,
    two: &Ring,
    other: T,
    table: &Exchange,
) -> Result<(), Fail>
    requires opener { has_parts one.now (T.state_of opener).head ≡ true }
    requires other { has_parts two.now (T.state_of other).head ≡ true }
{
    let step = stepped(rt, alloc, hook, draws, one, &opener, None)?;
    let said = reply_of(alloc, &step)?;
    let opener = step.after;
    let [first_pass, second_pass, third_pass] = table.passes;
    let (other, said) = hears(rt, alloc, hook, draws, two, other, said, first_pass)?;
    let (opener, said) = hears(rt, alloc, hook, draws, one, opener, said, second_pass)?;
    let (other, said) = hears(rt, alloc, hook, draws, two, other, said, third_pass)?;
    assert!(rt; said.is_none());
    assert!(rt; !opener.same(&other));
    ends(rt, alloc, &opener, table.notes)?;
    ends(rt, alloc, &other, table.notes)
}

/// Parties 1 and 2 run a mechanism, and the draws of these numbers fail: how many of them.
fn faults_in<T: RoleState>(
    rt: &impl Abort,
    alloc: Global,
    hook: &Hook,
    mech: Mech,
    table: &Exchange,
    failing: Vec<u64>,
) -> Result<u64, Fail>
    requires third { has_third mech ≡ false }
    requires a { T.plays (record { mech = mech; role = A; a = 1; b = 2; p = None }) ≡ true }
    requires b { T.plays (record { mech = mech; role = B; a = 1; b = 2; p = None }) ≡ true }
{
    let one = ring_of(alloc, table.kind, 1, 2)?;
    let two = ring_of(alloc, table.kind, 2, 1)?;
    let mut draws = MemDraws::new(0xd0, failing);
    let a = begun::<T>(alloc, mech, Role::A)?;
    let b = begun::<T>(alloc, mech, Role::B)?;
    if a.sends_first() {
        converse(rt, alloc, hook, &mut draws, &one, a, &two, b, table)?;
    } else {
        converse(rt, alloc, hook, &mut draws, &two, b, &one, a, table)?;
    }
    Ok(draws.faults())
}

/// Parties 1 and 2 run a mechanism: once without a failing draw, and once where each draw fails and succeeds when it is tried again.
fn goes<T: RoleState>(
    rt: &impl Abort,
    alloc: Global,
    mech: Mech,
    table: &Exchange,
) -> Result<(), Fail>
    requires third { has_third mech ≡ false }
    requires a { T.plays (record { mech = mech; role = A; a = 1; b = 2; p = None }) ≡ true }
    requires b { T.plays (record { mech = mech; role = B; a = 1; b = 2; p = None }) ≡ true }
{
    let mut rules = Vec::new(alloc);
    let mut same = Vec::new(alloc);
    add_rules(alloc, mech, &mut rules, &mut same)?;
    let judgement: Judgement = Box::new(
        alloc,
        move |mech: Mech, slot: Slot, text: &[u8]|
            ensures { result ≡ allowed same.items mech slot text.now }
        { judge_by(&same, mech, slot, text) },
    )?;
    let hook = Hook::new(rules, judgement);
    let faults = faults_in::<T>(rt, alloc, &hook, mech, table, Vec::new(alloc))?;
    assert_eq!(rt; faults, 0);
    let faults = faults_in::<T>(rt, alloc, &hook, mech, table, vec![in alloc; 1, 3]?)?;
    assert_eq!(rt; faults, table.draws);
    Ok(())
}

#[test]
fn enciphered_exchanges_go_as_the_tables_say(rt: HostRuntime) -> Result<(), Fail> {
    let alloc = rt.alloc();
    goes::<EState>(&rt, alloc, Mech::E1, &enciphered::E1)?;
    goes::<EState>(&rt, alloc, Mech::E2, &enciphered::E2)?;
    goes::<EState>(&rt, alloc, Mech::E3, &enciphered::E3)?;
    goes::<EState>(&rt, alloc, Mech::E4, &enciphered::E4)?;
    goes::<EState>(&rt, alloc, Mech::E1, &enciphered::E1_BY_NUMBERS)?;
    goes::<EState>(&rt, alloc, Mech::E3, &enciphered::E3_BY_NUMBERS)
}

#[test]
fn checked_exchanges_go_as_the_tables_say(rt: HostRuntime) -> Result<(), Fail> {
    let alloc = rt.alloc();
    goes::<CState>(&rt, alloc, Mech::C1, &checked::C1)?;
    goes::<CState>(&rt, alloc, Mech::C2, &checked::C2)?;
    goes::<CState>(&rt, alloc, Mech::C3, &checked::C3)?;
    goes::<CState>(&rt, alloc, Mech::C4, &checked::C4)?;
    goes::<CState>(&rt, alloc, Mech::C1, &checked::C1_BY_NUMBERS)?;
    goes::<CState>(&rt, alloc, Mech::C3, &checked::C3_BY_NUMBERS)
}
