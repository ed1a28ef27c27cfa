//! A desk and its calls, each refusal once, over mechanisms with stamps and with nonces.
ghost use Rattle.std.specs.Prelude.{◌≡◌, true, IfOk, IsTrue};
ghost use Rattle.text_hooks.specs.Rules.{allowed};
ghost use Rattle.node_desk.specs.Lives.{plays_live};

mod commits;
mod deliveries;
mod openings;
mod stamps;

use fresh_values::{Counted, Issuer};
use mech_rows::{Mech, Peer, Refusal, Ring, Role, RunHead, Slot, Texts};
use node_desk::{Desk, deliver, start};
use outside::Draws;
use replay_store::WindowStore;
use seal_symbolic::Symbolic;
use std::alloc::Global;
use std::process::Abort;
use std::test::Fail;
use tagged_codec::encode;
use term_values::{Name, OutOfMemory, Part, Stamp, StampKind, Term, Text};
use text_hooks::{Hook, Judgement, Rule, judge_by};

/// Who has a desk.
#[derive(Clone, Copy)]
struct Party {
    me: u32,
    /// The party with which it shares a part.
    other: u32,
    kind: StampKind,
    /// Each byte of the part.
    byte: u8,
    /// The number of its last stamp.
    last: u64,
}

/// Party 1, by the clock.
const PARTY_1: Party = Party {
    me: 1,
    other: 2,
    kind: StampKind::Time,
    byte: 0xaa,
    last: 0,
};

/// Party 2, by the clock.
const PARTY_2: Party = Party {
    me: 2,
    other: 1,
    ..PARTY_1
};

/// Party 1, which shares another part.
const ALIEN_1: Party = Party {
    byte: 0xbb,
    ..PARTY_1
};

/// Party 1, which shares the part with party 3.
const STRANGER_1: Party = Party {
    other: 3,
    ..PARTY_1
};

/// Party 1, which counts.
const COUNTING_1: Party = Party {
    kind: StampKind::Seq,
    ..PARTY_1
};

/// Party 1, which has counted to the end.
const SPENT_1: Party = Party {
    last: u64::MAX,
    ..COUNTING_1
};

/// Party 2, which has issued its last stamp.
const SPENT_2: Party = Party {
    last: u64::MAX,
    ..PARTY_2
};

/// The desk of party 1.
const ONE: usize = 0;

/// The desk of party 2.
const TWO: usize = 1;

/// The bytes that a run is given.
#[derive(Clone, Copy)]
enum Word {
    /// These.
    Literal(&'static [u8]),
    /// Those of the message of that number; the first that was said is 0.
    Message(usize),
}

/// What is done at a desk. Clocks come last.
#[derive(Clone, Copy)]
enum Act {
    /// A run of that mechanism is opened, in that role, between parties A and B.
    Open(Mech, Role, u32, u32),
    /// The run of that number says its first message.
    Start(u32, u64),
    /// The run of that number is given bytes.
    Give(u32, Word, u64),
    /// A stamp is issued.
    Issue(u64),
    /// The run of that number is dropped.
    DropRun(u32),
    /// The run of that number is looked at.
    Look(u32),
}

/// What is answered.
#[derive(Clone, Copy, Debug, PartialEq, Eq)]
enum Answer {
    /// The number of the run that is opened.
    Run(u32),
    /// A first message, which is said.
    Said,
    /// A reply, which is said.
    Replied,
    /// No reply.
    Taken,
    /// The stamp that is issued.
    Issued(Stamp),
    /// Whether the run was open.
    Dropped(bool),
    /// The run is open.
    IsOpen,
}

/// At which desk something is done, what, what is answered, and how many events its log has then.
type Row = (usize, Act, Result<Answer, Refusal>, usize);

/// What a story shows, who parties 1 and 2 are, and what is done at their new desks.
type Story<'a> = (&'static str, Party, Party, &'a [Row]);

/// Desks, and the messages that were said at them.
#[derive(Drop)]
struct Room {
    desks: Vec<Desk<WindowStore>>,
    said: Vec<Vec<u8>>,
}

/// The name of that number.
fn name(rt: &impl Abort, number: u32) -> Name {
    Name::new(number).expect(rt, "a name")
}

/// A party that another knows.
fn peer(rt: &impl Abort, number: u32, server: bool, part: Option<Part>) -> Peer {
    Peer {
        name: name(rt, number),
        server,
        part,
    }
}

/// What a party knows: the other one, with which it shares a part, the third party 3, and party 4 without a part.
fn ring_of(rt: &impl Abort, alloc: Global, party: Party) -> Result<Ring, OutOfMemory>
    ensures kind { IfOk result (λ r. r.kind ≡ party.kind) }
    ensures window { IfOk result (λ r. r.window ≡ 5000) }
{
    let me = name(rt, party.me);
    let partner = peer(rt, party.other, false, Some(Part([party.byte; 32])));
    let server = peer(rt, 3, true, None);
    let keyless = peer(rt, 4, false, None);
    let peers = vec![in alloc; partner, server, keyless]?;
    Ok(Ring {
        me,
        server: false,
        kind: party.kind,
        window: 5000,
        peers,
    })
}

/// The desk of a party that did nothing yet.
fn desk_of(rt: &impl Abort, alloc: Global, party: Party) -> Result<Desk<WindowStore>, OutOfMemory> {
    let ring = ring_of(rt, alloc, party)?;
    let store = WindowStore::new(alloc, 5000);
    let issuer = Issuer::new(party.kind, party.last);
    Ok(Desk::new(alloc, ring, issuer, store))
}

/// The desks of parties that did nothing yet.
fn desks_of(
    rt: &impl Abort,
    alloc: Global,
    parties: &[Party],
) -> Result<Vec<Desk<WindowStore>>, OutOfMemory> {
    let mut desks = Vec::new(alloc);
    for party in parties {
        desks.push(desk_of(rt, alloc, *party)?)?;
    }
    Ok(desks)
}

/// Whether a desk may have runs of the head.
fn is_built(head: &RunHead) -> bool
    ensures { IsTrue result → plays_live head.now ≡ true }
{
    match head.mech {
        Mech::E1 | Mech::E2 | Mech::E3 | Mech::E4 => true,
        Mech::C1 | Mech::C2 | Mech::C3 | Mech::C4 => true,
        _ => false,
    }
}

/// A run without texts is opened.
fn opens(
    rt: &impl Abort,
    alloc: Global,
    desk: &mut Desk<WindowStore>,
    mech: Mech,
    role: Role,
    a: u32,
    b: u32,
) -> Result<Answer, Refusal> {
    let head = RunHead::new(mech, role, name(rt, a), name(rt, b), None).expect(rt, "a head");
    assert!(rt; is_built(&head));
    assert!(rt; head.me() == desk.ring().me);
    let texts = Texts::new(Vec::new(alloc));
    let run = desk.open_run(&head, &texts)?;
    Ok(Answer::Run(run))
}

/// A term, in bytes.
fn spelled(rt: &impl Abort, alloc: Global, term: &Term) -> Vec<u8> {
    encode(alloc, term)
        .ok()
        .expect(rt, "a term within the limits")
}

/// A run says its first message.
fn says(
    rt: &impl Abort,
    alloc: Global,
    desk: &mut Desk<WindowStore>,
    said: &mut Vec<Vec<u8>>,
    draws: &mut impl Draws,
    run: u32,
    clock: u64,
) -> Result<Answer, Refusal> {
    let message = start(alloc, desk, &Symbolic::new(), draws, run, clock)?;
    said.push(spelled(rt, alloc, &message))?;
    Ok(Answer::Said)
}

/// The bytes of a word, after these messages.
fn bytes_of<'a>(rt: &impl Abort, said: &'a [Vec<u8>], word: Word) -> &'a [u8] {
    match word {
        Word::Literal(bytes) => bytes,
        Word::Message(number) => said.get(number).expect(rt, "a message"),
    }
}

/// A run is given bytes.
fn takes(
    rt: &impl Abort,
    alloc: Global,
    desk: &mut Desk<WindowStore>,
    said: &mut Vec<Vec<u8>>,
    hook: &Hook,
    draws: &mut impl Draws,
    run: u32,
    word: Word,
    clock: u64,
) -> Result<Answer, Refusal> {
    let bytes = bytes_of(rt, said, word);
    let reply = deliver(
        alloc,
        desk,
        &Symbolic::new(),
        hook,
        draws,
        run,
        bytes,
        clock,
    )?;
    let Some(reply) = reply else {
        return Ok(Answer::Taken);
    };
    said.push(spelled(rt, alloc, &reply))?;
    Ok(Answer::Replied)
}

/// A stamp is issued.
fn issues(desk: &mut Desk<WindowStore>, clock: u64) -> Result<Answer, Refusal> {
    let stamp = desk.issue(clock)?;
    Ok(Answer::Issued(stamp))
}

/// A run is looked at.
fn looks(desk: &Desk<WindowStore>, run: u32) -> Result<Answer, Refusal> {
    match desk.look(run).err() {
        Some(refusal) => Err(refusal),
        None => Ok(Answer::IsOpen),
    }
}

/// Something is done at a desk of the room.
fn does(
    rt: &impl Abort,
    alloc: Global,
    room: &mut Room,
    hook: &Hook,
    draws: &mut impl Draws,
    at: usize,
    act: Act,
) -> Result<Answer, Refusal> {
    assert!(rt; at < room.desks.len());
    let desk = &mut room.desks[at];
    match act {
        Act::Open(mech, role, a, b) => opens(rt, alloc, desk, mech, role, a, b),
        Act::Start(run, clock) => says(rt, alloc, desk, &mut room.said, draws, run, clock),
        Act::Give(run, word, clock) => {
            takes(
                rt,
                alloc,
                desk,
                &mut room.said,
                hook,
                draws,
                run,
                word,
                clock,
            )
        }
        Act::Issue(clock) => issues(desk, clock),
        Act::DropRun(run) => Ok(Answer::Dropped(desk.drop_run(run))),
        Act::Look(run) => looks(desk, run),
    }
}

/// How many events the log of a desk has.
fn logged(rt: &impl Abort, room: &Room, at: usize) -> usize {
    let desk = room.desks.get(at).expect(rt, "a desk");
    desk.log().list().len()
}

/// The rows are done in their order, and answered as they say.
fn walk(
    rt: &impl Abort,
    alloc: Global,
    room: &mut Room,
    hook: &Hook,
    draws: &mut impl Draws,
    what: &str,
    rows: &[Row],
) {
    for (number, row) in rows.iter().enumerate() {
        let (at, act, expected, log) = *row;
        let answer = does(rt, alloc, room, hook, draws, at, act);
        assert_eq!(rt; answer, expected, "{what}, row {number}");
        assert_eq!(rt; logged(rt, room, at), log, "{what}, row {number}");
    }
}

/// Each story is told in a room of its own.
fn tell(
    rt: &impl Abort,
    alloc: Global,
    hook: &Hook,
    draws: &mut impl Draws,
    stories: &[Story<'_>],
) -> Result<(), Fail> {
    for story in stories {
        let (what, one, two, rows) = *story;
        let mut room = Room {
            desks: desks_of(rt, alloc, &[one, two])?,
            said: Vec::new(alloc),
        };
        walk(rt, alloc, &mut room, hook, draws, what, rows);
    }
    Ok(())
}

/// The rule that a text of the first message of C2 begins with that byte.
fn rule(alloc: Global) -> Result<Rule, Fail> {
    let prefix = Text::new(b"1".to_vec(alloc)?)?;
    Ok(Rule {
        mech: Mech::C2,
        slot: Slot::X1,
        longest: 1,
        prefix,
    })
}

/// The one rule, twice.
fn rules(alloc: Global) -> Result<(Vec<Rule>, Vec<Rule>), Fail>
    ensures equal { IfOk result (λ p. p.0.items ≡ p.1.items) }
{
    let rule = rule(alloc)?;
    let same = vec![in alloc; rule.copy(alloc)?]?;
    let rules = vec![in alloc; rule]?;
    Ok((rules, same))
}

/// The stories are told where the one rule holds.
fn play(
    rt: &impl Abort,
    alloc: Global,
    draws: &mut impl Draws,
    stories: &[Story<'_>],
) -> Result<(), Fail> {
    let (rules, same) = rules(alloc)?;
    let judgement: Judgement = Box::new(
        alloc,
        move |mech: Mech, slot: Slot, text: &[u8]|
            ensures { result ≡ allowed same.items mech slot text.now }
        { judge_by(&same, mech, slot, text) },
    )?;
    let hook = Hook::new(rules, judgement);
    tell(rt, alloc, &hook, draws, stories)
}
