ghost use Rattle.std.specs.Prelude.{true, ◌≡◌, ◌≢◌, ◌+◌, ◌<◌, ◌≤◌, ◌↔◌, IsTrue, [], ℕ, None, Some};
ghost use Rattle.std.specs.Prelude.{max, OnOk, OnErr, IfOk, IfErr, MatchResult};
ghost use Rattle.std.specs.Bool.{OnTrue, OnFalse};
ghost use Rattle.agreement_laws.specs.Nodes.{opens_in};
ghost use Rattle.mech_rows.specs.Heads.{me};
ghost use Rattle.mech_rows.specs.Openings.{has_parts};
ghost use Rattle.mech_rows.specs.Rings.{keys_in};
ghost use Rattle.mech_rows.specs.declared.refusal.Refusal.TheVariants.{Memory, StampsSpent};
ghost use Rattle.node_desk.specs.Lives.{live_state, plays_live};
ghost use Rattle.node_desk.specs.declared.event.Event.TheVariants.{Open, Issue, Commit, Drop};

use crate::commit::{
    STAMP_LIMIT, check_commit, given_up, is_going, kind_of, record_step, running_after,
};
use crate::event::Event;
use crate::live::Live;
use crate::log::Log;
use crate::openings::{copied, opening_refusal};
use crate::run_slot::RunSlot;
use crate::suiting::{has_keys, is_unused, issued_by};
use crate::table::{check_first, find, look_up};
use fresh_values::Issuer;
use mech_rows::{Refusal, Ring, RunHead, Step, Texts};
use replay_store::Store;
use std::alloc::Global;
use std::marker::Model;
use term_values::{OutOfMemory, Stamp};
use text_hooks::RoleState;

/// One node: its ring, its issuer, the stamps that it accepted, its runs and its log. The type
/// keeps that the log is legal: over each sealing over which its commits are of steps with the
/// ring's keys, each event has what it needs.
///
/// Contracts see the ring, the number that the issuer had issued last at first, the log, and for
/// how many commits there is room. What the node is follows from these.
#[derive(Drop)]
pub struct Desk<T: Store> {
    alloc: Global,
    ring: Ring,
    first: u64,
    issuer: Issuer,
    store: T,
    run_slots: Vec<RunSlot>,
    running: usize,
    log: Log,
}

impl<T: Store> Model for Desk<T> {
    ghost use Rattle.std.specs.Prelude.{◌-◌, ◌/◌, min};
    ghost use Rattle.node_desk.specs.Desks.{DeskView, IsKept};
    ghost use Rattle.term_values.specs.Codes.{coded_tree};
    ghost use Rattle.std.specs.Coded.{codes};

    ghost Value = { DeskView };

    ghost coded = { Prim.hlevel (codes, coded_tree) };

    ghost view = { λ d. record {
      ring = d.ring;
      first = d.first;
      log = d.log.events;
      spare = min (T.spare d.store / 2) (d.log.room - d.running);
    } };

    ghost invariant = { λ d. IsKept d.ring d.first d.log.events d.issuer (T.now d.store) (T.window d.store) (T.stands_for d.store) d.run_slots.items d.running d.log.room };
}

impl<T: Store> Desk<T> {
    ghost use Rattle.std.specs.Prelude.{◌≡◌};
    ghost use Rattle.node_desk.specs.Events.{log_of};
    ghost use Rattle.node_desk.specs.Helds.{Held};
    ghost use Rattle.node_desk.specs.Openings.{opening_refusal as opening_refused};
    ghost use Rattle.node_desk.specs.Refusals.{first_refusal, issue_refusal, run_refusal};
    ghost use Rattle.node_desk.specs.Desks.{node_at, run_at, Entered, HasStepped, Untouched};
    ghost use Rattle.node_desk.specs.Desks.{CommitAnswers, IsLegalLog, IsWholeLog, IsMadeWith};
    ghost use Rattle.node_desk.specs.Desks.{AreMadeWith, IsUnused, due_stamp};

    /// A node that did nothing yet: no runs, an empty log. The issuer is of the ring's kind of
    /// stamps; the store has the ring's window, its now is 0, and it has accepted nothing. Takes no
    /// memory.
    pub fn new(alloc: Global, ring: Ring, issuer: Issuer, store: T) -> Desk<T>
        requires kind { issuer.kind ≡ ring.kind }
        requires window { T.window store ≡ ring.window }
        requires now { T.now store ≡ 0 }
        requires empty { T.stands_for store [] }
        ensures ring { result.ring ≡ ring }
        ensures first { result.first ≡ issuer.last }
        ensures log { result.log ≡ [] }
    {
        Desk {
            alloc,
            ring,
            first: issuer.last(),
            issuer,
            store,
            run_slots: Vec::new(alloc),
            running: 0,
            log: Log::new(alloc),
        }
    }

    /// What the node knows from the start. Takes no memory.
    pub fn ring(&self) -> &Ring
        ensures ring { result.now ≡ self.now.ring }
    {
        &self.ring
    }

    /// What happened at the node: a legal log, each of whose commits is of a step that was made
    /// with the ring's keys. Takes no memory.
    pub fn log(&self) -> &Log
        ensures log { result.now.events ≡ self.now.log }
        ensures legal { IsLegalLog self.now.ring self.now.first self.now.log }
        ensures whole { IsWholeLog self.now.ring self.now.first self.now.log }
        ensures made { AreMadeWith (keys_in self.now.ring) self.now.log }
    {
        &self.log
    }

    /// A copy of the state of an open run.
    ///
    /// # Errors
    ///
    /// `UnknownRun` and `EndedRun`, each exactly where it holds; want of memory, only where the run
    /// is open.
    pub fn look(&self, run: u32) -> Result<Live, Refusal>
        ensures state { IfOk result (λ state.
            run_at self.now run ≡ Some (record { state = live_state state; is_open = true })) }
        ensures parts { IfOk result (λ state.
            has_parts self.now.ring (live_state state).head ≡ true) }
        ensures refused { IfErr result (λ e. e ≢ Memory →
            run_refusal (run_at self.now run) ≡ Some e) }
        ensures memory { IfErr result (λ e. e ≡ Memory → run_refusal (run_at self.now run) ≡ None) }
    {
        let state = look_up(self.alloc, &self.run_slots, self.log.list(), run)?;
        Ok(state)
    }

    /// Judges whether a run says its first message now. Takes no memory.
    ///
    /// # Errors
    ///
    /// The first that holds: `UnknownRun`, `EndedRun`, `WrongPass`.
    pub(crate) fn check_first(&self, run: u32) -> Result<(), Refusal>
        ensures fit { OnOk result (first_refusal (run_at self.now run) ≡ None) }
        ensures refused { IfErr result (λ e. first_refusal (run_at self.now run) ≡ Some e) }
        ensures memory { IfErr result (λ e. e ≢ Memory) }
    {
        check_first(&self.run_slots, self.log.list(), run)
    }

    /// Why a run of that head would not be opened: the first refusal that holds, which is never
    /// want of memory. Takes no memory.
    pub fn opening_refusal(&self, head: &RunHead) -> Option<Refusal>
        ensures refusal { result ≡ opening_refused (node_at self.now) head.now }
        ensures memory { result ≢ Some Memory }
    {
        opening_refusal(
            &self.ring,
            self.running,
            self.run_slots.as_slice().len(),
            head,
        )
    }

    /// Opens a run of the node's own name and answers its number, which is one more than the runs
    /// that were opened. Takes the room of two commits at most.
    ///
    /// # Errors
    ///
    /// The first that holds of `UnknownParty`, `WrongKind`, `SelfPeer`, `NoKey` and `TableFull`;
    /// want of memory, only where none of them holds. Nothing but the room may have changed then,
    /// and that only grows.
    pub fn open_run(&mut self, head: &RunHead, texts: &Texts) -> Result<u32, Refusal>
        requires own { me head.now ≡ self.old.ring.me }
        requires plays { plays_live head.now ≡ true }
        ensures ok { IfOk result (λ run. Entered self.old self.new (Open run head.now texts.now)) }
        ensures fit { OnOk result (opening_refused (node_at self.old) head.now ≡ None) }
        ensures refused { IfErr result (λ e. e ≢ Memory →
            opening_refused (node_at self.old) head.now ≡ Some e) }
        ensures memory { IfErr result (λ e. e ≡ Memory →
            opening_refused (node_at self.old) head.now ≡ None) }
        ensures err { OnErr result (Untouched self.old self.new) }
        ensures grows { OnErr result (self.old.spare ≤ self.new.spare) }
        ensures spare { self.old.spare ≤ self.new.spare + 2 }
        ensures number { IfOk result (λ run. run ≡ opens_in (log_of self.old.log) + 1) }
        ensures steps { IfOk result (λ run. HasStepped self.old self.new
            (Open run head.now texts.now)) }
    {
        let opened = self.run_slots.as_slice().len();
        if let Some(refusal) = opening_refusal(&self.ring, self.running, opened, head) {
            return Err(refusal);
        }
        let run = opened as u32 + 1;
        let own = copied(head);
        let sent = texts.copy(self.alloc)?;
        self.run_slots.reserve(1)?;
        self.log.reserve(self.running + 2)?;
        self.run_slots.push_reserved(RunSlot {
            start: Live::begin(self.alloc, head, texts)?,
            at: None,
            open: true,
        });
        self.running += 1;
        self.log.push(Event::Open {
            run,
            head: own,
            texts: sent,
        });
        Ok(run)
    }

    /// Issues the node's next stamp at the greater of now and the clock, in milliseconds, which is
    /// then the node's now. Takes the room of one commit at most.
    ///
    /// # Errors
    ///
    /// `StampsSpent` exactly where the last number was the greatest; want of memory, only where it
    /// wasn't. Nothing but the room may have changed then, now neither, and the room only grows.
    pub fn issue(&mut self, clock: u64) -> Result<Stamp, Refusal>
        ensures ok { IfOk result (λ stamp. Entered self.old self.new
            (Issue (max (node_at self.old).now clock) stamp)) }
        ensures unused { IfOk result (λ stamp. IsUnused (Some stamp) (log_of self.new.log)) }
        ensures fit { OnOk result (issue_refusal (node_at self.old) ≡ None) }
        ensures refused { IfErr result (λ e. e ≢ Memory →
            issue_refusal (node_at self.old) ≡ Some e) }
        ensures spent { IfErr result (λ e. e ≡ Memory → issue_refusal (node_at self.old) ≡ None) }
        ensures err { OnErr result (Untouched self.old self.new) }
        ensures grows { OnErr result (self.old.spare ≤ self.new.spare) }
        ensures stamp { IfOk result (λ stamp. due_stamp (node_at self.old) clock ≡ Some stamp) }
        ensures steps { IfOk result (λ stamp.
            HasStepped self.old self.new (Issue (max (node_at self.old).now clock) stamp)) }
        ensures moment { OnOk result ((node_at self.new).now ≡ max (node_at self.old).now clock) }
        ensures spare { self.old.spare ≤ self.new.spare + 1 }
    {
        if self.issuer.last() == u64::MAX {
            return Err(Refusal::StampsSpent);
        }
        self.log.reserve(self.running + 1)?;
        let now = self.store.tick(clock);
        let Ok(stamp) = self.issuer.issue(now) else {
            unreachable!();
        };
        self.log.push(Event::Issue { now, stamp });
        Ok(stamp)
    }

    /// Takes all memory that a commit needs.
    ///
    /// # Errors
    ///
    /// Want of memory alone. Nothing but the room may have changed then; it is never less than
    /// before.
    pub fn ready(&mut self) -> Result<(), OutOfMemory>
        ensures room { OnOk result (0 < self.new.spare) }
        ensures grows { self.old.spare ≤ self.new.spare }
        ensures kept { Untouched self.old self.new }
    {
        self.store.reserve(STAMP_LIMIT)?;
        self.log.reserve(self.running + 1)
    }

    /// What a commit would answer. Changes nothing and takes no memory.
    ///
    /// # Errors
    ///
    /// Those of a commit.
    pub fn judge(&self, run: u32, step: &Step<Live>, clock: u64) -> Result<(), Refusal>
        ensures fit { OnOk result (CommitAnswers self.now run step.now clock None) }
        ensures refused { IfErr result (λ e. CommitAnswers self.now run step.now clock (Some e)) }
        ensures memory { IfErr result (λ e. e ≢ Memory) }
    {
        let kind = kind_of(&self.ring);
        let log = self.log.list();
        check_commit(&self.run_slots, log, &self.store, kind, run, step, clock)?;
        Ok(())
    }

    /// Whether a step suits the node: it was made with the ring's keys, and the stamp that it
    /// issued, where there is one, was issued by this node and used by no commit. Takes no memory.
    pub fn suits(&self, step: &Step<Live>) -> bool
        ensures suits { IsTrue result ↔ (IsMadeWith (keys_in self.now.ring) step.now
            × IsUnused step.now.issued (log_of self.now.log)) }
    {
        has_keys(&self.ring, step) && is_unused(self.log.list(), issued_by(step))
    }

    /// Enters a step of an open run. Each received stamp is judged at the greater of now and the
    /// clock, in milliseconds; where all are fit, that is the node's now, the stamps are accepted,
    /// the run stands after the step, and is over where the step is its last one.
    ///
    /// There is room, which `ready` makes; the step was made with the ring's keys, and a stamp that
    /// it issued was issued by this node and used by no commit before, which `suits` tests. Takes
    /// no memory, and the room of one commit at most.
    ///
    /// # Errors
    ///
    /// The first that holds: `UnknownRun`, `EndedRun`, `Moved`, then of each received stamp in
    /// order `WrongStampKind`, `Early`, `Late`, `Repeated` or `StoreFull`. Nothing has changed
    /// then, now neither.
    pub fn commit(&mut self, run: u32, step: Step<Live>, clock: u64) -> Result<(), Refusal>
        requires room { 0 < self.old.spare }
        requires made { IsMadeWith (keys_in self.old.ring) step }
        requires issued { IsUnused step.issued (log_of self.old.log) }
        ensures ok { OnOk result (Entered self.old self.new
            (Commit run (max (node_at self.old).now clock) step)) }
        ensures fit { OnOk result (CommitAnswers self.old run step clock None) }
        ensures refused { IfErr result (λ e. CommitAnswers self.old run step clock (Some e)) }
        ensures memory { IfErr result (λ e. e ≢ Memory) }
        ensures err { OnErr result (self.new ≡ self.old) }
        ensures steps { OnOk result (HasStepped self.old self.new
            (Commit run (max (node_at self.old).now clock) step)) }
        ensures moment { OnOk result ((node_at self.new).now ≡ max (node_at self.old).now clock) }
        ensures spare { self.old.spare ≤ self.new.spare + 1 }
    {
        let kind = kind_of(&self.ring);
        let log = self.log.list();
        let at = log.len();
        let place = match check_commit(&self.run_slots, log, &self.store, kind, run, &step, clock) {
            Ok(place) => place,
            Err(refusal) => return Err(given_up(step, refusal)),
        };
        let going = is_going(&step);
        let now = self.store.tick(clock);
        record_step(&mut self.store, kind, &step);
        self.run_slots[place].advance(at, going);
        self.running = running_after(self.running, going);
        self.log.push(Event::Commit { run, now, step });
        Ok(())
    }

    /// Ends an open run; false exactly where it isn't open, and then nothing has changed. Takes no
    /// memory and no room of a commit.
    pub fn drop_run(&mut self, run: u32) -> bool
        ensures dropped { OnTrue result (Entered self.old self.new (Drop run)) }
        ensures kept { OnFalse result (self.new ≡ self.old) }
        ensures running { OnTrue result (run_refusal (run_at self.old run) ≡ None) }
        ensures over { OnFalse result (run_refusal (run_at self.old run) ≢ None) }
        ensures steps { OnTrue result (HasStepped self.old self.new (Drop run)) }
        ensures spare { self.new.spare ≡ self.old.spare }
    {
        let Ok(place) = find(&self.run_slots, self.log.list(), run) else {
            return false;
        };
        self.run_slots[place].open = false;
        self.running = running_after(self.running, false);
        self.log.push(Event::Drop { run });
        true
    }
}
