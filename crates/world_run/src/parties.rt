ghost use Rattle.std.specs.Prelude.{true, ◌≡◌, ◌≢◌, ◌+◌, ◌<◌, ◌≤◌, ◌↔◌, [], None, Some, length};
ghost use Rattle.std.specs.Prelude.{map, IsTrue, IfOk, IfErr, OnOk, OnErr};
ghost use Rattle.std.specs.Bool.{OnTrue, OnFalse};
ghost use Rattle.term_values.specs.Trees.{Among};
ghost use Rattle.tagged_codec.specs.Grammar.{IsInLimits, IsSpelling};
ghost use Rattle.mech_rows.specs.Heads.{me};
ghost use Rattle.mech_rows.specs.Lawful.{tested_by};
ghost use Rattle.mech_rows.specs.Moves.{step_of};
ghost use Rattle.mech_rows.specs.Steps.{IsStep};
ghost use Rattle.mech_rows.specs.declared.refusal.Refusal.TheVariants.{Memory};
ghost use Rattle.seal_symbolic.specs.Symbolic.{body_of, is_check};
ghost use Rattle.text_hooks.specs.Rules.{allowed};
ghost use Rattle.agreement_laws.specs.Configs.{Party as PartyOf, names_in};
ghost use Rattle.node_desk.specs.Deliveries.{open_in, MayCommit};
ghost use Rattle.node_desk.specs.Desks.{node_at};
ghost use Rattle.node_desk.specs.Lives.{live_state, plays_live};
ghost use Rattle.node_desk.specs.Openings.{opening_refusal};
ghost use Rattle.node_desk.specs.Refusals.{got_refusal, run_refusal};
ghost use Rattle.node_desk.specs.declared.event.Event.TheVariants.{Open, Commit, Drop};
ghost use Rattle.world_run.specs.Views.{held_in};

use crate::config::Config;
use crate::seat::Seat;
use crate::seating::{events_of, has_name, note, place_of, see_legal};
use fresh_values::Counted;
use mech_rows::{Refusal, RunHead, Step, Texts};
use node_desk::{Live, given_up, make_first, make_step};
use seal_symbolic::Symbolic;
use std::alloc::Global;
use std::marker::Model;
use tagged_codec::{EncodeFault, encode};
use term_values::{Name, OutOfMemory, Term};
use text_hooks::Hook;

/// The parties of a world: their desks and clocks, and the order in which they acted. The type
/// keeps that they are those of the configuration, with the rings that it gives them, that the
/// order is that of their logs, and that their steps are over symbolic sealing.
///
/// Contracts see the configuration, what the parties did in order, their clocks in milliseconds,
/// and how many more events need no memory.
#[derive(Drop)]
pub(crate) struct Parties {
    config: Config,
    seats: Vec<Seat>,
    order: Vec<Name>,
}

impl Model for Parties {
    ghost use Rattle.std.specs.Prelude.{◌-◌, map, vec_len, vec_capacity};
    ghost use Rattle.term_values.specs.Codes.{coded_tree};
    ghost use Rattle.std.specs.Coded.{codes};
    ghost use Rattle.world_run.specs.Parties.{AreParties, PartiesView, log_in, merged, seat_clock};

    ghost Value = { PartiesView };

    ghost coded = { Prim.hlevel (codes, coded_tree) };

    ghost view = { λ p. record {
      config = p.config;
      acts = merged (log_in p.seats.items) p.order.items;
      clocks = map seat_clock p.seats.items;
      room = vec_capacity p.order - vec_len p.order;
    } };

    ghost invariant = { λ p. AreParties p.config p.seats.items p.order.items };
}

/// The spelling of a term within the limits.
fn spelled(alloc: Global, term: &Term) -> Result<Vec<u8>, OutOfMemory>
    requires { IsInLimits term.now }
    ensures { IfOk result (λ bytes. IsSpelling term.now bytes.items) }
{
    match encode(alloc, term) {
        Ok(bytes) => Ok(bytes),
        Err(EncodeFault::Memory) => Err(OutOfMemory),
        Err(EncodeFault::TooLarge) => unreachable!(),
    }
}

impl Parties {
    ghost use Rattle.world_run.specs.Beginnings.{AreNewSeats};
    ghost use Rattle.world_run.specs.Clocks.{clock_by, clock_in, raised_by};
    ghost use Rattle.world_run.specs.Conditions.{KeepsConditions};
    ghost use Rattle.world_run.specs.Gives.{HasTaken};
    ghost use Rattle.world_run.specs.Makings.{HasAnswered, HasBrokenOff, HasMade, IsFirst};
    ghost use Rattle.world_run.specs.Makings.{IsNotFirst, IsUnanswered, SaysFirst};
    ghost use Rattle.world_run.specs.Opens.{next_run};
    ghost use Rattle.world_run.specs.Parties.{as_world, HasActed, SameParties};
    ghost use Rattle.world_run.specs.Turns.{desk_in, keys_at, moment};

    /// Parties that did nothing yet. Takes no memory.
    pub(crate) fn new(alloc: Global, config: Config, seats: Vec<Seat>) -> Parties
        requires conditions { KeepsConditions config }
        requires seats { AreNewSeats config config.parties seats.items }
        ensures config { result.config ≡ config }
        ensures acts { result.acts ≡ [] }
        ensures clocks { result.clocks ≡ map (λ (p : PartyOf). 0) config.parties }
    {
        Parties {
            config,
            seats,
            order: Vec::new(alloc),
        }
    }

    /// Whether there is a party of that name. Takes no memory.
    pub(crate) fn has(&self, name: Name) -> bool
        ensures { IsTrue result ↔ Among name (names_in self.now.config) }
    {
        has_name(&self.seats, name)
    }

    /// Raises the clock of a party to that time, in milliseconds, and answers the clock. Takes no
    /// memory.
    pub(crate) fn raise(&mut self, name: Name, ms: u64) -> u64
        requires declared { Among name (names_in self.old.config) }
        ensures raised { self.new ≡ record self.old {
          clocks = raised_by
              (names_in self.old.config) self.old.clocks name ms;
        } }
        ensures clock { result ≡ clock_by (names_in self.old.config) self.new.clocks name }
    {
        let place = place_of(&self.seats, name);
        let seat = &mut self.seats[place];
        seat.clock = seat.clock.max(ms);
        seat.clock
    }

    /// Takes the room for so many further events in the order.
    pub(crate) fn reserve(&mut self, more: usize) -> Result<(), OutOfMemory>
        ensures room { OnOk result (more ≤ self.new.room) }
        ensures grows { self.old.room ≤ self.new.room }
        ensures same { SameParties self.old self.new }
    {
        self.order.reserve(more)
    }

    /// Why a run of that head would not be opened: the first refusal that holds, which is never
    /// want of memory. Takes no memory.
    pub(crate) fn opening_refusal(&self, head: &RunHead) -> Option<Refusal>
        requires declared { Among (me head.now) (names_in self.now.config) }
        ensures refusal { result ≡ opening_refusal
            (node_at (desk_in (as_world self.now 0) (me head.now))) head.now }
        ensures memory { result ≢ Some Memory }
    {
        let name = head.me();
        let place = place_of(&self.seats, name);
        self.seats[place].desk.opening_refusal(head)
    }

    /// Opens a run of the party whose name is the head's own, and answers its number there.
    ///
    /// # Errors
    ///
    /// The first that holds of `UnknownParty`, `WrongKind`, `SelfPeer`, `NoKey` and `TableFull`;
    /// want of memory. Nothing has changed then.
    pub(crate) fn open_run(&mut self, head: &RunHead, texts: &Texts) -> Result<u32, Refusal>
        requires declared { Among (me head.now) (names_in self.old.config) }
        requires plays { plays_live head.now ≡ true }
        requires room { 0 < self.old.room }
        ensures ok { IfOk result (λ run. HasActed self.old self.new (me head.now)
            (Open run head.now texts.now)) }
        ensures number { IfOk result (λ run. run ≡ next_run (as_world self.old 0) (me head.now)) }
        ensures fit { OnOk result (opening_refusal
            (node_at (desk_in (as_world self.old 0) (me head.now))) head.now ≡ None) }
        ensures refused { IfErr result (λ e. e ≢ Memory →
            opening_refusal (node_at (desk_in (as_world self.old 0) (me head.now))) head.now
            ≡ Some e) }
        ensures err { OnErr result (self.new ≡ self.old) }
    {
        let name = head.me();
        let place = place_of(&self.seats, name);
        let seat = &mut self.seats[place];
        let run = seat.desk.open_run(head, texts)?;
        see_legal(seat);
        self.order.push_reserved(name);
        Ok(run)
    }

    /// A copy of the state of an open run.
    ///
    /// # Errors
    ///
    /// `UnknownRun` and `EndedRun`, each exactly where it holds; want of memory.
    pub(crate) fn look(&self, name: Name, run: u32) -> Result<Live, Refusal>
        requires declared { Among name (names_in self.now.config) }
        ensures state { IfOk result (λ s. held_in self.now.acts
            (record { party = name; number = run }) ≡ open_in (live_state s)) }
        ensures refused { IfErr result (λ e. e ≢ Memory →
            run_refusal (held_in self.now.acts (record { party = name; number = run })) ≡ Some e) }
    {
        let place = place_of(&self.seats, name);
        self.seats[place].desk.look(run)
    }

    /// Makes the step by which a run says its first message: issues a stamp where the run needs
    /// one, and draws.
    ///
    /// # Errors
    ///
    /// The first that holds: `UnknownRun`, `EndedRun`, `WrongPass` where the run doesn't say the
    /// first message now, `StampsSpent`; nothing has changed then. Want of memory.
    pub(crate) fn make_first(
        &mut self,
        alloc: Global,
        draws: &mut Counted,
        name: Name,
        run: u32,
    ) -> Result<Step<Live>, Refusal>
        requires declared { Among name (names_in self.old.config) }
        requires room { 0 < self.old.room }
        requires few { draws.old.place < 18_446_744_073_709_551_600 }
        ensures ok { IfOk result (λ step. IsFirst (as_world self.old draws.old.place)
            (record { party = name; number = run }) step) }
        ensures made { IfOk result (λ step. HasMade self.old self.new draws.old.place
            draws.new.place (record { party = name; number = run }) step.before step) }
        ensures refused { IfErr result (λ e. e ≢ Memory →
            IsNotFirst (as_world self.old draws.old.place)
            (record { party = name; number = run }) e) }
        ensures stays { IfErr result (λ e. e ≢ Memory → (self.new ≡ self.old)
            × (draws.new.place ≡ draws.old.place)) }
        ensures left { OnErr result (HasBrokenOff
            (SaysFirst (as_world self.old draws.old.place)
            (record { party = name; number = run })) self.old self.new draws.old.place
            draws.new.place name) }
    {
        let place = place_of(&self.seats, name);
        let seat = &mut self.seats[place];
        let before = events_of(seat);
        let sealer = Symbolic::new();
        let step = make_first(alloc, &mut seat.desk, &sealer, draws, run, seat.clock);
        see_legal(seat);
        note(&mut self.order, name, before, events_of(seat));
        step
    }

    /// Makes the step by which a run takes a term within the limits as its next message: issues a
    /// stamp where the run needs one for its answer, and draws.
    ///
    /// # Errors
    ///
    /// The first that holds: `UnknownRun`, `EndedRun`, `WrongPass`; of each part of the message
    /// `Unopened`, `WrongShape`, `WrongNames`, `WrongValue`; `TextRefused`; `StampsSpent`; nothing
    /// has changed then. Want of memory.
    pub(crate) fn make_step(
        &mut self,
        alloc: Global,
        hook: &Hook,
        draws: &mut Counted,
        name: Name,
        run: u32,
        term: &Term,
    ) -> Result<Step<Live>, Refusal>
        requires declared { Among name (names_in self.old.config) }
        requires room { 0 < self.old.room }
        requires few { draws.old.place < 18_446_744_073_709_551_600 }
        requires limits { IsInLimits term.now }
        ensures ok { IfOk result (λ step. HasAnswered
            (allowed hook.now.rules.items) self.old self.new draws.old.place draws.new.place
            (record { party = name; number = run }) term.now step) }
        ensures refused { IfErr result (λ e. e ≢ Memory →
            IsUnanswered (allowed hook.now.rules.items) (as_world self.old draws.old.place)
            (record { party = name; number = run }) term.now e) }
        ensures stays { IfErr result (λ e. e ≢ Memory → (self.new ≡ self.old)
            × (draws.new.place ≡ draws.old.place)) }
        ensures left { OnErr result (HasBrokenOff
            (HasTaken (allowed hook.now.rules.items) (as_world self.old draws.old.place)
            (record { party = name; number = run }) term.now) self.old self.new draws.old.place
            draws.new.place name) }
    {
        let bytes = spelled(alloc, term)?;
        let place = place_of(&self.seats, name);
        let seat = &mut self.seats[place];
        let before = events_of(seat);
        let sealer = Symbolic::new();
        let bytes = bytes.as_slice();
        let step = make_step(
            alloc,
            &mut seat.desk,
            &sealer,
            hook,
            draws,
            run,
            bytes,
            seat.clock,
        );
        see_legal(seat);
        note(&mut self.order, name, before, events_of(seat));
        step
    }

    /// Enters a step of a run.
    ///
    /// # Errors
    ///
    /// The first refusal of a received stamp; want of memory. Nothing has changed then.
    pub(crate) fn enter(&mut self, name: Name, run: u32, step: Step<Live>) -> Result<(), Refusal>
        requires declared { Among name (names_in self.old.config) }
        requires room { 0 < self.old.room }
        requires may { MayCommit (desk_in (as_world self.old 0) name) run step }
        requires symbolic { IsStep (tested_by body_of is_check) (keys_at (as_world self.old 0) name)
            (step_of step) }
        ensures ok { OnOk result (HasActed self.old self.new name
            (Commit run (moment (as_world self.old 0) name) step)) }
        ensures fit { OnOk result (got_refusal (node_at (desk_in (as_world self.old 0) name))
            (clock_in (as_world self.old 0) name) step.got ≡ None) }
        ensures refused { IfErr result (λ e. e ≢ Memory →
            got_refusal (node_at (desk_in (as_world self.old 0) name))
            (clock_in (as_world self.old 0) name) step.got ≡ Some e) }
        ensures err { OnErr result (self.new ≡ self.old) }
    {
        let place = place_of(&self.seats, name);
        let seat = &mut self.seats[place];
        let Ok(()) = seat.desk.ready() else {
            return Err(given_up(step, Refusal::Memory));
        };
        seat.desk.commit(run, step, seat.clock)?;
        self.order.push_reserved(name);
        Ok(())
    }

    /// Ends an open run; false exactly where it isn't open, and then nothing has changed. Takes no
    /// memory.
    pub(crate) fn drop_run(&mut self, name: Name, run: u32) -> bool
        requires declared { Among name (names_in self.old.config) }
        requires room { run_refusal (held_in self.old.acts (record { party = name; number = run }))
            ≡ None → 0 < self.old.room }
        ensures dropped { OnTrue result (HasActed self.old self.new name (Drop run)) }
        ensures kept { OnFalse result (self.new ≡ self.old) }
        ensures running { OnTrue result (run_refusal
            (held_in self.old.acts (record { party = name; number = run })) ≡ None) }
        ensures over { OnFalse result (run_refusal
            (held_in self.old.acts (record { party = name; number = run })) ≢ None) }
    {
        let place = place_of(&self.seats, name);
        let seat = &mut self.seats[place];
        if !seat.desk.drop_run(run) {
            return false;
        }
        self.order.push_reserved(name);
        true
    }
}
