ghost use Rattle.std.specs.Prelude.{◌≡◌, ◌≢◌, ◌≤◌, ◌↔◌, ◌⊎◌, Bool, true, false, [], Ok, Err, suc};
ghost use Rattle.std.specs.Prelude.{IsTrue, OnOk, IfOk, IfErr, is_some, is_none};
ghost use Rattle.tagged_codec.specs.Grammar.{IsInLimits};
ghost use Rattle.outside.specs.Causes.{Rose};
ghost use Rattle.mech_rows.specs.Notes.{are_of_kinds, terms_of};
ghost use Rattle.mech_rows.specs.Heads.{Head};
ghost use Rattle.mech_rows.specs.Openings.{has_parts, opened_state};
ghost use Rattle.mech_rows.specs.Laws.{HasRowSlots};
ghost use Rattle.mech_rows.specs.Replies.{Says, has_acted, in_order, needs_stamp, receives};
ghost use Rattle.mech_rows.specs.Replies.{run_verdict, sends, sends_first};
ghost use Rattle.mech_rows.specs.Rings.{keys_in};
ghost use Rattle.mech_rows.specs.Rows.{row_of};
ghost use Rattle.mech_rows.specs.Runs.{nth};
ghost use Rattle.mech_rows.specs.declared.refusal.Refusal.TheVariants.{DrawFault, Memory};
ghost use Rattle.mech_rows.specs.declared.refusal.Refusal.TheVariants.{WrongPass};
ghost use Rattle.text_hooks.specs.Drawn.{DrawnFor, MovedFor, HasSayCause};
ghost use Rattle.text_hooks.specs.Leading.{Leads, Refuses};
ghost use Rattle.text_hooks.specs.Phases.{phase_of, stamps_next};
ghost use Rattle.text_hooks.specs.Rules.{allowed};

use crate::delivery::Delivery;
use crate::hook::Hook;
use crate::note_list::NoteList;
use crate::order::in_slot_order;
use crate::phase::Phase;
use mech_rows::{Got, Notes, Opening, Refusal, Ring, RunHead, Stated, Texts};
use outside::Draws;
use seal_trait::Sealer;
use std::alloc::Global;
use term_values::{OutOfMemory, Stamp, Term};

/// What a message gave.
#[derive(Drop)]
pub struct Taken<T> {
    /// The state that knows what the message showed.
    pub after: T,
    /// The protected items that were opened or tested, in the order of the message.
    pub opened: Vec<Opening>,
    /// The stamps to judge, in their order.
    pub got: Vec<Got>,
}

/// What a state says next.
#[derive(Drop)]
pub struct Reply<T> {
    /// The state after it.
    pub after: T,
    /// The message.
    pub message: Term,
    /// The protected items that it made, in the order of the message.
    pub sealed: Vec<Opening>,
}

/// A typed state of a role in a mechanism: the run that it stands for, what it takes, and what it
/// says. The ring has the parts that the role uses. A role gives `begin`, `head`, `copy`, `same`,
/// `note`, `phase`, `read` and `speak`; the others are made of these.
pub trait RoleState: Stated {
    /// The heads of the runs that it stands for.
    ghost plays: { Head → Bool };

    /// The state of a run that begins: its own texts are noted, the empty text where none is given.
    ///
    /// # Errors
    ///
    /// Want of memory alone.
    fn begin(alloc: Global, head: &RunHead, texts: &Texts) -> Result<Self, OutOfMemory>
        requires plays { plays head.now ≡ true }
        ensures opened { IfOk result (λ s. Self.state_of s ≡ opened_state head.now texts.now) };

    /// Who takes part in the run, and as what. Takes no memory.
    fn head(&self) -> RunHead
        ensures head { result ≡ (Self.state_of self.now).head };

    /// An equal state.
    ///
    /// # Errors
    ///
    /// Want of memory alone.
    fn copy(&self, alloc: Global) -> Result<Self, OutOfMemory>
        ensures equal { IfOk result (λ s. Self.state_of s ≡ Self.state_of self.now) };

    /// Whether both stand for one run. Takes no memory.
    fn same(&self, other: &Self) -> bool
        ensures same { IsTrue result ↔ (Self.state_of self.now ≡ Self.state_of other.now) };

    /// Adds what the run has noted to an empty list, in the order of noting.
    ///
    /// # Errors
    ///
    /// Want of memory alone.
    fn note(&self, alloc: Global, notes: &mut NoteList) -> Result<(), OutOfMemory>
        requires empty { notes.old.items ≡ [] }
        ensures noted { OnOk result (terms_of notes.new.items ≡ (Self.state_of self.now).notes) }
        ensures kinds { OnOk result (are_of_kinds notes.new.items ≡ true) };

    /// Where the run stands. Takes no memory.
    fn phase(&self) -> Phase
        ensures phase { result ≡ phase_of (Self.state_of self.now) }
        ensures acted { has_acted (Self.state_of self.now) ≡ true }
        ensures slots { HasRowSlots (Self.state_of self.now) };

    /// Judges a message of the next pass, and takes it where it fits.
    ///
    /// # Errors
    ///
    /// The first refusal of the verdict, 4 to 8 and 14; `WrongPass` where its role doesn't receive
    /// the next pass; want of memory.
    fn read<S: Sealer>(&self, delivery: &Delivery<S>) -> Result<Taken<Self>, Refusal>
        requires parts { has_parts delivery.now.ring.now (Self.state_of self.now).head ≡ true }
        requires limits { IsInLimits delivery.now.term.now }
        ensures fit { IfOk result (λ t. Leads S.opens S.checks delivery.now
            (Self.state_of self.now) (Self.state_of t.after) t.opened.items t.got.items) }
        ensures refused { IfErr result
            (Refuses S.opens S.checks delivery.now (Self.state_of self.now)) };

    /// Says the message of its next pass. A stamp is given exactly where one is needed.
    ///
    /// # Errors
    ///
    /// `WrongPass` where its role doesn't send the next pass; `DrawFault` where a draw failed, and
    /// the count of faults rose; want of memory, where it stayed.
    fn speak<S: Sealer, D: Draws>(
        &self,
        alloc: Global,
        sealer: &S,
        ring: &Ring,
        draws: &mut D,
        stamp: Option<Stamp>,
    ) -> Result<Reply<Self>, Refusal>
        requires parts { has_parts ring.now (Self.state_of self.now).head ≡ true }
        requires stamp { is_some stamp ≡ needs_stamp (Self.state_of self.now) }
        ensures sending { OnOk result (sends (Self.state_of self.now) ≡ true) }
        ensures says { IfOk result (λ r. Says S.opens S.checks (keys_in ring.now)
            (Self.state_of self.now) (Self.state_of r.after) r.message r.sealed.items stamp) }
        ensures limits { IfOk result (λ r. IsInLimits r.message) }
        ensures drawn { IfOk result (λ r. DrawnFor S.iv_of (S.wants_iv sealer.now)
            (D.told draws.old) (D.told draws.new) stamp
            (Self.state_of self.now) (Self.state_of r.after) r.sealed.items) }
        ensures moved { MovedFor (Self.state_of self.now) (D.told draws.old) (D.told draws.new) }
        ensures undrawn { sends (Self.state_of self.now) ≡ false → draws.new ≡ draws.old }
        ensures cause { HasSayCause (sends (Self.state_of self.now))
            (D.fault_count draws.old) (D.fault_count draws.new) result };

    /// What the run has noted, in the order of the slots.
    ///
    /// # Errors
    ///
    /// Want of memory alone.
    final fn notes(&self, alloc: Global) -> Result<Notes, OutOfMemory>
        ensures notes { IfOk result (λ ns. terms_of ns ≡ in_order (Self.state_of self.now).notes) }
        ensures kinds { IfOk result (λ ns. are_of_kinds ns ≡ true) }
    {
        let mut list = Vec::new(alloc);
        self.note(alloc, &mut list)?;
        in_slot_order(alloc, list.as_slice())
    }

    /// The number of its next pass, from 0. Takes no memory.
    final fn next(&self) -> u8
        ensures next { result ≡ (Self.state_of self.now).next }
    {
        self.phase().next
    }

    /// Whether it is at the first pass and its role sends that. Takes no memory.
    final fn sends_first(&self) -> bool
        ensures first { result ≡ sends_first (Self.state_of self.now) }
    {
        let phase = self.phase();
        phase.sends && phase.next == 0
    }

    /// Whether its role sends the next pass. Takes no memory.
    final fn sends(&self) -> bool
        ensures sends { result ≡ sends (Self.state_of self.now) }
    {
        self.phase().sends
    }

    /// Whether its role receives the next pass. Takes no memory.
    final fn receives(&self) -> bool
        ensures receives { result ≡ receives (Self.state_of self.now) }
    {
        self.phase().receives
    }

    /// Whether its role has acted in the last pass. Takes no memory.
    final fn is_done(&self) -> bool
        ensures done { result ≡ is_none
            (nth (row_of (Self.state_of self.now).head.mech) (Self.state_of self.now).next) }
    {
        self.phase().done
    }

    /// Whether the next message that its role sends has a stamp to issue. Takes no memory.
    final fn needs_stamp(&self) -> bool
        ensures needs { result ≡ stamps_next (Self.state_of self.now) }
    {
        self.phase().stamps
    }

    /// Whether its role sends the next pass and issues a stamp for it. Takes no memory.
    #[tactic(auto, using(crate::proofs::Phases::stamps_now, crate::proofs::Phases::stamps_not))]
    final fn stamps_now(&self) -> bool
        ensures needs { result ≡ needs_stamp (Self.state_of self.now) }
    {
        let phase = self.phase();
        phase.sends && phase.stamps
    }

    /// Judges a message, and takes it where it fits.
    ///
    /// # Errors
    ///
    /// The first refusal of the verdict, 4 to 8 and 14; `WrongPass` where its role doesn't receive
    /// the next pass; want of memory.
    final fn take<S: Sealer>(
        &self,
        alloc: Global,
        sealer: &S,
        ring: &Ring,
        hook: &Hook,
        term: &Term,
    ) -> Result<Taken<Self>, Refusal>
        requires parts { has_parts ring.now (Self.state_of self.now).head ≡ true }
        requires limits { IsInLimits term.now }
        ensures acted { has_acted (Self.state_of self.now) ≡ true }
        ensures fit { IfOk result (λ t. run_verdict S.opens S.checks
            (allowed hook.now.rules.items) (keys_in ring.now) (Self.state_of self.now) term.now
            ≡ Ok (record {
              notes = (Self.state_of t.after).notes;
              opened = t.opened.items;
              got = t.got.items;
            })) }
        ensures same_head { IfOk result (λ t.
            (Self.state_of t.after).head ≡ (Self.state_of self.now).head) }
        ensures moves { IfOk result (λ t.
            (Self.state_of t.after).next ≡ suc (Self.state_of self.now).next) }
        ensures receiving { IfErr result (λ e. e ≡ Memory →
            receives (Self.state_of self.now) ≡ true) }
        ensures refused { IfErr result (λ e. e ≢ Memory →
            run_verdict S.opens S.checks (allowed hook.now.rules.items) (keys_in ring.now)
            (Self.state_of self.now) term.now ≡ Err e) }
    {
        if !self.phase().receives {
            return Err(Refusal::WrongPass);
        }
        self.read(&Delivery {
            alloc,
            sealer,
            ring,
            hook,
            term,
        })
    }

    /// Says the message of its next pass. A stamp is given exactly where one is needed.
    ///
    /// # Errors
    ///
    /// `WrongPass`, only where its role doesn't send the next pass; `DrawFault`, only where the
    /// count of faults rose in this call; want of memory, only where the count stayed.
    #[tactic(auto, using(crate::proofs::Draws::not_moved))]
    final fn say<S: Sealer, D: Draws>(
        &self,
        alloc: Global,
        sealer: &S,
        ring: &Ring,
        draws: &mut D,
        stamp: Option<Stamp>,
    ) -> Result<Reply<Self>, Refusal>
        requires parts { has_parts ring.now (Self.state_of self.now).head ≡ true }
        requires stamp { is_some stamp ≡ needs_stamp (Self.state_of self.now) }
        ensures sending { OnOk result (sends (Self.state_of self.now) ≡ true) }
        ensures says { IfOk result (λ r. Says S.opens S.checks (keys_in ring.now)
            (Self.state_of self.now) (Self.state_of r.after) r.message r.sealed.items stamp) }
        ensures limits { IfOk result (λ r. IsInLimits r.message) }
        ensures drawn { IfOk result (λ r. DrawnFor S.iv_of (S.wants_iv sealer.now)
            (D.told draws.old) (D.told draws.new) stamp
            (Self.state_of self.now) (Self.state_of r.after) r.sealed.items) }
        ensures moved { MovedFor (Self.state_of self.now) (D.told draws.old) (D.told draws.new) }
        ensures later { D.fault_count draws.old ≤ D.fault_count draws.new }
        ensures undrawn { sends (Self.state_of self.now) ≡ false → draws.new ≡ draws.old }
        ensures quiet { OnOk result (D.fault_count draws.new ≡ D.fault_count draws.old) }
        ensures memory { IfErr result (λ e. e ≡ Memory →
            D.fault_count draws.new ≡ D.fault_count draws.old) }
        ensures refused { IfErr result (λ e. e ≢ Memory →
            ((sends (Self.state_of self.now) ≡ false) × (e ≡ WrongPass))
            ⊎ ((e ≡ DrawFault) × Rose (D.fault_count draws.old) (D.fault_count draws.new))) }
    {
        if !self.phase().sends {
            return Err(Refusal::WrongPass);
        }
        self.speak(alloc, sealer, ring, draws, stamp)
    }
}
