ghost use Rattle.std.specs.Prelude.{true, ◌≡◌, ◌≢◌, ◌↔◌, ◌+◌, [], Err, None, Some, ℕ, map};
ghost use Rattle.std.specs.Prelude.{slice_get, IsTrue, OnOk, IfOk, IfErr};
ghost use Rattle.std.specs.Option.{option_copied};
ghost use Rattle.tagged_codec.specs.Grammar.{IsInLimits};
ghost use Rattle.mech_rows.specs.declared.refusal.Refusal.TheVariants.{Memory};
ghost use Rattle.text_hooks.specs.Rules.{allowed};
ghost use Rattle.agreement_laws.specs.Configs.{Party as PartyOf};
ghost use Rattle.node_desk.specs.Lives.{plays_live};
ghost use Rattle.world_run.specs.Views.{message_at};
ghost use Rattle.world_run.specs.Conditions.{KeepsConditions};
ghost use Rattle.world_run.specs.declared.bad_config.BadConfig.TheVariants.{Condition};

use crate::bad_config::BadConfig;
use crate::beginning::{known_parts, parties_for, revealed_names};
use crate::conditions::keeps_conditions;
use crate::config::Config;
use crate::given::Given;
use crate::giving::{drop_in, give_in};
use crate::opened::Opened;
use crate::opening::open_in;
use crate::scene::Scene;
use agreement_laws::History;
use attacker_model::Knowledge;
use fresh_values::Counted;
use mech_rows::{Refusal, RunHead, Texts};
use std::alloc::Global;
use std::marker::Model;
use term_values::{Name, Term};
use text_hooks::Hook;

/// A world: its parties, one attacker who hears and says all, and what has happened. The type keeps
/// that it is one of the worlds that the laws on agreement speak of, so that it is sound.
///
/// Contracts see the configuration, what the parties did in order, their clocks in milliseconds,
/// how many values were drawn, and of each run that has a number its party and its number there.
#[derive(Drop)]
pub struct World {
    alloc: Global,
    scene: Scene,
}

impl Model for World {
    ghost use Rattle.term_values.specs.Codes.{coded_tree};
    ghost use Rattle.std.specs.Coded.{codes};
    ghost use Rattle.world_run.specs.Views.{WorldView};
    ghost use Rattle.world_run.specs.Kept.{IsKept, view_of};

    ghost Value = { WorldView };

    ghost coded = { Prim.hlevel (codes, coded_tree) };

    ghost view = { λ w. view_of w.scene };

    ghost invariant = { λ w. IsKept w.scene };
}

impl World {
    ghost use Rattle.term_values.specs.Trees.{Tree};
    ghost use Rattle.attacker_model.specs.Derivation.{Derivable};
    ghost use Rattle.agreement_laws.specs.declared.history.Happened.{Happened};
    ghost use Rattle.agreement_laws.specs.Sound.{IsSound};
    ghost use Rattle.agreement_laws.specs.Traces.{known_before};
    ghost use Rattle.agreement_laws.specs.Worlds.{IsWorld, trace};
    ghost use Rattle.world_run.specs.Clocks.{Raises};
    ghost use Rattle.world_run.specs.Gives.{Drops, IsGiven, IsGiveLeft, IsGiveRefused, MayBeGiven};
    ghost use Rattle.world_run.specs.Kept.{IsGenuine};
    ghost use Rattle.world_run.specs.Opens.{IsOpened, IsOpenLeft, IsOpenRefused, open_refusal};
    ghost use Rattle.world_run.specs.Turns.{HasGrown, HasNumbers};
    ghost use Rattle.world_run.specs.Views.{entries, known_in, sent_in, told_by, told_of};

    /// A world in which nothing has happened: all clocks are 0, no value was drawn, and the
    /// attacker has its own parts and those of the revealed pairs.
    ///
    /// # Errors
    ///
    /// `Condition` exactly where the configuration breaks a condition; want of memory.
    pub fn new(alloc: Global, config: &Config) -> Result<World, BadConfig>
        ensures begins { IfOk result (λ w. w
            ≡ record {
              config = config.now;
              acts = [];
              clocks = map
                  (λ (p : PartyOf). 0) config.now.parties;
              draws = 0;
              runs = [];
            }) }
        ensures fit { OnOk result (KeepsConditions config.now) }
        ensures broken { IfErr result (λ e. e ≡ Condition → KeepsConditions config.now → ⊥) }
    {
        if !keeps_conditions(config) {
            return Err(BadConfig::Condition);
        }
        let parties = parties_for(alloc, config)?;
        let parts = known_parts(alloc, config)?;
        let knowledge = Knowledge::new(alloc, parts.as_slice())?;
        let history = History {
            revealed: revealed_names(alloc, config)?,
            happened: Vec::new(alloc),
            sent: Vec::new(alloc),
            given: Vec::new(alloc),
        };
        let scene = Scene {
            parties,
            draws: Counted::new(),
            knowledge,
            history,
            runs: Vec::new(alloc),
        };
        Ok(World { alloc, scene })
    }

    /// What has happened, as it stands. It is what a world of the laws has come to, so what they
    /// say of worlds holds of it: each completion with a claim has a partner, no run agrees with
    /// two of them, and no secret is derivable. Its runs have the numbers 1, 2, and so on. Takes no
    /// memory.
    pub fn history(&self) -> &History
        ensures told { told_by result.now ≡ told_of self.now }
        ensures numbered { (i : ℕ) (r : Happened) → slice_get result.now.happened i ≡ Some r →
            r.run ≡ i + 1 }
        ensures genuine { IsGenuine self.now }
        ensures world { IsWorld self.now.config (entries self.now.acts) }
        ensures sound { IsSound self.now.config (trace (entries self.now.acts)) }
    {
        &self.scene.history
    }

    /// What the attacker knows; what it derives is what can be derived in the eyes of the laws.
    /// Takes no memory.
    pub fn knowledge(&self) -> &Knowledge
        ensures given { result.now.given ≡ known_in self.now }
        ensures known { (t : Tree) → Derivable result.now.given t
            ↔ Derivable (known_before self.now.config (trace (entries self.now.acts))) t }
    {
        &self.scene.knowledge
    }

    /// Message m, from 1, in the order of sending; None exactly where no message m was sent. Takes
    /// no memory.
    pub fn message(&self, m: u32) -> Option<&Term>
        ensures sent { option_copied result ≡ message_at (sent_in self.now.acts) m }
    {
        message_of(&self.scene.history, m)
    }

    /// Whether there are numbers for one more run and one more message, and draws for it: up to
    /// 4,294,967,294 runs and messages, and 18,446,744,073,709,551,599 draws. Takes no memory.
    pub fn has_numbers(&self) -> bool
        ensures { IsTrue result ↔ HasNumbers self.now }
    {
        let history = &self.scene.history;
        self.scene.runs.len() < 4_294_967_295
            && history.sent.len() < 4_294_967_295
            && self.scene.draws.count() < 18_446_744_073_709_551_600
    }

    /// Raises the clock of a party to the greater of itself and that time, in milliseconds, and
    /// answers it. Takes no memory.
    ///
    /// # Errors
    ///
    /// `UnknownParty` exactly where there is no party of that name; nothing has changed then.
    pub fn clock(&mut self, party: Name, ms: u64) -> Result<u64, Refusal>
        ensures raises { Raises self.old party ms result self.new }
    {
        if !self.scene.parties.has(party) {
            return Err(Refusal::UnknownParty);
        }
        Ok(self.scene.parties.raise(party, ms))
    }

    /// Opens a run of the party whose name is the head's own, gives it the next number, and lets it
    /// say the first message where its role does so. There are numbers for the run and its message,
    /// and draws for it; the mechanism is one of E1 to E4 and C1 to C4.
    ///
    /// # Errors
    ///
    /// The first that holds of `UnknownParty`, `WrongKind`, `SelfPeer`, `NoKey` and `TableFull`,
    /// after which nothing has changed, and `StampsSpent`, after which the party has opened the run
    /// and dropped it. Want of memory, only where none of the first five holds, after which nothing
    /// has changed, or the party has opened the run and dropped it, and may have issued its stamp
    /// before; what was drawn isn't given back. A run that was dropped so has no number.
    pub fn open(&mut self, head: &RunHead, texts: &Texts) -> Result<Opened, Refusal>
        requires plays { plays_live head.now ≡ true }
        requires numbers { HasNumbers self.old }
        ensures ok { IfOk result (λ o. IsOpened self.old head.now texts.now o self.new) }
        ensures refused { IfErr result (λ e. e ≢ Memory →
            IsOpenRefused self.old head.now texts.now e self.new) }
        ensures left { result ≡ Err Memory → IsOpenLeft self.old head.now texts.now self.new }
        ensures memory { result ≡ Err Memory → open_refusal self.old head.now ≡ None }
        ensures grows { HasGrown self.old self.new }
    {
        open_in(self.alloc, &mut self.scene, head, texts)
    }

    /// Gives a term, which is within the limits of the codec, to a run as its next message. A reply
    /// is known to the attacker at once. There are numbers for a run and a message, and draws for
    /// the reply.
    ///
    /// # Errors
    ///
    /// The first that holds: `NotDerivable`, `Unborn`, `UnknownRun`, `EndedRun`, `WrongPass`; of
    /// each part of the message `Unopened`, `WrongShape`, `WrongNames`, `WrongValue`;
    /// `TextRefused`; `StampsSpent`; nothing has changed then. Of each received stamp
    /// `WrongStampKind`, `Early`, `Late`, `Repeated`, `StoreFull`; the party has issued the stamp
    /// of its reply then, and drawn the values. Want of memory, only where the term may be
    /// delivered and there is a run of that number, after which nothing has changed, or the stamp
    /// was issued; what was drawn isn't given back.
    pub fn give(&mut self, hook: &Hook, run: u32, term: &Term) -> Result<Given, Refusal>
        requires limits { IsInLimits term.now }
        requires numbers { HasNumbers self.old }
        ensures ok { IfOk result (λ g. IsGiven
            (allowed hook.now.rules.items) self.old run term.now g self.new) }
        ensures refused { IfErr result (λ e. e ≢ Memory →
            IsGiveRefused (allowed hook.now.rules.items) self.old run term.now e self.new) }
        ensures left { result ≡ Err Memory →
            IsGiveLeft (allowed hook.now.rules.items) self.old run term.now self.new }
        ensures memory { result ≡ Err Memory → MayBeGiven self.old run term.now }
        ensures grows { HasGrown self.old self.new }
    {
        give_in(self.alloc, &mut self.scene, hook, run, term)
    }

    /// Drops an open run, before it is done. Takes no memory.
    ///
    /// # Errors
    ///
    /// `UnknownRun` and `EndedRun`, each exactly where it holds; nothing has changed then.
    pub fn drop(&mut self, run: u32) -> Result<(), Refusal>
        ensures drops { Drops self.old run result self.new }
    {
        drop_in(&mut self.scene, run)
    }
}

fn message_of(history: &History, m: u32) -> Option<&Term>
    ensures sent { option_copied result ≡ message_at history.now.sent m }
{
    sent_at(history.sent.as_slice(), m)
}

fn sent_at(sent: &[Term], m: u32) -> Option<&Term>
    ensures sent { option_copied result ≡ message_at sent.now m }
{
    if m == 0 {
        return None;
    }
    sent.get(m as usize - 1)
}
