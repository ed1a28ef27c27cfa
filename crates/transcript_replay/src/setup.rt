ghost use Rattle.std.specs.Prelude.{◌≡◌, [], IfOk, IfErr, OnOk};
ghost use Rattle.script_text.specs.declared.line.Line.TheVariants as LineOf;
ghost use Rattle.script_text.specs.declared.line.Line.{Line as LineSaid};
ghost use Rattle.world_run.specs.Conditions.{KeepsConditions};
ghost use Rattle.transcript_replay.specs.Ends.{HeardSo, IsBadBy, IsBroken};
ghost use Rattle.transcript_replay.specs.Players.{nobody, set_up};
ghost use Rattle.transcript_replay.specs.Runs.{Does};
ghost use Rattle.transcript_replay.specs.Said.{Says};

use crate::fitting::{fits_pair, fits_part, fits_party};
use crate::reading::line_of;
use crate::reason::Reason;
use crate::stop::LineFault;
use script_text::Line;
use std::alloc::Global;
use term_values::{Name, Part, StampKind};
use text_hooks::Rule;
use world_run::{Config, Pair, Party};

/// What the lines before the first event line have said.
#[derive(Drop)]
pub(crate) struct Setup {
    /// The parties, pairs and parts.
    pub config: Config,
    /// The rules on texts.
    pub rules: Vec<Rule>,
}

impl Setup {
    /// Nothing was said yet.
    pub fn new(alloc: Global) -> Setup
        ensures config { result.config ≡ nobody }
        ensures rules { result.rules.items ≡ [] }
    {
        Setup {
            config: Config {
                parties: Vec::new(alloc),
                pairs: Vec::new(alloc),
                own: Vec::new(alloc),
            },
            rules: Vec::new(alloc),
        }
    }

    #[tactic(auto, using(crate::proofs::Adding::party_fits))]
    fn party(&mut self, name: Name, kind: StampKind, window: u32) -> Result<(), LineFault>
        requires { KeepsConditions self.old.config }
        ensures ok { OnOk result (Does (set_up self.old.config self.old.rules.items)
            (LineOf.Party name kind window) (set_up self.new.config self.new.rules.items) []) }
        ensures bad { IfErr result (IsBroken self.old.config (LineOf.Party name kind window)) }
    {
        let party = Party {
            name,
            server: false,
            kind,
            window,
        };
        if !fits_party(&self.config, &party) {
            return Err(LineFault::Bad(Reason::Config));
        }
        self.config.parties.push(party)?;
        Ok(())
    }

    #[tactic(auto, using(crate::proofs::Adding::pair_kept, crate::proofs::Adding::pair_fits))]
    fn pair(&mut self, a: Name, b: Name, part: Part, revealed: bool) -> Result<(), LineFault>
        requires { KeepsConditions self.old.config }
        ensures ok { OnOk result (Does (set_up self.old.config self.old.rules.items)
            (LineOf.Pair a b part revealed) (set_up self.new.config self.new.rules.items) []) }
        ensures bad { IfErr result (IsBroken self.old.config (LineOf.Pair a b part revealed)) }
    {
        let pair = Pair {
            a,
            b,
            part,
            revealed,
        };
        if !fits_pair(&self.config, &pair) {
            return Err(LineFault::Bad(Reason::Config));
        }
        self.config.pairs.push(pair)?;
        Ok(())
    }

    #[tactic(auto, using(crate::proofs::Adding::own_kept, crate::proofs::Adding::own_fits))]
    fn own(&mut self, part: Part) -> Result<(), LineFault>
        requires { KeepsConditions self.old.config }
        ensures ok { OnOk result (Does (set_up self.old.config self.old.rules.items)
            (LineOf.Own part) (set_up self.new.config self.new.rules.items) []) }
        ensures bad { IfErr result (IsBroken self.old.config (LineOf.Own part)) }
    {
        if !fits_part(&self.config, &part) {
            return Err(LineFault::Bad(Reason::Config));
        }
        self.config.own.push(part)?;
        Ok(())
    }

    fn allow(&mut self, rule: Rule) -> Result<(), LineFault>
        ensures ok { OnOk result (Does (set_up self.old.config self.old.rules.items)
            (LineOf.Allow rule) (set_up self.new.config self.new.rules.items) []) }
        ensures bad { IfErr result (IsBroken self.old.config (LineOf.Allow rule)) }
    {
        self.rules.push(rule)?;
        Ok(())
    }

    fn set(&mut self, line: Line) -> Result<bool, LineFault>
        requires { KeepsConditions self.old.config }
        ensures ok { IfOk result (HeardSo (set_up self.old.config self.old.rules.items) line
            (set_up self.new.config self.new.rules.items)) }
        ensures bad { IfErr result (IsBroken self.old.config line) }
    {
        match line {
            Line::Party { name, kind, window } => self.party(name, kind, window)?,
            Line::Pair {
                a,
                b,
                part,
                revealed,
            } => self.pair(a, b, part, revealed)?,
            Line::Own { part } => self.own(part)?,
            Line::Allow { rule } => self.allow(rule)?,
            Line::Empty => {}
            Line::Clock { .. } | Line::Open { .. } | Line::Give { .. } | Line::Drop { .. } => {
                return Ok(true);
            }
        }
        Ok(false)
    }

    /// Hears a line before the first event line. Answers whether it is the first event line.
    pub fn hear(&mut self, alloc: Global, text: &[u8]) -> Result<bool, LineFault>
        requires { KeepsConditions self.old.config }
        ensures ok { IfOk result (λ event. (l : LineSaid) × Says [] text.now l
            × HeardSo (set_up self.old.config self.old.rules.items) l
            (set_up self.new.config self.new.rules.items) event) }
        ensures bad { IfErr result (IsBadBy (set_up self.old.config self.old.rules.items)
            text.now) }
    {
        let line = line_of(alloc, text, &[])?;
        self.set(line)
    }
}
