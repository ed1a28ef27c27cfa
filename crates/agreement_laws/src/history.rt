ghost use Rattle.std.specs.Prelude.{◌≡◌, IfOk};

use mech_rows::{Notes, RunHead};
use std::alloc::Global;
use std::marker::Model;
use term_values::{Name, OutOfMemory, Part, Term};

/// A run of a world, as it stands.
#[derive(Drop)]
pub struct Happened {
    /// Its number in the world, from 1, in the order of opening.
    pub run: u32,
    pub head: RunHead,
    pub notes: Notes,
    /// It has acted in its last pass.
    pub done: bool,
    /// It is done, its role has a session key, and a part of that key was given away before it was done.
    pub exposed: bool,
}

impl Happened {
    /// An equal run.
    ///
    /// # Errors
    ///
    /// Want of memory alone.
    pub fn copy(&self, alloc: Global) -> Result<Happened, OutOfMemory>
        ensures equal { IfOk result (λ run. run ≡ self.now) }
    {
        Ok(Happened {
            run: self.run,
            head: self.head,
            notes: self.notes.copy(alloc)?,
            done: self.done,
            exposed: self.exposed,
        })
    }
}

/// What a world has come to: its runs, what was sent, and what the attacker was given. Contracts see the lists.
#[derive(Drop)]
pub struct History {
    /// The pairs of names whose long-term part is revealed.
    pub revealed: Vec<(Name, Name)>,
    /// The runs, in the order of opening.
    pub happened: Vec<Happened>,
    /// The messages, in the order of sending.
    pub sent: Vec<Term>,
    /// The parts of session keys that were given away so far.
    pub given: Vec<Part>,
}

impl Model for History {
    ghost use Rattle.agreement_laws.specs.Histories.{HistoryOf};
    ghost use Rattle.term_values.specs.Codes.{coded_tree};
    ghost use Rattle.std.specs.Coded.{codes};

    ghost Value = { HistoryOf };

    ghost coded = { Prim.hlevel (codes, coded_tree) };

    ghost view = { λ h. record { revealed = h.revealed.items; happened = h.happened.items; sent = h.sent.items; given = h.given.items } };
}

impl History {
    /// An equal history.
    ///
    /// # Errors
    ///
    /// Want of memory alone.
    pub fn copy(&self, alloc: Global) -> Result<History, OutOfMemory>
        ensures equal { IfOk result (λ history. history ≡ self.now) }
    {
        let revealed = self.revealed.to_vec(alloc)?;
        let given = self.given.to_vec(alloc)?;
        let sent = copy_terms(alloc, self.sent.as_slice())?;
        Ok(History {
            revealed,
            happened: copy_runs(alloc, self.happened.as_slice())?,
            sent,
            given,
        })
    }
}

fn copy_runs(alloc: Global, runs: &[Happened]) -> Result<Vec<Happened>, OutOfMemory>
    ensures equal { IfOk result (λ copies. copies.items ≡ runs.now) }
{
    let mut copies = Vec::new(alloc);
    for run in runs {
        copies.push(run.copy(alloc)?)?;
    }
    Ok(copies)
}

fn copy_terms(alloc: Global, terms: &[Term]) -> Result<Vec<Term>, OutOfMemory>
    ensures equal { IfOk result (λ copies. copies.items ≡ terms.now) }
{
    let mut copies = Vec::new(alloc);
    for term in terms {
        copies.push(term.copy(alloc)?)?;
    }
    Ok(copies)
}
