use crate::note_list::{NoteList, Shown, add};
use crate::shown::{Challenge, ChallengeText, ChallengerTexts, FirstTexts, SecondTexts};
use mech_rows::{Slot, Value};
use std::alloc::Global;
use term_values::{Nonce, OutOfMemory, Stamp};

/// It has heard a challenge, and answers it with these texts.
#[derive(Clone, PartialEq, Eq, Drop)]
pub struct Challenged {
    /// Its own texts.
    pub own: SecondTexts,
    /// What the challenge shows.
    pub challenge: Challenge,
}

impl Shown for Challenged {
    ghost use Rattle.text_hooks.specs.Known.{challenged};

    ghost notes_of = { challenged };

    fn note(&self, alloc: Global, notes: &mut NoteList) -> Result<(), OutOfMemory> {
        self.own.note(alloc, notes)?;
        self.challenge.note(alloc, notes)
    }
}

/// It has answered a challenge, with a nonce of its own.
#[derive(Clone, PartialEq, Eq, Drop)]
pub struct Sent {
    /// Its own texts.
    pub own: SecondTexts,
    /// What the challenge shows.
    pub challenge: Challenge,
    /// The nonce of A.
    pub ra: Nonce,
}

impl Shown for Sent {
    ghost use Rattle.text_hooks.specs.Known.{sent};

    ghost notes_of = { sent };

    fn note(&self, alloc: Global, notes: &mut NoteList) -> Result<(), OutOfMemory> {
        self.own.note(alloc, notes)?;
        self.challenge.note(alloc, notes)?;
        add(notes, Slot::Ra, Value::Nonce(self.ra))
    }
}

/// It has sent a first message with a stamp.
#[derive(Clone, PartialEq, Eq, Drop)]
pub struct Stamped {
    /// Its own texts.
    pub own: FirstTexts,
    /// The stamp of A.
    pub ta: Stamp,
}

impl Shown for Stamped {
    ghost use Rattle.text_hooks.specs.Known.{stamped};

    ghost notes_of = { stamped };

    fn note(&self, alloc: Global, notes: &mut NoteList) -> Result<(), OutOfMemory> {
        self.own.note(alloc, notes)?;
        add(notes, Slot::Ta, Value::Stamp(self.ta))
    }
}

/// It has sent a challenge, and speaks no more.
#[derive(Clone, PartialEq, Eq, Drop)]
pub struct Asked {
    /// Its own text.
    pub own: ChallengeText,
    /// The nonce of B.
    pub rb: Nonce,
}

impl Shown for Asked {
    ghost use Rattle.text_hooks.specs.Known.{asked};

    ghost notes_of = { asked };

    fn note(&self, alloc: Global, notes: &mut NoteList) -> Result<(), OutOfMemory> {
        self.own.note(alloc, notes)?;
        add(notes, Slot::Rb, Value::Nonce(self.rb))
    }
}

/// It has sent a challenge, and says the third message.
#[derive(Clone, PartialEq, Eq, Drop)]
pub struct Challenging {
    /// Its own texts.
    pub own: ChallengerTexts,
    /// The nonce of B.
    pub rb: Nonce,
}

impl Shown for Challenging {
    ghost use Rattle.text_hooks.specs.Known.{challenging};

    ghost notes_of = { challenging };

    fn note(&self, alloc: Global, notes: &mut NoteList) -> Result<(), OutOfMemory> {
        self.own.note(alloc, notes)?;
        add(notes, Slot::Rb, Value::Nonce(self.rb))
    }
}
