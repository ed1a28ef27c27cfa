use crate::note_list::{NoteList, Shown, add};
use mech_rows::{Slot, Value};
use std::alloc::Global;
use term_values::{Nonce, OutOfMemory, Stamp, Text};

/// The texts of a first message that has a stamp.
#[derive(Clone, PartialEq, Eq, Drop)]
pub struct FirstTexts {
    /// The protected text.
    pub x1: Text,
    /// The clear text.
    pub x2: Text,
}

impl Shown for FirstTexts {
    ghost use Rattle.text_hooks.specs.Shown.{first_texts};

    ghost notes_of = { first_texts };

    fn note(&self, alloc: Global, notes: &mut NoteList) -> Result<(), OutOfMemory> {
        add(notes, Slot::X1, Value::Text(self.x1.copy(alloc)?))?;
        add(notes, Slot::X2, Value::Text(self.x2.copy(alloc)?))
    }
}

/// The texts of a second message that answers a challenge.
#[derive(Clone, PartialEq, Eq, Drop)]
pub struct SecondTexts {
    /// The protected text.
    pub x2: Text,
    /// The clear text.
    pub x3: Text,
}

impl Shown for SecondTexts {
    ghost use Rattle.text_hooks.specs.Shown.{second_texts};

    ghost notes_of = { second_texts };

    fn note(&self, alloc: Global, notes: &mut NoteList) -> Result<(), OutOfMemory> {
        add(notes, Slot::X2, Value::Text(self.x2.copy(alloc)?))?;
        add(notes, Slot::X3, Value::Text(self.x3.copy(alloc)?))
    }
}

/// The texts of a second message that has a stamp.
#[derive(Clone, PartialEq, Eq, Drop)]
pub struct AnswerTexts {
    /// The protected text.
    pub x3: Text,
    /// The clear text.
    pub x4: Text,
}

impl Shown for AnswerTexts {
    ghost use Rattle.text_hooks.specs.Shown.{answer_texts};

    ghost notes_of = { answer_texts };

    fn note(&self, alloc: Global, notes: &mut NoteList) -> Result<(), OutOfMemory> {
        add(notes, Slot::X3, Value::Text(self.x3.copy(alloc)?))?;
        add(notes, Slot::X4, Value::Text(self.x4.copy(alloc)?))
    }
}

/// The text of a challenge.
#[derive(Clone, PartialEq, Eq, Drop)]
pub struct ChallengeText {
    /// The text of the first message.
    pub x1: Text,
}

impl Shown for ChallengeText {
    ghost use Rattle.text_hooks.specs.Shown.{challenge_text};

    ghost notes_of = { challenge_text };

    fn note(&self, alloc: Global, notes: &mut NoteList) -> Result<(), OutOfMemory> {
        add(notes, Slot::X1, Value::Text(self.x1.copy(alloc)?))
    }
}

/// The texts of a challenge and of the third message.
#[derive(Clone, PartialEq, Eq, Drop)]
pub struct ChallengerTexts {
    /// The text of the first message.
    pub x1: Text,
    /// The protected text of the third.
    pub x4: Text,
    /// The clear text of the third.
    pub x5: Text,
}

impl Shown for ChallengerTexts {
    ghost use Rattle.text_hooks.specs.Shown.{challenger_texts};

    ghost notes_of = { challenger_texts };

    fn note(&self, alloc: Global, notes: &mut NoteList) -> Result<(), OutOfMemory> {
        add(notes, Slot::X1, Value::Text(self.x1.copy(alloc)?))?;
        add(notes, Slot::X4, Value::Text(self.x4.copy(alloc)?))?;
        add(notes, Slot::X5, Value::Text(self.x5.copy(alloc)?))
    }
}

/// What a challenge shows.
#[derive(Clone, PartialEq, Eq, Drop)]
pub struct Challenge {
    /// The nonce of B.
    pub rb: Nonce,
    /// The text beside it.
    pub x1: Text,
}

impl Shown for Challenge {
    ghost use Rattle.text_hooks.specs.Shown.{challenge};

    ghost notes_of = { challenge };

    fn note(&self, alloc: Global, notes: &mut NoteList) -> Result<(), OutOfMemory> {
        add(notes, Slot::Rb, Value::Nonce(self.rb))?;
        add(notes, Slot::X1, Value::Text(self.x1.copy(alloc)?))
    }
}

/// What a first message with a sealed stamp shows.
#[derive(Clone, PartialEq, Eq, Drop)]
pub struct SealedToken {
    /// The clear text.
    pub x2: Text,
    /// The stamp of A.
    pub ta: Stamp,
    /// The sealed text.
    pub x1: Text,
}

impl Shown for SealedToken {
    ghost use Rattle.text_hooks.specs.Shown.{sealed_token};

    ghost notes_of = { sealed_token };

    fn note(&self, alloc: Global, notes: &mut NoteList) -> Result<(), OutOfMemory> {
        add(notes, Slot::X2, Value::Text(self.x2.copy(alloc)?))?;
        add(notes, Slot::Ta, Value::Stamp(self.ta))?;
        add(notes, Slot::X1, Value::Text(self.x1.copy(alloc)?))
    }
}

/// What a first message with a checked stamp shows.
#[derive(Clone, PartialEq, Eq, Drop)]
pub struct CheckedToken {
    /// The stamp of A.
    pub ta: Stamp,
    /// The text that the check covers.
    pub x1: Text,
    /// The clear text.
    pub x2: Text,
}

impl Shown for CheckedToken {
    ghost use Rattle.text_hooks.specs.Shown.{checked_token};

    ghost notes_of = { checked_token };

    fn note(&self, alloc: Global, notes: &mut NoteList) -> Result<(), OutOfMemory> {
        add(notes, Slot::Ta, Value::Stamp(self.ta))?;
        add(notes, Slot::X1, Value::Text(self.x1.copy(alloc)?))?;
        add(notes, Slot::X2, Value::Text(self.x2.copy(alloc)?))
    }
}
