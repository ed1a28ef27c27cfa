ghost use Rattle.std.specs.Prelude.{◌≡◌, true, ℕ};
ghost use Rattle.mech_rows.specs.Facts.{one_tag_one_body};
ghost use Rattle.mech_rows.specs.Found.{Once};
ghost use Rattle.mech_rows.specs.Heads.{Head};
ghost use Rattle.mech_rows.specs.Lawful.{Receives};
ghost use Rattle.mech_rows.specs.Laws.{HasOneMessage, IsSameRun, Judge, LeavesOneChoice};
ghost use Rattle.mech_rows.specs.Laws.{OneWelcome, SameLookups, SameSlots, TakenIsWelcome};
ghost use Rattle.mech_rows.specs.Laws.{WelcomeIsTaken};
ghost use Rattle.mech_rows.specs.Rounds.{HasRowFacts};
ghost use Rattle.mech_rows.specs.Rows.{Pass};
ghost use Rattle.mech_rows.specs.Runs.{Keys, Notes, Run};
ghost use Rattle.mech_rows.specs.Verdict.{Noted, State};
ghost use Rattle.mech_rows.specs.declared.kinds.Mech.{Mech};
ghost use Rattle.term_values.specs.Trees.{Tree};

/// The row facts hold of the table, for all sixteen mechanisms.
#[tactic(auto, using(crate::proofs::Facts::one_tag_one_body_holds, crate::proofs::Facts::row_has_facts))]
pub fn row_facts()
    ensures tags { (m n : Mech) → one_tag_one_body m n ≡ true }
    ensures others { (m : Mech) → HasRowFacts m }
{}

/// A message leaves at most one choice of notes.
pub fn notes_are_determined()
    ensures alike { (keys : Keys) (run : Run) (t : Tree) → LeavesOneChoice keys run t }
{}

/// Over symbolic sealing the message of a pass is one term, which `message` computes.
pub fn messages_are_said()
    ensures one { (keys : Keys) (h : Head) (notes : Notes) → HasOneMessage keys h notes }
{}

/// For a run whose next pass its role receives, the verdict takes a message exactly where the run
/// welcomes it: it fits with some notes, and each text that it shows is allowed. There is then one
/// choice of notes.
pub fn verdicts_are_fits()
    ensures taken { (j : Judge) (s : State) (p : Pass) → Receives s p → TakenIsWelcome j s p }
    ensures fit { (j : Judge) (s : State) (p : Pass) → Receives s p → WelcomeIsTaken j s p }
    ensures one { (j : Judge) (s : State) (p : Pass) → Receives s p → OneWelcome j s p }
{}

/// Notes are their slots and their look-ups; so two states of one head and one pass, each with what
/// its row says is noted by then, are equal where their look-ups are: states that differ are runs
/// that differ.
pub fn notes_are_lookups()
    ensures notes { (n m : Noted) → Once n → Once m → SameSlots n m → SameLookups n m → n ≡ m }
    ensures states { (s t : State) → IsSameRun s t → s ≡ t }
{}
