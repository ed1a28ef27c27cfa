ghost use Rattle.std.specs.Prelude.{◌≡◌, ℕ, List, Some, None, true, false, take, length};
ghost use Rattle.term_values.specs.Trees.{Among};
ghost use Rattle.mech_rows.specs.declared.kinds.Slot.{Slot};
ghost use Rattle.mech_rows.specs.Facts.{peer_of};
ghost use Rattle.mech_rows.specs.Rows.{agreed_of};
ghost use Rattle.agreement_laws.specs.declared.history.Happened.{Happened};
ghost use Rattle.agreement_laws.specs.Histories.{HistoryOf};
ghost use Rattle.agreement_laws.specs.Partners.{run_of};
ghost use Rattle.agreement_laws.specs.Sound.{AgreesAt, IsSound};
ghost use Rattle.agreement_laws.specs.Traces.{RunId};
ghost use Rattle.agreement_laws.specs.Worlds.{trace};
ghost use Rattle.world_run.specs.Claims.{Claims, Tells};
ghost use Rattle.world_run.specs.Views.{WorldView, entries, run_in, shown_of, told_of};
ghost use Rattle.transcript_replay.specs.Completions.{agreeing_with, done_text, has_claim};
ghost use Rattle.transcript_replay.specs.Cuts.{lines_of};
ghost use Rattle.transcript_replay.specs.Printed.{done_line};
ghost use Rattle.transcript_replay.specs.Runs.{Front, IsOutput, IsWorldAfter, IsWorldOf, Whole};
ghost use Rattle.transcript_replay.specs.Runs.{is_over};

/// An input has one output with one status at most, and what is printed of a script that was cut off is a front of it.
pub fn one_output()
    ensures one { (bytes text other : List ℕ) (status last : ℕ) →
        IsOutput bytes (Whole status) text → IsOutput bytes (Whole last) other → (text ≡ other)
        × (status ≡ last) }
    ensures front { (bytes text other : List ℕ) (status : ℕ) → IsOutput bytes (Whole status) text →
        IsOutput bytes Front other → (n : ℕ) × (other ≡ take n text) }
{}

/// An input has an output. So what is written and the status are one, want of memory and faults aside.
pub fn some_output()
    ensures some { (bytes : List ℕ) → (text : List ℕ) × (status : ℕ)
        × IsOutput bytes (Whole status) text }
{}

/// The world that a script leads to, whatever lines are in it, is sound: each completion with a claim has a partner, no run agrees
/// with two of them, and no secret is derivable. So is the world after each of its lines. It speaks of what was read, so of runs that were cut off too.
pub fn worlds_of_scripts_are_sound()
    ensures sound { (bytes : List ℕ) (w : WorldView) → IsWorldOf bytes w →
        IsSound w.config (trace (entries w.acts)) }
    ensures after { (bytes : List ℕ) (k : ℕ) (w : WorldView) → IsWorldAfter bytes k w →
        IsSound w.config (trace (entries w.acts)) }
{}

/// An input within the limits leads to a world, and to one only; so do its first lines, however many, and the world after all of them is
/// that of the input.
pub fn scripts_lead_to_one_world()
    ensures some { (bytes : List ℕ) → is_over bytes ≡ false → (w : WorldView) × IsWorldOf bytes w }
    ensures one { (bytes : List ℕ) (v w : WorldView) → IsWorldOf bytes v → IsWorldOf bytes w →
        v ≡ w }
    ensures some_after { (bytes : List ℕ) (k : ℕ) → is_over bytes ≡ false → (w : WorldView)
        × IsWorldAfter bytes k w }
    ensures one_after { (bytes : List ℕ) (k : ℕ) (v w : WorldView) → IsWorldAfter bytes k v →
        IsWorldAfter bytes k w → v ≡ w }
    ensures last { (bytes : List ℕ) (w : WorldView) → IsWorldOf bytes w →
        IsWorldAfter bytes (length (lines_of bytes)) w }
{}

/// In the world that a script leads to, each done run with a claim has a partner to be printed, and that one is a run of the world which
/// agrees with it, as the theory says it.
pub fn claims_of_scripts_have_partners()
    ensures partner { (bytes : List ℕ) (w : WorldView) (h : HistoryOf) (c : Happened)
        (slots : List Slot) → IsWorldOf bytes w → Tells h w → Among c h.happened →
        Claims w.config c slots → (n : ℕ) × (agreeing_with (told_of w) (shown_of c) ≡ Some n)
        × (id : RunId) × (run_in w.runs n ≡ Some id)
        × AgreesAt (trace (entries w.acts)) (peer_of c.head.role) slots (run_of c) id }
{}

/// A done run is shown with a claim exactly where its role agrees on something and no long-term pair of its row is revealed (`Claims`). After
/// each line of an input within the limits, up to a bad one, the line of such a run names a partner: a run of the world then, which agrees
/// with it as the theory says it. The line of another done run says that it has no claim.
pub fn printed_claims_have_partners()
    ensures shown { (w : WorldView) (c : Happened) (slots : List Slot) → Claims w.config c slots →
        has_claim (told_of w) c.head ≡ true }
    ensures claims { (w : WorldView) (c : Happened) → c.done ≡ true →
        has_claim (told_of w) c.head ≡ true → (slots : List Slot) × Claims w.config c slots }
    ensures none { (w : WorldView) (c : Happened) → c.done ≡ true →
        has_claim (told_of w) c.head ≡ false →
        done_text (told_of w) (Some (shown_of c)) ≡ done_line c.run c.head None }
    ensures partner { (bytes : List ℕ) (k : ℕ) (w : WorldView) (h : HistoryOf) (c : Happened) →
        IsWorldAfter bytes k w → Tells h w → Among c h.happened → c.done ≡ true →
        has_claim (told_of w) c.head ≡ true → (n : ℕ)
        × (done_text (told_of w) (Some (shown_of c)) ≡ done_line c.run c.head (Some (Some n)))
        × (slots : List Slot) × (agreed_of c.head.mech c.head.role ≡ Some slots) × (id : RunId)
        × (run_in w.runs n ≡ Some id) × AgreesAt (trace (entries w.acts))
        (peer_of c.head.role) slots (run_of c) id }
{}
