ghost use Rattle.std.specs.Prelude.{◌≡◌, ◌≢◌, ◌≤◌, Bool, Err, List, Result, Some, ℕ};
ghost use Rattle.agreement_laws.specs.declared.history.Happened.{Happened};
ghost use Rattle.agreement_laws.specs.Histories.{HistoryOf};
ghost use Rattle.agreement_laws.specs.Partners.{partner_of, run_of};
ghost use Rattle.agreement_laws.specs.Sound.{AgreesAt, IsSound};
ghost use Rattle.agreement_laws.specs.Traces.{RunId};
ghost use Rattle.agreement_laws.specs.Worlds.{trace};
ghost use Rattle.mech_rows.specs.declared.kinds.Mech.{Mech};
ghost use Rattle.mech_rows.specs.declared.kinds.Slot.{Slot};
ghost use Rattle.mech_rows.specs.declared.refusal.Refusal.{Refusal};
ghost use Rattle.mech_rows.specs.declared.refusal.Refusal.TheVariants.{DrawFault, Moved};
ghost use Rattle.mech_rows.specs.Facts.{peer_of};
ghost use Rattle.mech_rows.specs.Heads.{Head, IsHead};
ghost use Rattle.mech_rows.specs.Openings.{Texts};
ghost use Rattle.mech_rows.specs.Rows.{agreed_of};
ghost use Rattle.term_values.specs.Trees.{Among, Bytes, Tree};
ghost use Rattle.world_run.specs.declared.given.Given.{Given};
ghost use Rattle.world_run.specs.declared.opened.Opened.{Opened};
ghost use Rattle.world_run.specs.Answers.{HasAnswer};
ghost use Rattle.world_run.specs.Claims.{Claims, Tells};
ghost use Rattle.world_run.specs.Clocks.{Raises};
ghost use Rattle.world_run.specs.Gives.{Drops, Gives, IsGiveLeft};
ghost use Rattle.world_run.specs.Kept.{IsGenuine};
ghost use Rattle.world_run.specs.Opens.{IsOpenLeft, Opens};
ghost use Rattle.world_run.specs.Turns.{HasNumbers};
ghost use Rattle.world_run.specs.Views.{WorldView, entries, run_in};

/// Each genuine world is sound: completions with a claim have partners, no run agrees with two of
/// them, and no secret is derivable.
pub fn worlds_are_sound()
    ensures sound { (w : WorldView) → IsGenuine w → IsSound w.config (trace (entries w.acts)) }
{}

/// Whatever a call may answer, want of memory too, it leads from a genuine world to a genuine
/// world.
pub fn stays_a_world()
    ensures opening { (w v : WorldView) (h : Head) (texts : Texts) (r : Result Opened Refusal) →
        IsHead h → HasNumbers w → IsGenuine w → Opens w h texts r v → IsGenuine v }
    ensures giving { (allowed : Mech → Slot → Bytes → Bool) (w v : WorldView) (run : ℕ) (m : Tree)
        (r : Result Given Refusal) → HasNumbers w → IsGenuine w → Gives allowed w run m r v →
        IsGenuine v }
    ensures raising { (w v : WorldView) (n time : ℕ) (r : Result ℕ Refusal) → IsGenuine w →
        Raises w n time r v → IsGenuine v }
    ensures dropping { (w v : WorldView) (run : ℕ) (r : Result (Unit {0}) Refusal) → IsGenuine w →
        Drops w run r v → IsGenuine v }
    ensures opening_left { (w v : WorldView) (h : Head) (texts : Texts) → IsHead h → IsGenuine w →
        IsOpenLeft w h texts v → IsGenuine v }
    ensures giving_left { (allowed : Mech → Slot → Bytes → Bool) (w v : WorldView) (run : ℕ)
        (m : Tree) → IsGenuine w → IsGiveLeft allowed w run m v → IsGenuine v }
{}

/// Want of memory aside, a call has one answer at most, and there is one world that it leads to.
pub fn one_answer()
    ensures opening { (w u v : WorldView) (h : Head) (texts : Texts) (a b : Result Opened Refusal) →
        Opens w h texts a u → Opens w h texts b v → (u ≡ v) × (a ≡ b) }
    ensures giving { (allowed : Mech → Slot → Bytes → Bool) (w u v : WorldView) (run : ℕ) (m : Tree)
        (a b : Result Given Refusal) → Gives allowed w run m a u → Gives allowed w run m b v →
        (u ≡ v) × (a ≡ b) }
    ensures raising { (w u v : WorldView) (n time : ℕ) (a b : Result ℕ Refusal) →
        Raises w n time a u → Raises w n time b v → (u ≡ v) × (a ≡ b) }
    ensures dropping { (w u v : WorldView) (run : ℕ) (a b : Result (Unit {0}) Refusal) →
        Drops w run a u → Drops w run b v → (u ≡ v) × (a ≡ b) }
{}

/// In each genuine world each call has an answer other than want of memory: it is done, or one
/// refusal holds.
pub fn some_answer()
    ensures opening { (w : WorldView) (h : Head) (texts : Texts) → IsGenuine w → IsHead h →
        HasAnswer (Opens w h texts) }
    ensures giving { (allowed : Mech → Slot → Bytes → Bool) (w : WorldView) (run : ℕ) (m : Tree) →
        IsGenuine w → HasAnswer (Gives allowed w run m) }
    ensures raising { (w : WorldView) (n time : ℕ) → HasAnswer (Raises w n time) }
    ensures dropping { (w : WorldView) (run : ℕ) → HasAnswer (Drops w run) }
{}

/// In a history that tells a genuine world, `partner` finds a partner for each completion with a
/// claim.
pub fn completions_have_partners()
    ensures partner { (w : WorldView) (h : HistoryOf) (c : Happened) (slots : List Slot) →
        IsGenuine w → Tells h w → Among c h.happened → Claims w.config c slots → (n : ℕ)
        × (partner_of h.happened c ≡ Some n) }
{}

/// The partner that `partner` finds in such a history is a run of the world that agrees with the
/// completion, as the theory says it.
pub fn partners_are_those_of_the_theory()
    ensures agrees { (w : WorldView) (h : HistoryOf) (c : Happened) (slots : List Slot) (n : ℕ) →
        IsGenuine w → Tells h w → agreed_of c.head.mech c.head.role ≡ Some slots →
        partner_of h.happened c ≡ Some n → (id : RunId) × (run_in w.runs n ≡ Some id)
        × AgreesAt (trace (entries w.acts)) (peer_of c.head.role) slots (run_of c) id }
{}

/// In such a history no run agrees with two completions that have claims, so none is the partner of
/// two.
pub fn no_run_is_partner_of_two()
    ensures agreeing { (w : WorldView) (h : HistoryOf) (c d : Happened) (slots more : List Slot)
        (id : RunId) → IsGenuine w → Tells h w → Among c h.happened → Among d h.happened →
        Claims w.config c slots → Claims w.config d more →
        AgreesAt (trace (entries w.acts)) (peer_of c.head.role) slots (run_of c) id →
        AgreesAt (trace (entries w.acts)) (peer_of d.head.role) more (run_of d) id → c.run ≡ d.run }
    ensures partner { (w : WorldView) (h : HistoryOf) (c d : Happened) (slots more : List Slot)
        (n : ℕ) → IsGenuine w → Tells h w → Among c h.happened → Among d h.happened →
        Claims w.config c slots → Claims w.config d more → partner_of h.happened c ≡ Some n →
        partner_of h.happened d ≡ Some n → c.run ≡ d.run }
{}

/// In such a history each run of the world that agrees with a run of the history is found:
/// `partner` answers none only where none agrees, and otherwise the one of the least number.
pub fn agreeing_runs_are_found()
    ensures found { (w : WorldView) (h : HistoryOf) (c : Happened) (slots : List Slot)
        (id : RunId) → IsGenuine w → Tells h w → Among c h.happened →
        agreed_of c.head.mech c.head.role ≡ Some slots →
        AgreesAt (trace (entries w.acts)) (peer_of c.head.role) slots (run_of c) id → (n : ℕ)
        × (partner_of h.happened c ≡ Some n) }
    ensures first { (w : WorldView) (h : HistoryOf) (c : Happened) (slots : List Slot) (id : RunId)
        (n m : ℕ) → IsGenuine w → Tells h w → Among c h.happened →
        agreed_of c.head.mech c.head.role ≡ Some slots →
        AgreesAt (trace (entries w.acts)) (peer_of c.head.role) slots (run_of c) id →
        run_in w.runs m ≡ Some id → partner_of h.happened c ≡ Some n → n ≤ m }
{}

/// No call of a world is refused for a step that its run has moved past, nor for a draw that
/// failed.
pub fn no_stale_step_and_no_failed_draw()
    ensures opening { (w v : WorldView) (h : Head) (texts : Texts) (e : Refusal) (made held : ℕ) →
        Opens w h texts (Err e) v → (e ≢ DrawFault) × (e ≢ Moved made held) }
    ensures giving { (allowed : Mech → Slot → Bytes → Bool) (w v : WorldView) (run : ℕ) (m : Tree)
        (e : Refusal) (made held : ℕ) → Gives allowed w run m (Err e) v → (e ≢ DrawFault)
        × (e ≢ Moved made held) }
{}
