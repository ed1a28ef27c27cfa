ghost use Rattle.std.specs.Prelude.{◌≡◌, ◌↔◌, ◌≤◌, ◌++◌, ◌⊎◌, List, ℕ, length, take};
ghost use Rattle.term_values.specs.declared.Why.{Why};
ghost use Rattle.term_values.specs.Trees.{Tree};
ghost use Rattle.tagged_codec.specs.Faults.{IsBytes, IsFault, IsWholeFault};
ghost use Rattle.tagged_codec.specs.Frames.{frames_of, BeginsNoFrame, Ran};
ghost use Rattle.tagged_codec.specs.Grammar.{IsSpelling};
ghost use Rattle.tagged_codec.specs.Relation.{Spells};

/// A law: no spelling begins another, and each stands for one term. So what was encoded is read again, whatever
/// follows it.
pub fn one_form()
    ensures { (t u : Tree) (a b x y : List ℕ) → IsSpelling t a → IsSpelling u b → a ++ x ≡ b ++ y →
        (t ≡ u) × (a ≡ b) }
{}

/// A law: the grammar read as a relation by cases, from level 1 and cut at 8,192 bytes, relates each term within the
/// limits to its spelling, and nothing else.
#[tactic(auto, using(crate::proofs::Relation::IsSpelling_is))]
pub fn spelling_is_relation()
    ensures { (t : Tree) (bytes : List ℕ) → IsSpelling t bytes
        ↔ (Spells 1 t bytes × (length bytes ≤ 8192)) }
{}

/// A law: bytes have at most one fault, with one place and one reason.
pub fn one_fault()
    ensures { (bytes : List ℕ) (p q : ℕ) (w v : Why) → IsBytes bytes → IsFault bytes p w →
        IsFault bytes q v → (p ≡ q) × (w ≡ v) }
{}

/// A law: bytes that begin with no spelling have a fault.
pub fn some_fault()
    ensures { (bytes : List ℕ) → IsBytes bytes →
        ((t : Tree) × (n : ℕ) × IsSpelling t (take n bytes))
        ⊎ ((place : ℕ) × (why : Why) × IsFault bytes place why) }
{}

/// A law: bytes are one whole spelling or have a whole fault, never both, and a whole fault is one, with one place and
/// one reason.
pub fn one_whole_fault()
    ensures one { (bytes : List ℕ) (p q : ℕ) (w v : Why) → IsBytes bytes → IsWholeFault bytes p w →
        IsWholeFault bytes q v → (p ≡ q) × (w ≡ v) }
    ensures never_both { (bytes : List ℕ) (t : Tree) (p : ℕ) (w : Why) → IsSpelling t bytes →
        IsWholeFault bytes p w → ⊥ }
    ensures either { (bytes : List ℕ) → IsBytes bytes → ((t : Tree) × IsSpelling t bytes)
        ⊎ ((place : ℕ) × (why : Why) × IsWholeFault bytes place why) }
{}

/// A law: all that was fed to a deframer is the frames of the messages taken, followed by what is kept.
pub fn fed_is_told()
    ensures { (all : List ℕ) (taken : List (List ℕ)) (kept : List ℕ) → Ran all taken kept →
        all ≡ frames_of taken ++ kept }
{}

/// A law: however a stream was cut, once no whole frame is left to take, the messages taken and the bytes kept
/// are the same, also where they announce a length above 8,192.
pub fn cut_anyhow()
    ensures { (all : List ℕ) (taken others : List (List ℕ)) (kept left : List ℕ) →
        Ran all taken kept → Ran all others left → BeginsNoFrame kept → BeginsNoFrame left →
        (taken ≡ others) × (kept ≡ left) }
{}
