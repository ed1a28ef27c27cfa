ghost use Rattle.std.specs.Prelude.{◌≡◌, ℕ, List, ◌∷◌, [], true, not, Err, IfOk, IfSome, IsNone};
ghost use Rattle.std.specs.Prelude.{IsTrue, MatchResult, None, Some, is_some, map};
ghost use Rattle.std.specs.List.{count_by};
ghost use Rattle.std.specs.Option.{option_copied};
ghost use Rattle.term_values.specs.Trees.{Tree};
ghost use Rattle.mech_rows.specs.Facts.{same_role};
ghost use Rattle.mech_rows.specs.Found.{Once, found};
ghost use Rattle.script_text.specs.LineReading.{Gives, GivesExactly, allow_words, five_words};
ghost use Rattle.script_text.specs.LineReading.{four_words, IsGiveWords, IsGiven, IsGivenUnnamed};
ghost use Rattle.script_text.specs.LineReading.{IsNoneGiven, open_words, pair_words, plain_words};
ghost use Rattle.script_text.specs.LineReading.{texts_from, three_words, two_words};
ghost use Rattle.script_text.specs.Lines.{IsLine, IsLineUnnamed, SaidAlike, Says, WrittenLine};
ghost use Rattle.script_text.specs.Lines.{is_blank, is_offered, is_silent, sends_text, words_of};

use crate::bad::BadLine;
use crate::line::Line;
use crate::line_words as words;
use crate::reading::{Malformed, ReadFault};
use crate::terms::read_term;
use mech_rows::{Mech, Role, RunHead, Slot, Texts};
use std::alloc::Global;
use term_values::{Name, OutOfMemory, StampKind, Term, Text};
use text_hooks::Rule;

/// The window of a party of sequence numbers, which it does not use.
const SEQ_WINDOW: u32 = 5000;

/// One more than the greatest window, in milliseconds.
const WINDOW_END: u32 = 600_001;

/// The most blanks of a line: those between the five words of `open` and nine texts.
const BLANKS_MAX: usize = 13;

/// One more than the most bytes of a text.
const LENGTH_END: u32 = 1025;

/// A line of two words.
fn two(verb: &[u8], x: &[u8]) -> Result<Line, Malformed>
    ensures says { GivesExactly (λ l. l) result (two_words verb.now x.now) }
{
    if verb == b"own".as_slice() {
        let part = words::part(x)?;
        return Ok(Line::Own { part });
    }
    if verb == b"drop".as_slice() {
        let run = words::u32(x)?;
        return Ok(Line::Drop { run });
    }
    Err(Malformed)
}

/// A line of three words, but for `give`.
fn three(verb: &[u8], x: &[u8], y: &[u8]) -> Result<Line, Malformed>
    ensures says { GivesExactly (λ l. l) result (three_words verb.now x.now y.now) }
{
    if verb == b"party".as_slice() && y == b"seq".as_slice() {
        let name = words::name(x)?;
        return Ok(Line::Party {
            name,
            kind: StampKind::Seq,
            window: SEQ_WINDOW,
        });
    }
    if verb == b"clock".as_slice() {
        let name = words::name(x)?;
        let ms = words::u64(y)?;
        return Ok(Line::Clock { name, ms });
    }
    Err(Malformed)
}

/// A line of four words.
fn four(verb: &[u8], x: &[u8], y: &[u8], z: &[u8]) -> Result<Line, Malformed>
    ensures says { GivesExactly (λ l. l) result (four_words verb.now x.now y.now z.now) }
{
    if verb == b"party".as_slice() && y == b"time".as_slice() {
        let name = words::name(x)?;
        let window = words::number(z, WINDOW_END)?;
        return Ok(Line::Party {
            name,
            kind: StampKind::Time,
            window,
        });
    }
    if verb == b"pair".as_slice() {
        return pair(x, y, z, false);
    }
    Err(Malformed)
}

fn pair(x: &[u8], y: &[u8], z: &[u8], revealed: bool) -> Result<Line, Malformed>
    ensures says { GivesExactly (λ l. l) result (pair_words x.now y.now z.now revealed) }
{
    let a = words::name(x)?;
    let b = words::name(y)?;
    let part = words::part(z)?;
    Ok(Line::Pair {
        a,
        b,
        part,
        revealed,
    })
}

fn allow(alloc: Global, w: &[u8], x: &[u8], y: &[u8], z: &[u8]) -> Result<Line, ReadFault>
    ensures says { Gives (λ l. l) result (allow_words w.now x.now y.now z.now) }
{
    let mech = words::mech(w)?;
    let slot = words::slot(x)?;
    let longest = words::number(y, LENGTH_END)? as u16;
    let prefix = words::prefix(alloc, z)?;
    Ok(Line::Allow {
        rule: Rule {
            mech,
            slot,
            longest,
            prefix,
        },
    })
}

/// A line of five words, but for `open`.
fn five(
    alloc: Global,
    verb: &[u8],
    w: &[u8],
    x: &[u8],
    y: &[u8],
    z: &[u8],
) -> Result<Line, ReadFault>
    ensures says { Gives (λ l. l) result (five_words verb.now w.now x.now y.now z.now) }
{
    if verb == b"pair".as_slice() && z == b"revealed".as_slice() {
        return Ok(pair(w, x, y, true)?);
    }
    if verb == b"allow".as_slice() {
        return allow(alloc, w, x, y, z);
    }
    Err(ReadFault::Malformed)
}

/// Whether the role sends this text slot in a mechanism that lines may name.
fn sends(mech: Mech, role: Role, slot: Slot) -> bool
    requires { IsTrue (is_offered mech) }
    ensures { result ≡ sends_text mech role slot }
{
    match (mech, role) {
        (Mech::E1 | Mech::C1 | Mech::E3 | Mech::C3, Role::A) => slot == Slot::X1
            || slot == Slot::X2,
        (Mech::E2 | Mech::C2 | Mech::E4 | Mech::C4, Role::A) => slot == Slot::X2
            || slot == Slot::X3,
        (Mech::E2 | Mech::C2, Role::B) => slot == Slot::X1,
        (Mech::E3 | Mech::C3, Role::B) => slot == Slot::X3 || slot == Slot::X4,
        (Mech::E4 | Mech::C4, Role::B) => {
            slot == Slot::X1 || slot == Slot::X4 || slot == Slot::X5
        }
        _ => false,
    }
}

/// The text of that slot, where there is one.
fn find_slot(texts: &[(Slot, Text)], slot: Slot) -> Option<&Text>
    ensures { option_copied result ≡ found texts.now slot }
{
    for text in texts {
        if text.0 == slot {
            return Some(&text.1);
        }
    }
    None
}

/// Whether a text of that slot is there.
fn has_slot(texts: &[(Slot, Text)], slot: Slot) -> bool
    ensures { result ≡ is_some (found texts.now slot) }
{
    find_slot(texts, slot).is_some()
}

/// The texts that words write, behind those that were read: slots that the role sends, each at most once.
#[tactic(auto, using(crate::proofs::Slots::once_more), unfolding(crate::specs::LineReading::texts_from))]
fn texts_after(
    alloc: Global,
    mech: Mech,
    role: Role,
    mut so_far: Vec<(Slot, Text)>,
    words: &[&[u8]],
) -> Result<Vec<(Slot, Text)>, ReadFault>
    requires offered { IsTrue (is_offered mech) }
    requires once { Once so_far.items }
    ensures texts { Gives (λ t. t.items) result
        (texts_from mech role so_far.items (map (λ w. w.now) words.now)) }
    ensures once { IfOk result (λ t. Once t.items) }
{
    match words {
        [] => Ok(so_far),
        [word, rest @ ..] => {
            let (slot, text) = words::text(alloc, word)?;
            if !sends(mech, role, slot) || has_slot(&so_far, slot) {
                return Err(ReadFault::Malformed);
            }
            so_far.push((slot, text))?;
            texts_after(alloc, mech, role, so_far, rest)
        }
    }
}

/// The head of a run of a mechanism without a third party.
fn head(mech: Mech, role: Role, a: Name, b: Name) -> Result<RunHead, Malformed>
    requires offered { IsTrue (is_offered mech) }
    requires peer { IsTrue (not (same_role role Role.P)) }
    ensures { MatchResult result (λ h. h ≡ record {
      mech = mech;
      role = role;
      a = a;
      b = b;
      p =
          None;
    }) (λ _. ⊥) }
{
    match RunHead::new(mech, role, a, b, None) {
        Some(head) => Ok(head),
        None => Err(Malformed),
    }
}

/// A line `open`.
fn open(
    alloc: Global,
    m: &[u8],
    r: &[u8],
    x: &[u8],
    y: &[u8],
    rest: &[&[u8]],
) -> Result<Line, ReadFault>
    ensures says { Gives (λ l. l) result (open_words m.now r.now x.now y.now
        (map (λ w. w.now) rest.now)) }
{
    let mech = words::mech(m)?;
    let role = words::role(r)?;
    let a = words::name(x)?;
    let b = words::name(y)?;
    let texts = texts_after(alloc, mech, role, Vec::new(alloc), rest)?;
    let head = head(mech, role, a, b)?;
    Ok(Line::Open {
        head,
        texts: Texts::new(texts),
    })
}

/// A blank is a space or a tab.
fn is_blank(c: u8) -> bool
    ensures { result ≡ is_blank c }
{
    c == b' ' || c == b'\t'
}

/// The words of a line, with one blank between two of them.
fn split_words<'a>(alloc: Global, text: &'a [u8]) -> Result<Vec<&'a [u8]>, OutOfMemory>
    ensures { IfOk result (λ words. map (λ word. word.now) words.items ≡ words_of text.now) }
{
    text.split(|c| is_blank(*c)).collect(alloc)
}

/// A line of these words, but for `give`.
fn plain(alloc: Global, words: &[&[u8]]) -> Result<Line, ReadFault>
    ensures says { Gives (λ l. l) result (plain_words (map (λ w. w.now) words.now)) }
{
    match words {
        [verb, x] => Ok(two(verb, x)?),
        [verb, x, y] => Ok(three(verb, x, y)?),
        [verb, x, y, z] => Ok(four(verb, x, y, z)?),
        [verb, w, x, y, z, rest @ ..] => {
            if *verb == b"open".as_slice() {
                return open(alloc, w, x, y, z, rest);
            }
            if !rest.is_empty() {
                return Err(ReadFault::Malformed);
            }
            five(alloc, verb, w, x, y, z)
        }
        _ => Err(ReadFault::Malformed),
    }
}

/// The run and the term of a line `give`.
fn give_words<'w>(words: &[&'w [u8]]) -> Option<(&'w [u8], &'w [u8])>
    ensures some { IfSome result (λ given. IsGiveWords
        (map (λ w. w.now) words.now) given.0.now given.1.now) }
    ensures none { IsNone result → (run term : List ℕ) →
        IsGiveWords (map (λ w. w.now) words.now) run term → ⊥ }
{
    match words {
        [verb, run, term] if *verb == b"give".as_slice() => Some((run, term)),
        _ => None,
    }
}

/// A line `give`, of its run and its term.
fn give(alloc: Global, run: &[u8], term: &[u8], sent: &[Term]) -> Result<Line, BadLine>
    ensures ok { IfOk result (λ l. IsGiven sent.now run.now term.now l) }
    ensures reference { result ≡ Err BadLine.Reference → IsGivenUnnamed sent.now run.now term.now }
    ensures grammar { result ≡ Err BadLine.Grammar → IsNoneGiven sent.now run.now term.now }
{
    let run = words::u32(run)?;
    let term = read_term(alloc, term, sent)?;
    Ok(Line::Give { run, term })
}

/// Whether a line says nothing: it is empty, or begins with #.
fn is_silent(text: &[u8]) -> bool
    ensures { result ≡ is_silent text.now }
{
    text.is_empty() || text[0] == b'#'
}

/// How many blanks a text has.
fn count_blanks(text: &[u8]) -> usize
    ensures { result ≡ count_by is_blank text.now }
{
    text.iter().filter(|c| is_blank(**c)).count()
}

/// What a line of a script says; the text is the line without the line feed at its end. Its words are separated by exactly
/// one blank, which is a space or a tab, and no blank stands at either end. An empty line says nothing, and neither does one
/// that begins with #, whatever bytes it holds. Of the mechanisms E1 to E4 and C1 to C4 may be named. A text with more blanks
/// than a line can have is refused before its words are kept.
///
/// # Errors
///
/// [`BadLine::Grammar`] exactly where the text is no such line, or a value of it is outside its limits; an `@` that names
/// nothing counts as the empty tuple here. [`BadLine::Reference`] exactly where the line has no such fault and an `@` of its
/// term names nothing. [`BadLine::Memory`] for want of memory alone.
pub fn read_line(alloc: Global, text: &[u8], sent: &[Term]) -> Result<Line, BadLine>
    ensures ok { IfOk result (λ l. Says sent.now text.now l) }
    ensures reference { result ≡ Err BadLine.Reference → IsLineUnnamed sent.now text.now }
    ensures grammar { result ≡ Err BadLine.Grammar → (w : WrittenLine) →
        IsLine sent.now text.now w → ⊥ }
{
    if is_silent(text) {
        return Ok(Line::Empty);
    }
    if count_blanks(text) > BLANKS_MAX {
        return Err(BadLine::Grammar);
    }
    let words = split_words(alloc, text)?;
    match give_words(&words) {
        Some((run, term)) => give(alloc, run, term, sent),
        None => Ok(plain(alloc, &words)?),
    }
}

/// What a line says is determined: two ways to write it say the same, and name what is there alike.
pub fn one_line()
    ensures { (sent : List Tree) (text : List ℕ) (v w : WrittenLine) → IsLine sent text v →
        IsLine sent text w → SaidAlike sent v w }
{}
