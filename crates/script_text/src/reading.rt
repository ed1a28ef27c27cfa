ghost use Rattle.std.specs.Prelude.{◌≡◌, ◌+◌, ◌<◌, Some, suc, ◌≤◌, ◌*◌, ◌^◌, ℕ, List, length};
ghost use Rattle.std.specs.Prelude.{slice_get, take, drop, IfOk, IfSome, IsNone, IsTrue};
ghost use Rattle.std.specs.Prelude.{MatchOption};
ghost use Rattle.std.specs.List.{list_all, prefix_len};
ghost use Rattle.std.specs.Char.{is_ascii_digit};
ghost use Rattle.std.specs.Option.{option_copied};
ghost use Rattle.term_values.specs.Lengths.{length_of};
ghost use Rattle.term_values.specs.TreeOf.{tree_of};
ghost use Rattle.script_text.specs.Notation.{is_numeral, item_named, message_named, value_of};
ghost use Rattle.script_text.specs.Reading.{Reads, ReadsExactly, State, atom_at, byte_at, bytes_at};
ghost use Rattle.script_text.specs.Reading.{digits_of, found_at, is_lower_digit, items_at, just};
ghost use Rattle.script_text.specs.Reading.{key_at, lent_at, limits, mark_at, name_at, number_at};
ghost use Rattle.script_text.specs.Reading.{numeral_at, sealed_at, second_at, sent_at, skip_at};
ghost use Rattle.script_text.specs.Reading.{state, term_in, term_under, tuple_at, upto};

use hex::FromHexError;
use std::alloc::{AllocError, AllocFailed, Global};
use term_values::{Bytes, Form, Items, Key, Name, Nonce, Part, Stamp, Tag, Term, Text};

/// The most items of a tuple.
const ITEMS_MAX: usize = 32;

/// What stands there is not what was to be read.
#[derive(Clone, Copy, Debug, PartialEq, Eq)]
pub(crate) struct Malformed;

/// Why nothing was read by a call that takes memory.
#[derive(Clone, Copy, Debug, PartialEq, Eq)]
pub(crate) enum ReadFault {
    Memory,
    Malformed,
}

impl From<AllocError> for ReadFault {
    ghost use Rattle.script_text.specs.declared.reading.ReadFault.TheVariants.{Memory};
    ghost use Rattle.std.specs.Prelude.{◌≡◌};

    ghost from_gives = { λ _ e. e ≡ Memory };

    fn from(_: AllocError) -> ReadFault {
        ReadFault::Memory
    }
}

impl<T: Drop> From<AllocFailed<T>> for ReadFault {
    ghost use Rattle.script_text.specs.declared.reading.ReadFault.TheVariants.{Memory};
    ghost use Rattle.std.specs.Prelude.{◌≡◌};

    ghost from_gives = { λ _ e. e ≡ Memory };

    fn from(_: AllocFailed<T>) -> ReadFault {
        ReadFault::Memory
    }
}

impl From<Malformed> for ReadFault {
    ghost use Rattle.script_text.specs.declared.reading.ReadFault.TheVariants as fault;
    ghost use Rattle.std.specs.Prelude.{◌≡◌};

    ghost from_gives = { λ _ e. e ≡ fault.Malformed };

    fn from(_: Malformed) -> ReadFault {
        ReadFault::Malformed
    }
}

/// What a reader of a term notes of each `@`.
#[derive(Clone, Copy, Debug, PartialEq, Eq)]
pub(crate) struct Marks {
    /// How many bytes of a spelling the terms named by further ones may take.
    pub(crate) left: u32,
    /// Each so far names something.
    pub(crate) named: bool,
}

/// A digit of hexadecimal, in lower case.
fn is_lower_digit(c: u8) -> bool
    ensures { result ≡ is_lower_digit c }
{
    (b'0' <= c && c <= b'9') || (b'a' <= c && c <= b'f')
}

/// How many digits of hexadecimal stand in front.
fn count_digits(text: &[u8]) -> usize
    ensures value { result ≡ digits_of text.now }
    ensures within { result ≤ length text.now }
{
    text.iter().take_while(|c| is_lower_digit(**c)).count()
}

/// How many decimal digits stand in front.
fn count_decimals(text: &[u8]) -> usize
    ensures value { result ≡ prefix_len is_ascii_digit text.now }
    ensures within { result ≤ length text.now }
{
    text.iter().take_while(|c| c.is_ascii_digit()).count()
}

fn are_decimals(word: &[u8]) -> bool
    ensures { result ≡ list_all is_ascii_digit word.now }
{
    word.iter().all(|c| c.is_ascii_digit())
}

/// Whether these are the digits of a number: at least one, and no leading zero.
pub(crate) fn is_numeral(word: &[u8]) -> bool
    ensures { result ≡ is_numeral word.now }
{
    match word {
        [] => false,
        [digit] => digit.is_ascii_digit(),
        [first, ..] => *first != b'0' && are_decimals(word),
    }
}

/// The number that digits write; None exactly where it has more than 64 bits.
#[tactic(auto, using(crate::proofs::Digits::value_grows))]
pub(crate) fn value_of(word: &[u8]) -> Option<u64>
    requires { IsTrue (is_numeral word.now) }
    ensures some { IfSome result (λ n. n ≡ value_of word.now) }
    ensures none { IsNone result → 2 ^ 64 ≤ value_of word.now }
{
    let mut number: u64 = 0;
    for digit in word {
        number = number
            .checked_mul(10)?
            .checked_add(u64::from(*digit - b'0'))?;
    }
    Some(number)
}

/// The number where it has 32 bits.
pub(crate) fn narrow(number: Option<u64>) -> Option<u32>
    ensures { MatchOption result (MatchOption number (Unit {0}) (λ n. 2 ^ 32 ≤ n))
        (λ n. number ≡ Some n) }
{
    u32::try_from(number?).ok()
}

/// The term at the place that these digits write.
fn at<'s>(terms: &'s [Term], place: &[u8]) -> Option<&'s Term>
    requires { IsTrue (is_numeral place.now) }
    ensures { option_copied result ≡ slice_get terms.now (value_of place.now) }
{
    terms.get(usize::try_from(value_of(place)?).ok()?)
}

/// The message of those sent that these digits name.
fn message<'s>(sent: &'s [Term], number: &[u8]) -> Option<&'s Term>
    requires { IsTrue (is_numeral number.now) }
    ensures { option_copied result ≡ message_named sent.now number.now }
{
    let place = value_of(number)?.checked_sub(1)?;
    sent.get(usize::try_from(place).ok()?)
}

/// The item that these digits name of the message that those name.
#[tactic(auto, using(term_values::proofs::Trees::untrees_trees))]
fn item<'s>(sent: &'s [Term], number: &[u8], place: &[u8]) -> Option<&'s Term>
    requires message { IsTrue (is_numeral number.now) }
    requires item { IsTrue (is_numeral place.now) }
    ensures { option_copied result ≡ item_named sent.now number.now place.now }
{
    match message(sent, number)?.form() {
        Form::Tuple(items) => at(items.list(), place),
        _ => None,
    }
}

/// What is left of so many bytes after the layouts of a term; None exactly where they take more. Their
/// sum is found by halving.
fn left_after(term: &Term, most: u32) -> Option<u32>
    ensures { MatchOption result (most < length_of term.now)
        (λ left. left + length_of term.now ≡ most) }
{
    if !term.within(most) {
        return None;
    }
    let mut low = 0;
    let mut high = most;
    while low < high {
        let middle = low + (high - low) / 2;
        if term.within(middle) {
            high = middle;
        } else {
            low = middle + 1;
        }
    }
    Some(most - low)
}

/// A copy of a term of at most so many levels, where it takes no more bytes than are left.
#[tactic(auto, unfolding(crate::specs::Reading::lent_at))]
fn lent(alloc: Global, term: &Term, marks: &mut Marks, levels: u32) -> Result<Term, ReadFault>
    requires { levels ≤ 8 }
    ensures { Reads (λ t. t) result marks.new (lent_at levels term.now marks.old) }
{
    if term.depth() > levels {
        return Err(ReadFault::Malformed);
    }
    let Some(left) = left_after(term, marks.left) else {
        return Err(ReadFault::Malformed);
    };
    let copied = term.copy(alloc)?;
    marks.left = left;
    Ok(copied)
}

/// A copy of what an `@` named, or the empty tuple where it named nothing, which is noted.
#[tactic(auto, unfolding(crate::specs::Reading::found_at))]
fn found(
    alloc: Global,
    found: Option<&Term>,
    marks: &mut Marks,
    levels: u32,
) -> Result<Term, ReadFault>
    requires { levels ≤ 8 }
    ensures { Reads (λ t. t) result marks.new
        (found_at levels (option_copied found.entry) marks.old) }
{
    match found {
        Some(term) => lent(alloc, term, marks, levels),
        None => {
            marks.named = false;
            let empty = Term::of(Form::Tuple(Items::new(Vec::new(alloc))));
            lent(alloc, &empty, marks, levels)
        }
    }
}

/// The characters that are still to be read.
#[derive(Drop)]
pub(crate) struct Reader<'a> {
    pub(crate) rest: &'a [u8],
}

impl<'a> Reader<'a> {
    #[tactic(auto, unfolding(crate::specs::Reading::byte_at))]
    pub(crate) fn byte(&mut self) -> Result<u8, Malformed>
        ensures { ReadsExactly (λ b. b) result self.new.rest.now (byte_at self.old.rest.now) }
    {
        match self.rest {
            [] => Err(Malformed),
            [byte, rest @ ..] => {
                self.rest = rest;
                Ok(*byte)
            }
        }
    }

    /// Takes the character that has to come.
    #[tactic(auto, unfolding(crate::specs::Reading::mark_at))]
    pub(crate) fn mark(&mut self, mark: u8) -> Result<(), Malformed>
        ensures { ReadsExactly (λ u. u) result self.new.rest.now (mark_at mark self.old.rest.now) }
    {
        match self.rest {
            [byte, rest @ ..] if *byte == mark => {
                self.rest = rest;
                Ok(())
            }
            _ => Err(Malformed),
        }
    }

    /// Takes a character where it comes, and tells whether it does.
    #[tactic(auto, unfolding(crate::specs::Reading::skip_at))]
    fn skips(&mut self, mark: u8) -> bool
        ensures { skip_at mark self.old.rest.now ≡ (result, self.new.rest.now) }
    {
        match self.rest {
            [byte, rest @ ..] if *byte == mark => {
                self.rest = rest;
                true
            }
            _ => false,
        }
    }

    /// Takes that many characters.
    fn front(&mut self, count: usize) -> &'a [u8]
        requires { count ≤ length self.old.rest.now }
        ensures front { result.now ≡ take count self.old.rest.now }
        ensures rest { self.new.rest.now ≡ drop count self.old.rest.now }
        ensures count { length result.now ≡ count }
    {
        let (front, rest) = self.rest.split_at(count);
        self.rest = rest;
        front
    }

    /// Takes the bytes whose digits are in front, of which there are to be so many.
    #[tactic(auto, using(crate::proofs::Digits::sized_is), unfolding(crate::specs::Reading::bytes_at))]
    fn fill(&mut self, count: usize, out: &mut [u8]) -> Result<(), Malformed>
        requires { count ≡ 2 * length out.old }
        ensures { ReadsExactly (λ _. out.new) result self.new.rest.now
            (bytes_at (just count) self.old.rest.now) }
    {
        if count_digits(self.rest) != count {
            return Err(Malformed);
        }
        match hex::decode_to_slice(self.front(count), out) {
            Ok(()) => Ok(()),
            Err(_) => Err(Malformed),
        }
    }

    /// Takes the bytes whose digits are in front, of which there may be so many.
    #[tactic(auto, using(crate::proofs::Digits::decoded_length), unfolding(crate::specs::Reading::bytes_at))]
    fn bytes(&mut self, alloc: Global, most: usize) -> Result<Vec<u8>, ReadFault>
        ensures read { Reads (λ b. b.items) result self.new.rest.now
            (bytes_at (upto most) self.old.rest.now) }
        ensures short { IfOk result (λ b. 2 * length b.items ≤ most) }
    {
        let count = count_digits(self.rest);
        if count > most {
            return Err(ReadFault::Malformed);
        }
        match hex::decode(alloc, self.front(count)) {
            Ok(bytes) => Ok(bytes),
            Err(FromHexError::OutOfMemory) => Err(ReadFault::Memory),
            Err(_) => Err(ReadFault::Malformed),
        }
    }

    #[tactic(auto, unfolding(crate::specs::Reading::numeral_at))]
    fn numeral(&mut self) -> Result<&'a [u8], Malformed>
        ensures read { ReadsExactly (λ b. b.now) result self.new.rest.now
            (numeral_at self.old.rest.now) }
        ensures digits { IfOk result (λ b. IsTrue (is_numeral b.now)) }
    {
        let count = count_decimals(self.rest);
        let digits = self.front(count);
        if !is_numeral(digits) {
            return Err(Malformed);
        }
        Ok(digits)
    }

    /// Takes a number below 2 ^ 64.
    #[tactic(auto, unfolding(crate::specs::Reading::number_at))]
    pub(crate) fn u64(&mut self) -> Result<u64, Malformed>
        ensures { ReadsExactly (λ n. n) result self.new.rest.now
            (number_at (2 ^ 64) self.old.rest.now) }
    {
        let digits = self.numeral()?;
        match value_of(digits) {
            Some(number) => Ok(number),
            None => Err(Malformed),
        }
    }

    #[tactic(auto, unfolding(crate::specs::Reading::name_at, crate::specs::Reading::number_at))]
    fn name(&mut self) -> Result<Form, Malformed>
        ensures { ReadsExactly (λ f. tree_of f) result self.new.rest.now
            (name_at self.old.rest.now) }
    {
        let number = self.u32()?;
        match Name::new(number) {
            Some(name) => Ok(Form::Name(name)),
            None => Err(Malformed),
        }
    }

    /// Takes a number below 2 ^ 32.
    #[tactic(auto, unfolding(crate::specs::Reading::number_at))]
    pub(crate) fn u32(&mut self) -> Result<u32, Malformed>
        ensures { ReadsExactly (λ n. n) result self.new.rest.now
            (number_at (2 ^ 32) self.old.rest.now) }
    {
        let digits = self.numeral()?;
        match narrow(value_of(digits)) {
            Some(number) => Ok(number),
            None => Err(Malformed),
        }
    }

    pub(crate) fn part(&mut self) -> Result<Part, Malformed>
        ensures { ReadsExactly (λ p. p) result self.new.rest.now
            (bytes_at (just 64) self.old.rest.now) }
    {
        let mut part = [0; 32];
        self.fill(64, &mut part)?;
        Ok(Part(part))
    }

    fn nonce(&mut self) -> Result<Nonce, Malformed>
        ensures { ReadsExactly (λ n. n) result self.new.rest.now
            (bytes_at (just 32) self.old.rest.now) }
    {
        let mut nonce = [0; 16];
        self.fill(32, &mut nonce)?;
        Ok(Nonce(nonce))
    }

    fn tag(&mut self) -> Result<Tag, Malformed>
        ensures { ReadsExactly (λ t. t) result self.new.rest.now
            (bytes_at (just 8) self.old.rest.now) }
    {
        let mut tag = [0; 4];
        self.fill(8, &mut tag)?;
        Ok(Tag(tag))
    }

    pub(crate) fn text(&mut self, alloc: Global) -> Result<Text, ReadFault>
        ensures { Reads (λ t. t) result self.new.rest.now (bytes_at (upto 2048) self.old.rest.now) }
    {
        let bytes = self.bytes(alloc, 2048)?;
        match Text::new(bytes) {
            Ok(text) => Ok(text),
            Err(_) => Err(ReadFault::Malformed),
        }
    }

    /// Takes the rest of a key, of which the first part is known.
    #[tactic(auto, unfolding(crate::specs::Reading::second_at))]
    fn second(&mut self, first: Part) -> Result<Key, Malformed>
        ensures { ReadsExactly (λ k. k) result self.new.rest.now
            (second_at first self.old.rest.now) }
    {
        if !self.skips(b'+') {
            return Ok(Key::One(first));
        }
        let second = self.part()?;
        Ok(Key::Two(first, second))
    }

    #[tactic(auto, unfolding(crate::specs::Reading::key_at))]
    fn key(&mut self) -> Result<Key, Malformed>
        ensures { ReadsExactly (λ k. k) result self.new.rest.now (key_at self.old.rest.now) }
    {
        self.mark(b'K')?;
        self.mark(b':')?;
        let first = self.part()?;
        self.second(first)
    }

    /// Takes what follows a letter and a colon.
    #[tactic(auto, unfolding(crate::specs::Reading::atom_at))]
    fn atom(&mut self, alloc: Global, letter: u8) -> Result<Form, ReadFault>
        ensures { Reads (λ f. tree_of f) result self.new.rest.now
            (atom_at 8192 letter self.old.rest.now) }
    {
        match letter {
            b'N' => Ok(self.name()?),
            b'T' => Ok(Form::Stamp(Stamp::Time(self.u64()?))),
            b'Q' => Ok(Form::Stamp(Stamp::Seq(self.u64()?))),
            b'R' => Ok(Form::Nonce(self.nonce()?)),
            b'F' => Ok(Form::Part(self.part()?)),
            b'X' => Ok(Form::Text(self.text(alloc)?)),
            b'G' => Ok(Form::Tag(self.tag()?)),
            b'B' => Ok(Form::Blob(Bytes::new(self.bytes(alloc, 8192)?))),
            _ => Err(ReadFault::Malformed),
        }
    }

    /// Takes a term of so many levels below it.
    #[cycle(read)]
    #[tactic(auto, unfolding(crate::specs::Reading::term_at))]
    pub(crate) fn term(
        &mut self,
        alloc: Global,
        sent: &[Term],
        marks: &mut Marks,
        levels: u32,
    ) -> Result<Term, ReadFault>
        requires { levels ≤ 8 }
        ensures { Reads (λ t. t) result (state self.new.rest.now marks.new)
            (term_in sent.now levels (state self.old.rest.now marks.old)) }
    {
        if levels == 0 {
            return Err(ReadFault::Malformed);
        }
        let letter = self.byte()?;
        self.under(alloc, sent, marks, levels - 1, letter)
    }

    /// Takes what follows the first character of a term, with so many levels below it.
    #[cycle(read)]
    #[tactic(auto, unfolding(crate::specs::Reading::tree_under))]
    fn under(
        &mut self,
        alloc: Global,
        sent: &[Term],
        marks: &mut Marks,
        below: u32,
        letter: u8,
    ) -> Result<Term, ReadFault>
        requires { below < 8 }
        ensures { Reads (λ t. t) result (state self.new.rest.now marks.new)
            (term_under sent.now below letter (state self.old.rest.now marks.old)) }
    {
        match letter {
            b'(' => {
                let items = self.tuple(alloc, sent, marks, below)?;
                Ok(Term::of(Form::Tuple(Items::new(items))))
            }
            b'S' => {
                let (key, body) = self.sealed(alloc, sent, marks, below)?;
                Ok(Term::of(Form::Seal(key, body)))
            }
            b'C' => {
                let (key, body) = self.sealed(alloc, sent, marks, below)?;
                Ok(Term::of(Form::Check(key, body)))
            }
            b'@' => self.named(alloc, sent, marks, below + 1),
            _ => {
                self.mark(b':')?;
                let form = self.atom(alloc, letter)?;
                Ok(Term::of(form))
            }
        }
    }

    #[cycle(read)]
    #[tactic(auto, unfolding(crate::specs::Reading::sealed_at))]
    fn sealed(
        &mut self,
        alloc: Global,
        sent: &[Term],
        marks: &mut Marks,
        below: u32,
    ) -> Result<(Key, Box<Term>), ReadFault>
        requires { below ≤ 8 }
        ensures { Reads (λ s. (s.0, s.1.value)) result (state self.new.rest.now marks.new)
            (sealed_at (term_in sent.now below) (state self.old.rest.now marks.old)) }
    {
        self.mark(b'[')?;
        let key = self.key()?;
        self.mark(b'|')?;
        let body = self.body(alloc, sent, marks, below)?;
        self.mark(b']')?;
        Ok((key, body))
    }

    #[cycle(read)]
    fn body(
        &mut self,
        alloc: Global,
        sent: &[Term],
        marks: &mut Marks,
        below: u32,
    ) -> Result<Box<Term>, ReadFault>
        requires { below ≤ 8 }
        ensures { Reads (λ t. t.value) result (state self.new.rest.now marks.new)
            (term_in sent.now below (state self.old.rest.now marks.old)) }
    {
        let body = self.term(alloc, sent, marks, below)?;
        Ok(Box::new(alloc, body)?)
    }

    #[cycle(read)]
    #[tactic(auto, unfolding(crate::specs::Reading::tuple_at))]
    fn tuple(
        &mut self,
        alloc: Global,
        sent: &[Term],
        marks: &mut Marks,
        below: u32,
    ) -> Result<Vec<Term>, ReadFault>
        requires { below ≤ 8 }
        ensures { Reads (λ items. items.items) result (state self.new.rest.now marks.new)
            (tuple_at (term_in sent.now below) 32 (state self.old.rest.now marks.old)) }
    {
        if self.skips(b')') {
            return Ok(Vec::new(alloc));
        }
        self.items(alloc, sent, marks, below)
    }

    #[cycle(read)]
    fn items(
        &mut self,
        alloc: Global,
        sent: &[Term],
        marks: &mut Marks,
        below: u32,
    ) -> Result<Vec<Term>, ReadFault>
        requires { below ≤ 8 }
        ensures { Reads (λ items. items.items) result (state self.new.rest.now marks.new)
            (items_at (term_in sent.now below) 32 (state self.old.rest.now marks.old)) }
    {
        let mut items = Vec::new(alloc);
        for _ in 0..ITEMS_MAX {
            let item = self.term(alloc, sent, marks, below)?;
            items.push(item)?;
            match self.byte()? {
                b')' => return Ok(items),
                b',' => {}
                _ => return Err(ReadFault::Malformed),
            }
        }
        Err(ReadFault::Malformed)
    }

    /// Takes what follows an `@`, of so many levels.
    #[tactic(auto, unfolding(crate::specs::Reading::sent_at))]
    fn named(
        &mut self,
        alloc: Global,
        sent: &[Term],
        marks: &mut Marks,
        levels: u32,
    ) -> Result<Term, ReadFault>
        requires { levels ≤ 8 }
        ensures { Reads (λ t. t) result (state self.new.rest.now marks.new)
            (sent_at sent.now levels (state self.old.rest.now marks.old)) }
    {
        let number = self.numeral()?;
        if !self.skips(b'.') {
            return found(alloc, message(sent, number), marks, levels);
        }
        let place = self.numeral()?;
        found(alloc, item(sent, number, place), marks, levels)
    }
}
