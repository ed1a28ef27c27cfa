ghost use Rattle.std.specs.Prelude.{◌≡◌, ◌<◌, ◌≤◌, ℕ, List, [], length, IfOk};
ghost use Rattle.std.specs.Int.{w64};
ghost use Rattle.term_values.specs.TreeOf.{tree_of};
ghost use Rattle.tagged_codec.specs.Reading.{Reads, byte_at, bytes_at, items_at, key_at, key_under};
ghost use Rattle.tagged_codec.specs.Reading.{tree_under, name_at, number_at, sealed_at, sized_at};
ghost use Rattle.tagged_codec.specs.Reading.{term_at, tuple_at};

use crate::kinds;
use crate::kinds::{BLOB_MAX, ITEMS_MAX, TEXT_MAX};
use std::alloc::{AllocFailed, Global};
use term_values::{
    Bytes, Form, Items, Key, Name, Nonce, OutOfMemory, Part, Stamp, Tag, Term, Text, Why,
};

/// Why nothing was read.
#[derive(Clone, Copy, Debug, PartialEq, Eq)]
pub(crate) enum ReadFault {
    Memory,
    /// The reader's rest begins where the bytes stop being the beginning of a spelling.
    Malformed(Why),
}

impl From<OutOfMemory> for ReadFault {
    ghost use Rattle.tagged_codec.specs.declared.reading.ReadFault.TheVariants.{Memory};
    ghost use Rattle.std.specs.Prelude.{◌≡◌};

    ghost from_gives = { λ _ e. e ≡ Memory };

    fn from(_: OutOfMemory) -> ReadFault {
        ReadFault::Memory
    }
}

impl<T: Drop> From<AllocFailed<T>> for ReadFault {
    ghost use Rattle.tagged_codec.specs.declared.reading.ReadFault.TheVariants.{Memory};
    ghost use Rattle.std.specs.Prelude.{◌≡◌};

    ghost from_gives = { λ _ e. e ≡ Memory };

    fn from(_: AllocFailed<T>) -> ReadFault {
        ReadFault::Memory
    }
}

/// The bytes that are still to be read. After a fault they begin at its place.
#[derive(Drop)]
pub(crate) struct Reader<'a> {
    pub(crate) rest: &'a [u8],
}

impl<'a> Reader<'a> {
    /// Stops at the end of the bytes, which comes too early.
    fn end(&mut self) -> ReadFault
        ensures short { result ≡ ReadFault.Malformed Why.Short }
        ensures end { self.new.rest.now ≡ [] }
    {
        self.rest = &[];
        ReadFault::Malformed(Why::Short)
    }

    /// Stops at a byte that may not stand there.
    fn refuse(&mut self, at: &'a [u8], why: Why) -> ReadFault
        ensures why { result ≡ ReadFault.Malformed why }
        ensures place { self.new.rest.now ≡ at.now }
    {
        self.rest = at;
        ReadFault::Malformed(why)
    }

    #[tactic(auto, unfolding(crate::specs::Reading::bytes_at))]
    fn bytes(&mut self, count: usize) -> Result<&'a [u8], ReadFault>
        ensures read { Reads (λ b. b.now) result self.new.rest.now
            (bytes_at count self.old.rest.now) }
        ensures count { IfOk result (λ b. length b.now ≡ count) }
    {
        if self.rest.len() < count {
            return Err(self.end());
        }
        let (front, rest) = self.rest.split_at(count);
        self.rest = rest;
        Ok(front)
    }

    #[tactic(auto, unfolding(crate::specs::Reading::byte_at))]
    fn byte(&mut self) -> Result<u8, ReadFault>
        ensures { Reads (λ b. b) result self.new.rest.now (byte_at self.old.rest.now) }
    {
        match self.rest {
            [] => Err(self.end()),
            [byte, rest @ ..] => {
                self.rest = rest;
                Ok(*byte)
            }
        }
    }

    #[tactic(auto, unfolding(crate::specs::Reading::number_at))]
    fn u64(&mut self) -> Result<u64, ReadFault>
        ensures { Reads (λ n. n) result self.new.rest.now (number_at w64 self.old.rest.now) }
    {
        let b = self.bytes(8)?;
        Ok(u64::from_be_bytes([b[0], b[1], b[2], b[3], b[4], b[5], b[6], b[7]]))
    }

    /// Two bytes of length and so many bytes. A byte of the length is refused where the length would be above the
    /// most, whatever follows.
    #[tactic(auto, unfolding(crate::specs::Reading::sized_at))]
    fn sized(&mut self, most: usize, why: Why) -> Result<&'a [u8], ReadFault>
        ensures read { Reads (λ b. b.now) result self.new.rest.now
            (sized_at most why self.old.rest.now) }
        ensures short { IfOk result (λ b. length b.now ≤ most) }
    {
        let start = self.rest;
        let high = usize::from(self.byte()?) * 256;
        if high > most {
            return Err(self.refuse(start, why));
        }
        let at = self.rest;
        let count = high + usize::from(self.byte()?);
        if count > most {
            return Err(self.refuse(at, why));
        }
        self.bytes(count)
    }

    fn part(&mut self) -> Result<Part, ReadFault>
        ensures { Reads (λ p. p) result self.new.rest.now (bytes_at 32 self.old.rest.now) }
    {
        let front = self.bytes(32)?;
        let mut part = [0; 32];
        part.copy_from_slice(front);
        Ok(Part(part))
    }

    #[tactic(auto, unfolding(crate::specs::Reading::key_at, crate::specs::Reading::key_under))]
    fn key(&mut self) -> Result<Key, ReadFault>
        ensures { Reads (λ k. k) result self.new.rest.now (key_at self.old.rest.now) }
    {
        let start = self.rest;
        match self.byte()? {
            kinds::KEY_ONE => Ok(Key::One(self.part()?)),
            kinds::KEY_TWO => {
                let first = self.part()?;
                let second = self.part()?;
                Ok(Key::Two(first, second))
            }
            _ => Err(self.refuse(start, Why::Kind)),
        }
    }

    #[tactic(auto, unfolding(crate::specs::Reading::name_at))]
    fn name(&mut self) -> Result<Form, ReadFault>
        ensures { Reads (λ f. tree_of f) result self.new.rest.now (name_at self.old.rest.now) }
    {
        let high = self.bytes(3)?;
        let at = self.rest;
        let low = self.byte()?;
        match Name::new(u32::from_be_bytes([high[0], high[1], high[2], low])) {
            Some(name) => Ok(Form::Name(name)),
            None => Err(self.refuse(at, Why::ZeroName)),
        }
    }

    fn nonce(&mut self) -> Result<Nonce, ReadFault>
        ensures { Reads (λ n. n) result self.new.rest.now (bytes_at 16 self.old.rest.now) }
    {
        let front = self.bytes(16)?;
        let mut nonce = [0; 16];
        nonce.copy_from_slice(front);
        Ok(Nonce(nonce))
    }

    fn tag(&mut self) -> Result<Tag, ReadFault>
        ensures { Reads (λ t. t) result self.new.rest.now (bytes_at 4 self.old.rest.now) }
    {
        let front = self.bytes(4)?;
        let mut tag = [0; 4];
        tag.copy_from_slice(front);
        Ok(Tag(tag))
    }

    fn text(&mut self, alloc: Global) -> Result<Text, ReadFault>
        ensures { Reads (λ t. t) result self.new.rest.now
            (sized_at 1024 Why.LongText self.old.rest.now) }
    {
        let start = self.rest;
        let bytes = self.sized(TEXT_MAX, Why::LongText)?;
        match Text::new(Vec::from_slice(alloc, bytes)?) {
            Ok(text) => Ok(text),
            Err(_) => Err(self.refuse(start, Why::LongText)),
        }
    }

    fn blob(&mut self, alloc: Global) -> Result<Bytes, ReadFault>
        ensures { Reads (λ b. b) result self.new.rest.now
            (sized_at 4096 Why.LongBlob self.old.rest.now) }
    {
        let bytes = self.sized(BLOB_MAX, Why::LongBlob)?;
        Ok(Bytes::new(Vec::from_slice(alloc, bytes)?))
    }

    /// Reads a term that may take so many levels.
    #[cycle(read)]
    #[tactic(auto, unfolding(crate::specs::Reading::term_at))]
    pub(crate) fn term(&mut self, alloc: Global, left: u32) -> Result<Term, ReadFault>
        requires { 0 < left }
        ensures { Reads (λ t. t) result self.new.rest.now (term_at left self.old.rest.now) }
    {
        let start = self.rest;
        let kind = self.byte()?;
        let form = self.form(alloc, start, kind, left - 1)?;
        Ok(Term::of(form))
    }

    /// Reads what follows a kind, which stands at the start, with so many levels below it.
    #[cycle(read)]
    #[tactic(auto, unfolding(crate::specs::Reading::tree_under))]
    fn form(
        &mut self,
        alloc: Global,
        start: &'a [u8],
        kind: u8,
        below: u32,
    ) -> Result<Form, ReadFault>
        ensures { Reads (λ f. tree_of f) result self.new.rest.now
            (tree_under (term_at below) below start.now kind self.old.rest.now) }
    {
        match kind {
            kinds::NAME => self.name(),
            kinds::TIME => Ok(Form::Stamp(Stamp::Time(self.u64()?))),
            kinds::SEQ => Ok(Form::Stamp(Stamp::Seq(self.u64()?))),
            kinds::NONCE => Ok(Form::Nonce(self.nonce()?)),
            kinds::PART => Ok(Form::Part(self.part()?)),
            kinds::TEXT => Ok(Form::Text(self.text(alloc)?)),
            kinds::TAG => Ok(Form::Tag(self.tag()?)),
            kinds::TUPLE => Ok(Form::Tuple(Items::new(self.tuple(alloc, below)?))),
            kinds::SEAL => {
                let (key, body) = self.sealed(alloc, start, below)?;
                Ok(Form::Seal(key, body))
            }
            kinds::CHECK => {
                let (key, body) = self.sealed(alloc, start, below)?;
                Ok(Form::Check(key, body))
            }
            kinds::BLOB => Ok(Form::Blob(self.blob(alloc)?)),
            _ => Err(self.refuse(start, Why::Kind)),
        }
    }

    #[cycle(read)]
    #[tactic(auto, unfolding(crate::specs::Reading::sealed_at))]
    fn sealed(
        &mut self,
        alloc: Global,
        start: &'a [u8],
        below: u32,
    ) -> Result<(Key, Box<Term>), ReadFault>
        ensures { Reads (λ s. (s.0, s.1.value)) result self.new.rest.now
            (sealed_at (term_at below) below start.now self.old.rest.now) }
    {
        if below == 0 {
            return Err(self.refuse(start, Why::Deep));
        }
        let key = self.key()?;
        let body = self.term(alloc, below)?;
        Ok((key, Box::new(alloc, body)?))
    }

    #[cycle(read)]
    #[tactic(auto, unfolding(crate::specs::Reading::tuple_at))]
    fn tuple(&mut self, alloc: Global, below: u32) -> Result<Vec<Term>, ReadFault>
        ensures { Reads (λ items. items.items) result self.new.rest.now
            (tuple_at (term_at below) below self.old.rest.now) }
    {
        let at = self.rest;
        let count = self.byte()?;
        if usize::from(count) > ITEMS_MAX {
            return Err(self.refuse(at, Why::ManyItems));
        }
        if count == 0 {
            return Ok(Vec::new(alloc));
        }
        if below == 0 {
            return Err(self.refuse(at, Why::Deep));
        }
        self.items(alloc, count, below)
    }

    #[cycle(read)]
    fn items(&mut self, alloc: Global, count: u8, below: u32) -> Result<Vec<Term>, ReadFault>
        requires { 0 < below }
        ensures { Reads (λ items. items.items) result self.new.rest.now
            (items_at (term_at below) count self.old.rest.now) }
    {
        let mut items = Vec::new(alloc);
        for _ in 0..count {
            let item = self.term(alloc, below)?;
            items.push(item)?;
        }
        Ok(items)
    }
}
