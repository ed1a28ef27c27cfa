//! Terms that are made by hand, for parties 1 and 2.

use super::fixtures::{name, part, text};
use std::alloc::Global;
use std::process::Abort;
use term_values::{Form, Items, Key, Nonce, OutOfMemory, Tag, Term};
use text_hooks::{name_term, nonce_term, tag_term};

/// A term that is made by hand.
#[derive(Clone, Copy)]
pub(super) enum Word {
    /// Message 1 of E2 without its nonce.
    Short,
    /// Message 1 of E2 with the nonce of this first byte and last two bytes.
    Challenge(u8, u8, u8),
    /// Message 2 of E2 with the first counted nonce, under the part of this byte.
    Reply(u8),
}

/// An item of such a term.
#[derive(Clone, Copy)]
enum Atom {
    Tag([u8; 4]),
    Name(u32),
    /// The nonce of this first byte and last two bytes, with zeros between. Counted nonces begin with 0xd0 and end with their
    /// number.
    Nonce(u8, u8, u8),
    NoText,
}

const SHORT: [Atom; 2] = [Atom::Tag([1, 2, 1, 0]), Atom::NoText];

/// What stands before the seal in message 2 of E2.
const CLEAR: [Atom; 2] = [Atom::Tag([1, 2, 2, 0]), Atom::NoText];

/// What is sealed in message 2 of E2.
const BODY: [Atom; 5] = [
    Atom::Tag([1, 2, 2, 1]),
    Atom::Name(1),
    Atom::Name(2),
    Atom::Nonce(0xd0, 0, 0),
    Atom::NoText,
];

fn nonce(lead: u8, high: u8, low: u8) -> Nonce {
    Nonce([lead, 0, 0, 0, 0, 0, 0, 0, 0, 0, 0, 0, 0, 0, high, low])
}

fn item(rt: &impl Abort, alloc: Global, atom: Atom) -> Term {
    match atom {
        Atom::Tag(bytes) => tag_term(Tag(bytes)),
        Atom::Name(number) => name_term(name(rt, number)),
        Atom::Nonce(lead, high, low) => nonce_term(&nonce(lead, high, low)),
        Atom::NoText => Term::of(Form::Text(text(rt, alloc, &[]).expect(rt, "memory"))),
    }
}

fn add_atoms(
    rt: &impl Abort,
    alloc: Global,
    items: &mut Vec<Term>,
    atoms: &[Atom],
) -> Result<(), OutOfMemory> {
    for atom in atoms {
        items.push(item(rt, alloc, *atom))?;
    }
    Ok(())
}

/// These items, in a list.
fn listed(rt: &impl Abort, alloc: Global, atoms: &[Atom]) -> Vec<Term> {
    let mut items = Vec::new(alloc);
    add_atoms(rt, alloc, &mut items, atoms).expect(rt, "memory");
    items
}

fn tuple(items: Vec<Term>) -> Term {
    Term::of(Form::Tuple(Items::new(items)))
}

/// The body under the part of this byte.
fn sealed(alloc: Global, byte: u8, body: Term) -> Result<Term, OutOfMemory> {
    let body = Box::new(alloc, body)?;
    Ok(Term::of(Form::Seal(Key::One(part(byte)), body)))
}

/// Message 2 of E2 with this seal.
fn reply(rt: &impl Abort, alloc: Global, seal: Term) -> Result<Term, OutOfMemory> {
    let mut items = listed(rt, alloc, &CLEAR);
    items.push(seal)?;
    Ok(tuple(items))
}

/// The term of a word.
pub(super) fn term_of(rt: &impl Abort, alloc: Global, word: Word) -> Result<Term, OutOfMemory> {
    match word {
        Word::Short => Ok(tuple(listed(rt, alloc, &SHORT))),
        Word::Challenge(lead, high, low) => {
            let atoms = [
                Atom::Tag([1, 2, 1, 0]),
                Atom::Nonce(lead, high, low),
                Atom::NoText,
            ];
            Ok(tuple(listed(rt, alloc, &atoms)))
        }
        Word::Reply(byte) => {
            let body = tuple(listed(rt, alloc, &BODY));
            reply(rt, alloc, sealed(alloc, byte, body)?)
        }
    }
}
