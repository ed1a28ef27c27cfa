ghost use Rattle.std.specs.Prelude.{◌≡◌, ◌≢◌, [], ◌∷◌, ◌++◌, Err, IfOk, OnOk, length, map, true};
ghost use Rattle.term_values.specs.Trees.{trees};
ghost use Rattle.term_values.specs.Trees as tree;
ghost use Rattle.tagged_codec.specs.Grammar.{IsInLimits, spelling};
ghost use Rattle.script_text.specs.Lines.{is_offered};
ghost use Rattle.authctl.specs.Words.{IsPlan};
ghost use Rattle.authctl.specs.Messages.{AreInLimits, body_of, challenge_of, checked_of};
ghost use Rattle.authctl.specs.Messages.{fresh_tree, is_checking, is_sealing, kind_bytes};
ghost use Rattle.authctl.specs.Messages.{sealed_of, tag_of};
ghost use Rattle.authctl.specs.Walks.{lines_before, message_line, passes_line, walk_messages};
ghost use Rattle.authctl.specs.Walks.{walk_output};

use crate::words::Walk;
use mech_rows::Mech;
use std::alloc::{AllocError, Global};
use tagged_codec::{EncodeFault, encode};
use term_values::{Form, Items, Key, Name, Nonce, Stamp, Tag, Term, Text};

/// What is fresh in a message of a walk.
#[derive(Clone, Copy, Debug, PartialEq, Eq)]
pub enum Fresh {
    /// The first of the counted nonces.
    First,
    /// The second of them.
    Second,
    /// The time at which all clocks stand.
    Now,
}

/// The time at which all clocks stand, in milliseconds.
const WALK_TIME: u64 = 1000;

/// The counted nonce of a number.
fn nonce_term(number: u8) -> Term
    ensures { result ≡ tree.nonce (0xd0 ∷ 0 ∷ 0 ∷ 0 ∷ 0 ∷ 0 ∷ 0 ∷ 0 ∷ 0 ∷ 0 ∷ 0 ∷ 0 ∷ 0 ∷ 0 ∷ 0
        ∷ number ∷ []) }
{
    Term::of(Form::Nonce(Nonce([0xd0, 0, 0, 0, 0, 0, 0, 0, 0, 0, 0, 0, 0, 0, 0, number])))
}

fn fresh_term(fresh: Fresh) -> Term
    ensures { result ≡ fresh_tree fresh }
{
    match fresh {
        Fresh::First => nonce_term(0),
        Fresh::Second => nonce_term(1),
        Fresh::Now => Term::of(Form::Stamp(Stamp::Time(WALK_TIME))),
    }
}

/// The text of a slot for which none was given.
fn empty_text(alloc: Global) -> Term
    ensures { result ≡ tree.text [] }
{
    match Text::new(Vec::new(alloc)) {
        Ok(text) => Term::of(Form::Text(text)),
        Err(_) => unreachable!(),
    }
}

/// The family of a mechanism and its number there.
fn kind_of(mech: Mech) -> [u8; 2]
    requires { is_offered mech ≡ true }
    ensures { result ≡ kind_bytes mech }
{
    match mech {
        Mech::E1 => [1, 1],
        Mech::E2 => [1, 2],
        Mech::E3 => [1, 3],
        Mech::E4 => [1, 4],
        Mech::C1 => [2, 1],
        Mech::C2 => [2, 2],
        Mech::C3 => [2, 3],
        Mech::C4 => [2, 4],
        _ => unreachable!(),
    }
}

/// The tag of a pass and of a part in it.
fn tag_term(walk: &Walk, pass: u8, part: u8) -> Term
    requires { is_offered walk.now.mech ≡ true }
    ensures { result ≡ tag_of walk.now pass part }
{
    let kind = kind_of(walk.mech);
    Term::of(Form::Tag(Tag([kind[0], kind[1], pass, part])))
}

fn tuple_of(items: Vec<Term>) -> Term
    ensures { result ≡ tree.tuple (trees items.items) }
{
    Term::of(Form::Tuple(Items::new(items)))
}

fn name_term(name: Name) -> Term
    ensures { result ≡ tree.name name }
{
    Term::of(Form::Name(name))
}

/// Appends what is fresh.
fn put_fresh(items: &mut Vec<Term>, fresh: &[Fresh]) -> Result<(), AllocError>
    ensures { OnOk result (items.new.items ≡ items.old.items ++ map fresh_tree fresh.now) }
{
    for one in fresh {
        items.push(fresh_term(*one))?;
    }
    Ok(())
}

/// What is sealed or checked.
fn body(alloc: Global, walk: &Walk, pass: u8, fresh: &[Fresh]) -> Result<Term, AllocError>
    requires { is_offered walk.now.mech ≡ true }
    ensures { IfOk result (λ t. t ≡ body_of walk.now pass fresh.now) }
{
    let mut items = vec![in alloc;
        tag_term(walk, pass, 1),
        name_term(walk.a),
        name_term(walk.b),
    ]?;
    put_fresh(&mut items, fresh)?;
    items.push(empty_text(alloc))?;
    Ok(tuple_of(items))
}

/// The verifier's challenge.
fn challenge(alloc: Global, walk: &Walk) -> Result<Term, AllocError>
    requires { is_offered walk.now.mech ≡ true }
    ensures { IfOk result (λ t. t ≡ challenge_of walk.now) }
{
    Ok(tuple_of(vec![in alloc;
        tag_term(walk, 1, 0),
        fresh_term(Fresh::First),
        empty_text(alloc),
    ]?))
}

/// A message with a sealed body.
fn sealed(alloc: Global, walk: &Walk, pass: u8, fresh: &[Fresh]) -> Result<Term, AllocError>
    requires { is_offered walk.now.mech ≡ true }
    ensures { IfOk result (λ t. t ≡ sealed_of walk.now pass fresh.now) }
{
    let body = body(alloc, walk, pass, fresh)?;
    let seal = Term::of(Form::Seal(Key::One(walk.part), Box::new(alloc, body)?));
    Ok(tuple_of(vec![in alloc; tag_term(walk, pass, 0), empty_text(alloc), seal]?))
}

/// A message with the check of a body, and what of it is shown beside.
fn checked(
    alloc: Global,
    walk: &Walk,
    pass: u8,
    shown: &[Fresh],
    fresh: &[Fresh],
) -> Result<Term, AllocError>
    requires { is_offered walk.now.mech ≡ true }
    ensures { IfOk result (λ t. t ≡ checked_of walk.now pass shown.now fresh.now) }
{
    let body = body(alloc, walk, pass, fresh)?;
    let check = Term::of(Form::Check(Key::One(walk.part), Box::new(alloc, body)?));
    let mut items = vec![in alloc; tag_term(walk, pass, 0)]?;
    put_fresh(&mut items, shown)?;
    items.push(empty_text(alloc))?;
    items.push(empty_text(alloc))?;
    items.push(check)?;
    Ok(tuple_of(items))
}

/// Two messages.
fn two(alloc: Global, first: Term, second: Term) -> Result<Vec<Term>, AllocError>
    ensures { IfOk result (λ ts. ts.items ≡ first ∷ second ∷ []) }
{
    Ok(vec![in alloc; first, second]?)
}

/// Three messages.
fn three(alloc: Global, first: Term, second: Term, third: Term) -> Result<Vec<Term>, AllocError>
    ensures { IfOk result (λ ts. ts.items ≡ first ∷ second ∷ third ∷ []) }
{
    Ok(vec![in alloc; first, second, third]?)
}

/// The messages of a mechanism that seals.
#[tactic(auto, using(crate::proofs::Fits::messages_e1, crate::proofs::Fits::messages_e2, crate::proofs::Fits::messages_e3, crate::proofs::Fits::messages_e4))]
fn sealed_messages(alloc: Global, walk: &Walk) -> Result<Vec<Term>, AllocError>
    requires { is_sealing walk.now.mech ≡ true }
    ensures { IfOk result (λ ts. ts.items ≡ walk_messages walk.now) }
{
    match walk.mech {
        Mech::E1 => {
            let first = sealed(alloc, walk, 1, &[Fresh::Now])?;
            Ok(vec![in alloc; first]?)
        }
        Mech::E2 => {
            let first = challenge(alloc, walk)?;
            let second = sealed(alloc, walk, 2, &[Fresh::First])?;
            two(alloc, first, second)
        }
        Mech::E3 => {
            let first = sealed(alloc, walk, 1, &[Fresh::Now])?;
            let second = sealed(alloc, walk, 2, &[Fresh::Now])?;
            two(alloc, first, second)
        }
        Mech::E4 => {
            let first = challenge(alloc, walk)?;
            let second = sealed(alloc, walk, 2, &[Fresh::Second, Fresh::First])?;
            let third = sealed(alloc, walk, 3, &[Fresh::First, Fresh::Second])?;
            three(alloc, first, second, third)
        }
        _ => unreachable!(),
    }
}

/// The messages of the mechanism of three passes that checks.
fn checked_three(alloc: Global, walk: &Walk) -> Result<Vec<Term>, AllocError>
    requires { walk.now.mech ≡ Mech.C4 }
    ensures { IfOk result (λ ts. ts.items ≡ walk_messages walk.now) }
{
    let first = challenge(alloc, walk)?;
    let second = checked(
        alloc,
        walk,
        2,
        &[Fresh::Second],
        &[Fresh::Second, Fresh::First],
    )?;
    let third = checked(alloc, walk, 3, &[], &[Fresh::First, Fresh::Second])?;
    let all = three(alloc, first, second, third)?;
    Ok(all)
}

/// The messages of a mechanism that checks.
#[tactic(auto, using(crate::proofs::Fits::messages_c1, crate::proofs::Fits::messages_c2, crate::proofs::Fits::messages_c3))]
fn checked_messages(alloc: Global, walk: &Walk) -> Result<Vec<Term>, AllocError>
    requires { is_checking walk.now.mech ≡ true }
    ensures { IfOk result (λ ts. ts.items ≡ walk_messages walk.now) }
{
    match walk.mech {
        Mech::C1 => {
            let first = checked(alloc, walk, 1, &[Fresh::Now], &[Fresh::Now])?;
            Ok(vec![in alloc; first]?)
        }
        Mech::C2 => {
            let first = challenge(alloc, walk)?;
            let second = checked(alloc, walk, 2, &[], &[Fresh::First])?;
            two(alloc, first, second)
        }
        Mech::C3 => {
            let first = checked(alloc, walk, 1, &[Fresh::Now], &[Fresh::Now])?;
            let second = checked(alloc, walk, 2, &[Fresh::Now], &[Fresh::Now])?;
            two(alloc, first, second)
        }
        Mech::C4 => checked_three(alloc, walk),
        _ => unreachable!(),
    }
}

/// The messages of a walk.
fn messages(alloc: Global, walk: &Walk) -> Result<Vec<Term>, AllocError>
    requires { IsPlan walk.now }
    ensures { IfOk result (λ ts. ts.items ≡ walk_messages walk.now) }
{
    match walk.mech {
        Mech::E1 | Mech::E2 | Mech::E3 | Mech::E4 => sealed_messages(alloc, walk),
        Mech::C1 | Mech::C2 | Mech::C3 | Mech::C4 => checked_messages(alloc, walk),
        _ => unreachable!(),
    }
}

/// Appends the line of a message.
fn put_message(
    alloc: Global,
    text: &mut Vec<u8>,
    number: usize,
    message: &Term,
) -> Result<(), EncodeFault>
    requires { IsInLimits message.now }
    ensures put { OnOk result (text.new.items ≡ text.old.items ++ message_line number
        (spelling message.now)) }
    ensures memory { result ≢ Err EncodeFault.TooLarge }
{
    let bytes = encode(alloc, message)?;
    let digits = hex::encode(alloc, &bytes)?;
    let line = format!(in alloc; "message {number} {digits}\n")?;
    text.extend_from_slice(line.as_bytes())?;
    Ok(())
}

/// Appends the last line.
fn put_passes(alloc: Global, text: &mut Vec<u8>, count: usize) -> Result<(), EncodeFault>
    ensures put { OnOk result (text.new.items ≡ text.old.items ++ passes_line count) }
    ensures memory { result ≢ Err EncodeFault.TooLarge }
{
    let line = format!(in alloc; "passes {count}\n")?;
    text.extend_from_slice(line.as_bytes())?;
    Ok(())
}

/// The lines of the messages, and their number.
fn lines(alloc: Global, messages: &[Term]) -> Result<Vec<u8>, EncodeFault>
    requires { AreInLimits messages.now }
    ensures output { IfOk result (λ v. v.items ≡ lines_before
        (passes_line (length messages.now)) 1 messages.now) }
    ensures memory { result ≢ Err EncodeFault.TooLarge }
{
    let mut text = Vec::new(alloc);
    for (place, message) in messages.iter().enumerate() {
        put_message(alloc, &mut text, place + 1, message)?;
    }
    put_passes(alloc, &mut text, messages.len())?;
    Ok(text)
}

/// The whole output of a walk. Its messages keep the limits of spellings, so the one fault is want of memory.
#[tactic(auto, using(crate::proofs::Fits::walk_limits, crate::proofs::Fits::walk_count))]
pub fn walk_text(alloc: Global, walk: &Walk) -> Result<Vec<u8>, EncodeFault>
    requires { IsPlan walk.now }
    ensures output { IfOk result (λ v. v.items ≡ walk_output walk.now) }
    ensures memory { result ≢ Err EncodeFault.TooLarge }
{
    let messages = messages(alloc, walk)?;
    lines(alloc, messages.as_slice())
}
