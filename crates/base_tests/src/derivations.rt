use attacker_model::Knowledge;
use std::alloc::Global;
use std::test::Fail;
use term_values::{
    Bytes, Form, Items, Key, Name, Nonce, OutOfMemory, Part, Stamp, Tag, Term, Text,
};

/// Each row is told to one attacker, letter by letter: `a` to `h` are parts, `n t r y z x` a name, a
/// stamp, a nonce, a text, a tag and a blob; a digit makes a tuple of so many of the last terms; after
/// the letters `A` to `H` of a key, `$` seals the last term and `!` makes its check. The attacker
/// learns the last term at `.`; at `+` it derives it, and at `-` it does not.
const ROWS: [&str; 17] = [
    "n+t+r+y+z+x+a-0+nx2+na2-nA$-nA!-",
    "a.a+aA$+nA!+aa2+b-bA$-nAB$-",
    "bA$.b-bA$+bA!-a-nbA$2+",
    "bA$.cB$.b-c-a.b+c+bc2+cB!+d-",
    "dA$.eA$.fA$.d-a.d+e+f+def3+",
    "ncA$x2B$2.cA$-b.cA$+c-cA$x2+a.c+",
    "cA!.a.c-cA!+",
    "cAB$.a.c-cBA$-b.c+cBA$+",
    "cAB$.b.c-a.c+",
    "cAA$.a.c+",
    "aC$D$.eA$.c.e-aC$-d.aC$+a+e+",
    "aB$.bA$.a-b-ab2-",
    "ab2.a+b+ba2+c-",
    "0.0.0A$-a.0A$+",
    "a.a.b.a+b+",
    "bA$cB$2.a.ba2.c+",
    "eAB$.fAC$.gAB$.hDA$.b.e-a.e+g+f-h-c.f+d.h+",
];

fn key_of(letters: &[u8]) -> Key {
    match letters {
        [first, second] => Key::Two(Part([*first; 32]), Part([*second; 32])),
        [only] => Key::One(Part([*only; 32])),
        _ => Key::One(Part([0; 32])),
    }
}

fn last_of(alloc: Global, terms: &[Term], count: usize) -> Result<Vec<Term>, OutOfMemory> {
    let mut items = Vec::new(alloc);
    for term in &terms[terms.len().saturating_sub(count)..] {
        items.push(term.copy(alloc)?)?;
    }
    Ok(items)
}

fn body_of(alloc: Global, terms: &[Term]) -> Result<Term, OutOfMemory> {
    match terms.last() {
        Some(term) => term.copy(alloc),
        None => Ok(Term::of(Form::Tag(Tag([0; 4])))),
    }
}

fn form_of(alloc: Global, letter: u8, terms: &[Term], key: Key) -> Result<Form, Fail> {
    Ok(match letter {
        b'0'..=b'9' => { Form::Tuple(Items::new(last_of(alloc, terms, (letter - b'0') as usize)?)) }
        b'$' => Form::Seal(key, Box::new(alloc, body_of(alloc, terms)?)?),
        b'!' => Form::Check(key, Box::new(alloc, body_of(alloc, terms)?)?),
        b'n' => Form::Name(Name::new(1).ok_or("no name")?),
        b't' => Form::Stamp(Stamp::Seq(7)),
        b'r' => Form::Nonce(Nonce([4; 16])),
        b'y' => Form::Text(Text::new(b"abc".to_vec(alloc)?)?),
        b'z' => Form::Tag(Tag([1, 4, 2, 1])),
        b'x' => Form::Blob(Bytes::new(b"xyz".to_vec(alloc)?)),
        part => Form::Part(Part([part; 32])),
    })
}

fn used_by(letter: u8) -> usize {
    match letter {
        b'0'..=b'9' => (letter - b'0') as usize,
        b'$' | b'!' => 1,
        _ => 0,
    }
}

fn learn_last(alloc: Global, knowledge: &mut Knowledge, terms: &[Term]) -> Result<(), OutOfMemory> {
    match terms.last() {
        Some(term) => knowledge.learn(alloc, term),
        None => Ok(()),
    }
}

fn derives_last(knowledge: &Knowledge, terms: &[Term]) -> Result<bool, OutOfMemory> {
    match terms.last() {
        Some(term) => knowledge.derives(term),
        None => Ok(false),
    }
}

/// Whether the letter is as the attacker has it.
fn tell(
    alloc: Global,
    letter: u8,
    knowledge: &mut Knowledge,
    terms: &mut Vec<Term>,
    key: &mut Vec<u8>,
) -> Result<bool, Fail> {
    match letter {
        b'.' => learn_last(alloc, knowledge, terms.as_slice())?,
        b'+' => return Ok(derives_last(knowledge, terms.as_slice())?),
        b'-' => return Ok(!derives_last(knowledge, terms.as_slice())?),
        b'A'..=b'H' => key.push(letter - b'A' + b'a')?,
        _ => {
            let form = form_of(alloc, letter, terms.as_slice(), key_of(key.as_slice()))?;
            terms.truncate(terms.len().saturating_sub(used_by(letter)));
            terms.push(Term::of(form))?;
            if letter == b'$' || letter == b'!' {
                key.clear();
            }
        }
    }
    Ok(true)
}

#[test]
fn what_is_derivable_is_found_and_nothing_else(rt: HostRuntime) -> Result<(), Fail> {
    for row in ROWS {
        let mut knowledge = Knowledge::new(rt.alloc(), &[])?;
        let mut terms = Vec::new(rt.alloc());
        let mut key = Vec::new(rt.alloc());
        for (place, letter) in row.as_bytes().iter().enumerate() {
            let holds = tell(rt.alloc(), *letter, &mut knowledge, &mut terms, &mut key)?;
            assert!(rt; holds, "letter {place} of {row}");
        }
    }
    Ok(())
}

#[test]
fn a_due_term_is_learnt_later_and_copies_know_the_same(rt: HostRuntime) -> Result<(), Fail> {
    let part = Term::of(Form::Part(Part([1; 32])));
    let mut knowledge = Knowledge::new(rt.alloc(), &[Part([2; 32])])?;
    knowledge.ready(rt.alloc(), &part)?;
    assert!(rt; !knowledge.derives(&part)?);
    assert_eq!(rt; knowledge.taken_apart().len(), 1);
    let mut copied = knowledge.copy(rt.alloc())?;
    knowledge.learn_due();
    assert!(rt; knowledge.derives(&part)?);
    assert_eq!(rt; knowledge.taken_apart().len(), 2);
    assert!(rt; !copied.derives(&part)?);
    copied.learn_due();
    assert!(rt; copied.derives(&part)?);
    Ok(())
}
