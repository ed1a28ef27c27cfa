use std::alloc::Global;
use std::test::Fail;
use term_values::{Bytes, Form, Items, Key, Name, Nonce, Part, Stamp, Tag, Term, Text};

const FIRST: Part = Part([0x11; 32]);

const SECOND: Part = Part([0x22; 32]);

/// Of each term below: its depth, the bytes of its layouts, and whether the second part occurs in it.
const ROWS: [(u32, u32, bool); 13] = [
    (1, 5, false),
    (1, 9, false),
    (1, 17, false),
    (1, 33, false),
    (1, 33, true),
    (1, 6, false),
    (1, 5, false),
    (1, 8, false),
    (1, 2, false),
    (2, 7, false),
    (2, 39, false),
    (2, 71, true),
    (3, 74, true),
];

fn form_of(alloc: Global, row: usize) -> Result<Form, Fail> {
    Ok(match row {
        0 => Form::Name(Name::new(4_294_967_295).ok_or("no name")?),
        1 => Form::Stamp(Stamp::Time(7)),
        2 => Form::Nonce(Nonce([4; 16])),
        3 => Form::Part(FIRST),
        4 => Form::Part(SECOND),
        5 => Form::Text(Text::new(b"abc".to_vec(alloc)?)?),
        6 => Form::Tag(Tag([1, 2, 2, 1])),
        7 => Form::Blob(Bytes::new(b"abcde".to_vec(alloc)?)),
        8 => Form::Tuple(Items::new(Vec::new(alloc))),
        9 => Form::Tuple(Items::new(vec![in alloc; name_of(1)?]?)),
        10 => Form::Seal(Key::One(FIRST), Box::new(alloc, name_of(1)?)?),
        11 => Form::Check(Key::Two(FIRST, SECOND), Box::new(alloc, name_of(1)?)?),
        _ => Form::Seal(Key::One(FIRST), Box::new(alloc, pair_of(alloc, SECOND)?)?),
    })
}

fn name_of(number: u32) -> Result<Term, Fail> {
    Ok(Term::of(Form::Name(Name::new(number).ok_or("no name")?)))
}

fn pair_of(alloc: Global, part: Part) -> Result<Term, Fail> {
    let items = vec![in alloc; name_of(1)?, Term::of(Form::Part(part))]?;
    Ok(Term::of(Form::Tuple(Items::new(items))))
}

#[test]
fn terms_are_measured_searched_and_copied(rt: HostRuntime) -> Result<(), Fail> {
    let part = Term::of(Form::Part(SECOND));
    for (i, (depth, length, holds)) in ROWS.into_iter().enumerate() {
        let term = Term::of(form_of(rt.alloc(), i)?);
        assert_eq!(rt; term.depth(), depth, "depth of row {i}");
        assert!(rt; term.within(length), "length of row {i}");
        assert!(rt; !term.within(length.saturating_sub(1)), "length of row {i}");
        assert_eq!(rt; term.occurs(&part), holds, "part in row {i}");
        let copy = term.copy(rt.alloc())?;
        for k in 0..ROWS.len() {
            let other = Term::of(form_of(rt.alloc(), k)?);
            assert_eq!(rt; copy.same(&other), i == k, "rows {i} and {k}");
        }
        assert!(rt; Term::of(copy.into_form()).same(&term), "form of row {i}");
    }
    Ok(())
}

#[test]
fn items_are_counted_from_zero(rt: HostRuntime) -> Result<(), Fail> {
    let pair = pair_of(rt.alloc(), FIRST)?;
    assert!(rt; pair.item(0).ok_or("no item")?.same(&name_of(1)?));
    assert!(rt; pair.item(2).is_none());
    assert!(rt; name_of(5)?.item(0).is_none());
    Ok(())
}

#[test]
fn small_values_keep_their_limits(rt: HostRuntime) -> Result<(), Fail> {
    let alloc = rt.alloc();
    assert_eq!(rt; Name::new(0), None);
    assert_eq!(rt; Name::new(1).ok_or("no name")?.get(), 1);
    assert!(rt; Text::new(vec![in alloc; 0; 1025]?).is_err());
    let text = Text::new(vec![in alloc; 7; 1024]?)?;
    assert_eq!(rt; text.copy(alloc)?.list(), [7; 1024].as_slice());
    let blob = Bytes::new(b"abc".to_vec(alloc)?);
    assert_eq!(rt; blob.copy(alloc)?.list(), b"abc".as_slice());
    Ok(())
}
