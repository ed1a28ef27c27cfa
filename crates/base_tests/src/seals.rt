use seal_symbolic::Symbolic;
use seal_trait::Sealer;
use std::test::Fail;
use term_values::{Bytes, Form, Key, Nonce, Part, Term};

#[test]
fn seals_open_and_checks_hold(rt: HostRuntime) -> Result<(), Fail> {
    let alloc = rt.alloc();
    let sealer = Symbolic::new();
    assert!(rt; !sealer.wants_iv());
    let key = Key::One(Part([7; 32]));
    let longer = Key::Two(Part([7; 32]), Part([7; 32]));
    let body = Term::of(Form::Nonce(Nonce([1; 16])));
    let other = Term::of(Form::Nonce(Nonce([2; 16])));
    let seal = sealer.seal(alloc, &key, &body, None)?;
    let check = sealer.check(alloc, &key, &body)?;
    let blob = Term::of(Form::Blob(Bytes::new(b"\x01".to_vec(alloc)?)));

    let opened = sealer.open(alloc, &key, &seal)?;
    assert!(rt; opened.is_some_and(|term| term.same(&body)));
    assert!(rt; sealer.open(alloc, &longer, &seal)?.is_none());
    assert!(rt; sealer.open(alloc, &key, &check)?.is_none());
    assert!(rt; sealer.open(alloc, &key, &blob)?.is_none());
    assert!(rt; sealer.test(alloc, &key, &body, &check)?);
    assert!(rt; !sealer.test(alloc, &key, &other, &check)?);
    assert!(rt; !sealer.test(alloc, &longer, &body, &check)?);
    assert!(rt; !sealer.test(alloc, &key, &body, &seal)?);
    assert!(rt; !sealer.test(alloc, &key, &body, &blob)?);
    Ok(())
}
