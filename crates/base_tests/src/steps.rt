use mech_rows::{Clear, Mech, Peer, Refusal, Ring, Slot, Texts};
use std::test::Fail;
use term_values::{Key, Name, Nonce, Part, Stamp, StampKind, Tag, Term, Text};
use text_hooks::{
    Hook, Judgement, Rule, SlotValue, body_of, compare_nonce, judge_by, key_between, message_of,
    name_term, nonce_term, own_text, read_body, read_message, stamp_term, tag_term, text_term,
};

#[test]
fn texts_are_judged(rt: HostRuntime) -> Result<(), Fail> {
    let prefix = Text::new(b"ab".to_vec(rt.alloc())?)?;
    let rule = Rule {
        mech: Mech::E2,
        slot: Slot::X2,
        longest: 3,
        prefix,
    };
    let rules = vec![in rt.alloc(); rule.copy(rt.alloc())?]?;
    assert_eq!(rt; judge_by(&rules, Mech::E2, Slot::X2, b"ab"), true);
    assert_eq!(rt; judge_by(&rules, Mech::E2, Slot::X2, b"abc"), true);
    assert_eq!(rt; judge_by(&rules, Mech::E2, Slot::X2, b"abcd"), false);
    assert_eq!(rt; judge_by(&rules, Mech::E2, Slot::X2, b"ba"), false);
    assert_eq!(rt; judge_by(&rules, Mech::E2, Slot::X2, b""), false);
    assert_eq!(rt; judge_by(&rules, Mech::E2, Slot::X3, b"ba"), true);
    assert_eq!(rt; judge_by(&rules, Mech::E1, Slot::X2, b"ba"), true);
    assert_eq!(rt; judge_by(&[], Mech::E2, Slot::X2, b"ba"), true);

    let same = vec![in rt.alloc(); rule]?;
    let judgement: Judgement = Box::new(
        rt.alloc(),
        move |mech: Mech, slot: Slot, text: &[u8]| judge_by(&same, mech, slot, text),
    )?;
    let hook = Hook::new(rules, judgement);
    assert!(rt; hook.judge(Mech::E2, Slot::X2, b"abc"));
    assert!(rt; !hook.judge(Mech::E2, Slot::X2, b"abcd"));
    assert!(rt; hook.judge(Mech::E2, Slot::X3, b"ba"));
    assert_eq!(rt; hook.rules().len(), 1);
    Ok(())
}

/// The message and the body of a pass, made and read again; and what each fault of it is called.
#[test]
fn messages_are_made_and_read(rt: HostRuntime) -> Result<(), Fail> {
    let alloc = rt.alloc();
    let a = Name::new(1).expect(&rt, "a name");
    let b = Name::new(2).expect(&rt, "a name");
    let nonce = Nonce([7; 16]);
    let x1 = Text::new(b"hello".to_vec(alloc)?)?;
    let tag = Tag([1, 2, 1, 0]);
    let shown = vec![in alloc; tag_term(tag), nonce_term(&nonce), text_term(alloc, &x1)?]?;
    let message = message_of(alloc, shown, &[])?;
    let clear = [Clear::Slot(Slot::Rb), Clear::Slot(Slot::X1)];
    let items = read_message(&message, &tag, b, &clear, &[])?;
    assert_eq!(rt; items.len(), 3);
    assert!(rt;
        read_message(&message, &Tag([1, 2, 2, 0]), b, &clear, &[]).err() == Some(Refusal::WrongPass)
    );
    assert!(rt;
        read_message(&message, &tag, b, &[Clear::Slot(Slot::Rb)], &[]).err()
            == Some(Refusal::WrongShape { part: 0 })
    );

    let body = body_of(
        alloc,
        Tag([1, 2, 2, 1]),
        &[a, b],
        &[SlotValue::Nonce(nonce)],
        &x1,
    )?;
    let slots = [Slot::Rb, Slot::X2];
    let items = read_body(&body, &Tag([1, 2, 2, 1]), &[a, b], &slots, 1)?;
    assert_eq!(rt; items.len(), 5);
    assert!(rt;
        read_body(&body, &Tag([1, 2, 2, 1]), &[b, a], &slots, 1).err()
            == Some(Refusal::WrongNames { part: 1 })
    );
    assert!(rt;
        read_body(&body, &Tag([1, 2, 2, 0]), &[a, b], &slots, 1).err()
            == Some(Refusal::WrongShape { part: 1 })
    );
    Ok(())
}

#[test]
fn keys_and_own_texts(rt: HostRuntime) -> Result<(), Fail> {
    let alloc = rt.alloc();
    let a = Name::new(1).expect(&rt, "a name");
    let b = Name::new(2).expect(&rt, "a name");
    let part = Part([3; 32]);
    let peer = Peer {
        name: b,
        server: false,
        part: Some(part),
    };
    let ring = Ring {
        me: a,
        server: false,
        kind: StampKind::Time,
        window: 5000,
        peers: vec![in alloc; peer]?,
    };
    assert!(rt; key_between(&ring, a, b) == Key::One(part));
    assert!(rt; key_between(&ring, b, a) == Key::One(part));
    let x1 = Text::new(b"x".to_vec(alloc)?)?;
    let texts = Texts::new(vec![in alloc; (Slot::X1, x1)]?);
    assert_eq!(rt; own_text(alloc, &texts, Slot::X1)?.list(), b"x".as_slice());
    assert_eq!(rt; own_text(alloc, &texts, Slot::X2)?.list().len(), 0);
    assert!(rt; compare_nonce(&Nonce([1; 16]), &Nonce([1; 16]), 1, Slot::Rb).is_ok());
    assert!(rt;
        compare_nonce(&Nonce([1; 16]), &Nonce([2; 16]), 1, Slot::Rb).err()
            == Some(Refusal::WrongValue {
                part: 1,
                slot: Slot::Rb
            })
    );
    let _ = stamp_term(Stamp::Time(5));
    let _ = name_term(a);
    Ok(())
}
