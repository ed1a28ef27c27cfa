use mech_rows::{Mech, Ring, Slot};
use ring_text::{RingFault, RingFile, read_ring};
use std::alloc::Global;
use std::process::Abort;
use std::test::Fail;
use term_values::{Name, OutOfMemory, Part, StampKind};

/// Rings, one line a rule.
const GOOD: [(&str, &str); 24] = [
    (
        "no peers",
        "{\"me\":1,\"kind\":\"party\",\"stamps\":\"time\",\"peers\":[]}",
    ),
    (
        "the least name",
        "{\"me\":1,\"kind\":\"party\",\"stamps\":\"time\",\"peers\":[]}",
    ),
    (
        "the greatest name",
        "{\"me\":4294967295,\"kind\":\"party\",\"stamps\":\"time\",\"peers\":[]}",
    ),
    (
        "a server",
        "{\"me\":1,\"kind\":\"server\",\"stamps\":\"time\",\"peers\":[]}",
    ),
    (
        "sequence numbers",
        "{\"me\":1,\"kind\":\"party\",\"stamps\":\"seq\",\"peers\":[]}",
    ),
    (
        "no window",
        "{\"me\":1,\"kind\":\"party\",\"stamps\":\"time\",\"window\":0,\"peers\":[]}",
    ),
    (
        "the greatest window",
        "{\"me\":1,\"kind\":\"party\",\"stamps\":\"time\",\"window\":600000,\"peers\":[]}",
    ),
    (
        "a peer with no key",
        "{\"me\":1,\"kind\":\"party\",\"stamps\":\"time\",\"peers\":[{\"name\":2\
         ,\"kind\":\"party\"}]}",
    ),
    (
        "a peer with a key",
        "{\"me\":1,\"kind\":\"party\",\"stamps\":\"time\",\"peers\":[{\"name\":2\
         ,\"kind\":\"party\"\
         ,\"key\":\"aaaaaaaaaaaaaaaaaaaaaaaaaaaaaaaaaaaaaaaaaaaaaaaaaaaaaaaaaaaaaaaa\"}]}",
    ),
    (
        "two keys",
        "{\"me\":1,\"kind\":\"party\",\"stamps\":\"time\",\"peers\":[{\"name\":2\
         ,\"kind\":\"party\"\
         ,\"key\":\"aaaaaaaaaaaaaaaaaaaaaaaaaaaaaaaaaaaaaaaaaaaaaaaaaaaaaaaaaaaaaaaa\"}\
         ,{\"name\":3,\"kind\":\"server\"\
         ,\"key\":\"bbbbbbbbbbbbbbbbbbbbbbbbbbbbbbbbbbbbbbbbbbbbbbbbbbbbbbbbbbbbbbbb\"}]}",
    ),
    (
        "two peers with no key",
        "{\"me\":1,\"kind\":\"party\",\"stamps\":\"time\",\"peers\":[{\"name\":2\
         ,\"kind\":\"party\"},{\"name\":3,\"kind\":\"party\"}]}",
    ),
    (
        "a rule",
        "{\"me\":1,\"kind\":\"party\",\"stamps\":\"time\",\"peers\":[]\
         ,\"allow\":[{\"mech\":\"E1\",\"slot\":\"X1\",\"length\":3,\"prefix\":\"00\"}]}",
    ),
    (
        "no rules",
        "{\"me\":1,\"kind\":\"party\",\"stamps\":\"time\",\"peers\":[],\"allow\":[]}",
    ),
    (
        "an empty prefix",
        "{\"me\":1,\"kind\":\"party\",\"stamps\":\"time\",\"peers\":[]\
         ,\"allow\":[{\"mech\":\"E1\",\"slot\":\"X1\",\"length\":3,\"prefix\":\"\"}]}",
    ),
    (
        "the greatest length",
        "{\"me\":1,\"kind\":\"party\",\"stamps\":\"time\",\"peers\":[]\
         ,\"allow\":[{\"mech\":\"E1\",\"slot\":\"X1\",\"length\":1024\
         ,\"prefix\":\"00\"}]}",
    ),
    (
        "two rules of a slot",
        "{\"me\":1,\"kind\":\"party\",\"stamps\":\"time\",\"peers\":[]\
         ,\"allow\":[{\"mech\":\"E1\",\"slot\":\"X1\",\"length\":3,\"prefix\":\"00\"}\
         ,{\"mech\":\"E1\",\"slot\":\"X1\",\"length\":3,\"prefix\":\"00\"}]}",
    ),
    (
        "a text",
        "{\"me\":1,\"kind\":\"party\",\"stamps\":\"time\",\"peers\":[]\
         ,\"texts\":[{\"mech\":\"K9\",\"slot\":\"X9\",\"text\":\"0aff\"}]}",
    ),
    (
        "an empty text",
        "{\"me\":1,\"kind\":\"party\",\"stamps\":\"time\",\"peers\":[]\
         ,\"texts\":[{\"mech\":\"E1\",\"slot\":\"X1\",\"text\":\"\"}]}",
    ),
    (
        "a slot of two mechanisms",
        "{\"me\":1,\"kind\":\"party\",\"stamps\":\"time\",\"peers\":[]\
         ,\"texts\":[{\"mech\":\"E1\",\"slot\":\"X1\",\"text\":\"00\"},{\"mech\":\"E2\"\
         ,\"slot\":\"X1\",\"text\":\"00\"}]}",
    ),
    (
        "two slots of a mechanism",
        "{\"me\":1,\"kind\":\"party\",\"stamps\":\"time\",\"peers\":[]\
         ,\"texts\":[{\"mech\":\"E1\",\"slot\":\"X1\",\"text\":\"00\"},{\"mech\":\"E1\"\
         ,\"slot\":\"X2\",\"text\":\"00\"}]}",
    ),
    (
        "blanks",
        " {\"me\":1,\"kind\":\"party\",\"stamps\":\"time\",\"peers\":[]}\n",
    ),
    (
        "the last of two members",
        "{\"me\":1,\"kind\":\"party\",\"stamps\":\"time\",\"peers\":[],\"me\":7}",
    ),
    (
        "the last of two, the first bad",
        "{\"me\":0,\"kind\":\"party\",\"stamps\":\"time\",\"peers\":[],\"me\":7}",
    ),
    (
        "escapes in a name",
        "{\"\\u006de\":1,\"kind\":\"party\",\"stamps\":\"time\",\"peers\":[]}",
    ),
];

/// Texts that are no ring, one line a rule.
const BAD: [(&str, &str); 55] = [
    ("nothing", ""),
    ("no JSON", "{"),
    (
        "more after it",
        "{\"me\":1,\"kind\":\"party\",\"stamps\":\"time\",\"peers\":[]}1",
    ),
    (
        "a list",
        "[{\"me\":1,\"kind\":\"party\",\"stamps\":\"time\",\"peers\":[]}]",
    ),
    ("a number", "1"),
    (
        "another member",
        "{\"me\":1,\"kind\":\"party\",\"stamps\":\"time\",\"peers\":[],\"mine\":1}",
    ),
    (
        "no name",
        "{\"kind\":\"party\",\"stamps\":\"time\",\"peers\":[]}",
    ),
    ("no kind", "{\"me\":1,\"stamps\":\"time\",\"peers\":[]}"),
    ("no stamps", "{\"me\":1,\"kind\":\"party\",\"peers\":[]}"),
    (
        "no list of peers",
        "{\"me\":1,\"kind\":\"party\",\"stamps\":\"time\"}",
    ),
    (
        "the name 0",
        "{\"me\":0,\"kind\":\"party\",\"stamps\":\"time\",\"peers\":[]}",
    ),
    (
        "a name too great",
        "{\"me\":4294967296,\"kind\":\"party\",\"stamps\":\"time\",\"peers\":[]}",
    ),
    (
        "a negative name",
        "{\"me\":-1,\"kind\":\"party\",\"stamps\":\"time\",\"peers\":[]}",
    ),
    (
        "a name with a point",
        "{\"me\":1.0,\"kind\":\"party\",\"stamps\":\"time\",\"peers\":[]}",
    ),
    (
        "a name with an exponent",
        "{\"me\":1e0,\"kind\":\"party\",\"stamps\":\"time\",\"peers\":[]}",
    ),
    (
        "a name in quotes",
        "{\"me\":\"1\",\"kind\":\"party\",\"stamps\":\"time\",\"peers\":[]}",
    ),
    (
        "the last of two is bad",
        "{\"me\":1,\"kind\":\"party\",\"stamps\":\"time\",\"peers\":[],\"me\":0}",
    ),
    (
        "another kind",
        "{\"me\":1,\"kind\":\"Party\",\"stamps\":\"time\",\"peers\":[]}",
    ),
    (
        "a kind that is no string",
        "{\"me\":1,\"kind\":1,\"stamps\":\"time\",\"peers\":[]}",
    ),
    (
        "other stamps",
        "{\"me\":1,\"kind\":\"party\",\"stamps\":\"times\",\"peers\":[]}",
    ),
    (
        "a window of 600,001",
        "{\"me\":1,\"kind\":\"party\",\"stamps\":\"time\",\"window\":600001,\"peers\":[]}",
    ),
    (
        "a negative window",
        "{\"me\":1,\"kind\":\"party\",\"stamps\":\"time\",\"window\":-1,\"peers\":[]}",
    ),
    (
        "a window of null",
        "{\"me\":1,\"kind\":\"party\",\"stamps\":\"time\",\"window\":null,\"peers\":[]}",
    ),
    (
        "peers that are no list",
        "{\"me\":1,\"kind\":\"party\",\"stamps\":\"time\",\"peers\":{}}",
    ),
    (
        "a peer that is no object",
        "{\"me\":1,\"kind\":\"party\",\"stamps\":\"time\",\"peers\":[2]}",
    ),
    (
        "a peer without a name",
        "{\"me\":1,\"kind\":\"party\",\"stamps\":\"time\"\
         ,\"peers\":[{\"kind\":\"party\"}]}",
    ),
    (
        "a peer without a kind",
        "{\"me\":1,\"kind\":\"party\",\"stamps\":\"time\",\"peers\":[{\"name\":2}]}",
    ),
    (
        "a peer with more",
        "{\"me\":1,\"kind\":\"party\",\"stamps\":\"time\",\"peers\":[{\"name\":2\
         ,\"kind\":\"party\",\"part\":1}]}",
    ),
    (
        "a peer with the name 0",
        "{\"me\":1,\"kind\":\"party\",\"stamps\":\"time\",\"peers\":[{\"name\":0\
         ,\"kind\":\"party\"}]}",
    ),
    (
        "the own name is a peer",
        "{\"me\":1,\"kind\":\"party\",\"stamps\":\"time\",\"peers\":[{\"name\":1\
         ,\"kind\":\"party\"}]}",
    ),
    (
        "two peers of a name",
        "{\"me\":1,\"kind\":\"party\",\"stamps\":\"time\",\"peers\":[{\"name\":2\
         ,\"kind\":\"party\"},{\"name\":2,\"kind\":\"party\"}]}",
    ),
    (
        "a key of 63 digits",
        "{\"me\":1,\"kind\":\"party\",\"stamps\":\"time\",\"peers\":[{\"name\":2\
         ,\"kind\":\"party\"\
         ,\"key\":\"aaaaaaaaaaaaaaaaaaaaaaaaaaaaaaaaaaaaaaaaaaaaaaaaaaaaaaaaaaaaaaa\"}]}",
    ),
    (
        "a key of 62 digits",
        "{\"me\":1,\"kind\":\"party\",\"stamps\":\"time\",\"peers\":[{\"name\":2\
         ,\"kind\":\"party\"\
         ,\"key\":\"aaaaaaaaaaaaaaaaaaaaaaaaaaaaaaaaaaaaaaaaaaaaaaaaaaaaaaaaaaaaaa\"}]}",
    ),
    (
        "a key of 66 digits",
        "{\"me\":1,\"kind\":\"party\",\"stamps\":\"time\",\"peers\":[{\"name\":2\
         ,\"kind\":\"party\"\
         ,\"key\":\"aaaaaaaaaaaaaaaaaaaaaaaaaaaaaaaaaaaaaaaaaaaaaaaaaaaaaaaaaaaaaaaaaa\"}]}",
    ),
    (
        "a key in capitals",
        "{\"me\":1,\"kind\":\"party\",\"stamps\":\"time\",\"peers\":[{\"name\":2\
         ,\"kind\":\"party\"\
         ,\"key\":\"AAAAAAAAAAAAAAAAAAAAAAAAAAAAAAAAAAAAAAAAAAAAAAAAAAAAAAAAAAAAAAAA\"}]}",
    ),
    (
        "a key of other letters",
        "{\"me\":1,\"kind\":\"party\",\"stamps\":\"time\",\"peers\":[{\"name\":2\
         ,\"kind\":\"party\"\
         ,\"key\":\"gaaaaaaaaaaaaaaaaaaaaaaaaaaaaaaaaaaaaaaaaaaaaaaaaaaaaaaaaaaaaaaa\"}]}",
    ),
    (
        "a key of null",
        "{\"me\":1,\"kind\":\"party\",\"stamps\":\"time\",\"peers\":[{\"name\":2\
         ,\"kind\":\"party\",\"key\":null}]}",
    ),
    (
        "two peers with one key",
        "{\"me\":1,\"kind\":\"party\",\"stamps\":\"time\",\"peers\":[{\"name\":2\
         ,\"kind\":\"party\"\
         ,\"key\":\"aaaaaaaaaaaaaaaaaaaaaaaaaaaaaaaaaaaaaaaaaaaaaaaaaaaaaaaaaaaaaaaa\"}\
         ,{\"name\":3,\"kind\":\"party\"\
         ,\"key\":\"aaaaaaaaaaaaaaaaaaaaaaaaaaaaaaaaaaaaaaaaaaaaaaaaaaaaaaaaaaaaaaaa\"}]}",
    ),
    (
        "rules that are no list",
        "{\"me\":1,\"kind\":\"party\",\"stamps\":\"time\",\"peers\":[],\"allow\":null}",
    ),
    (
        "a rule with more",
        "{\"me\":1,\"kind\":\"party\",\"stamps\":\"time\",\"peers\":[]\
         ,\"allow\":[{\"mech\":\"E1\",\"slot\":\"X1\",\"length\":3,\"prefix\":\"00\"\
         ,\"text\":\"\"}]}",
    ),
    (
        "a rule without a prefix",
        "{\"me\":1,\"kind\":\"party\",\"stamps\":\"time\",\"peers\":[]\
         ,\"allow\":[{\"mech\":\"E1\",\"slot\":\"X1\",\"length\":3}]}",
    ),
    (
        "a rule without a length",
        "{\"me\":1,\"kind\":\"party\",\"stamps\":\"time\",\"peers\":[]\
         ,\"allow\":[{\"mech\":\"E1\",\"slot\":\"X1\",\"prefix\":\"00\"}]}",
    ),
    (
        "a rule without a slot",
        "{\"me\":1,\"kind\":\"party\",\"stamps\":\"time\",\"peers\":[]\
         ,\"allow\":[{\"mech\":\"E1\",\"length\":3,\"prefix\":\"00\"}]}",
    ),
    (
        "a rule without a mechanism",
        "{\"me\":1,\"kind\":\"party\",\"stamps\":\"time\",\"peers\":[]\
         ,\"allow\":[{\"slot\":\"X1\",\"length\":3,\"prefix\":\"00\"}]}",
    ),
    (
        "a length of 1,025",
        "{\"me\":1,\"kind\":\"party\",\"stamps\":\"time\",\"peers\":[]\
         ,\"allow\":[{\"mech\":\"E1\",\"slot\":\"X1\",\"length\":1025\
         ,\"prefix\":\"00\"}]}",
    ),
    (
        "no mechanism K7",
        "{\"me\":1,\"kind\":\"party\",\"stamps\":\"time\",\"peers\":[]\
         ,\"allow\":[{\"mech\":\"K7\",\"slot\":\"X1\",\"length\":3,\"prefix\":\"00\"}]}",
    ),
    (
        "no slot X0",
        "{\"me\":1,\"kind\":\"party\",\"stamps\":\"time\",\"peers\":[]\
         ,\"allow\":[{\"mech\":\"E1\",\"slot\":\"X0\",\"length\":3,\"prefix\":\"00\"}]}",
    ),
    (
        "no text in Ra",
        "{\"me\":1,\"kind\":\"party\",\"stamps\":\"time\",\"peers\":[]\
         ,\"allow\":[{\"mech\":\"E1\",\"slot\":\"Ra\",\"length\":3,\"prefix\":\"00\"}]}",
    ),
    (
        "half a byte",
        "{\"me\":1,\"kind\":\"party\",\"stamps\":\"time\",\"peers\":[]\
         ,\"allow\":[{\"mech\":\"E1\",\"slot\":\"X1\",\"length\":3,\"prefix\":\"0\"}]}",
    ),
    (
        "a prefix in capitals",
        "{\"me\":1,\"kind\":\"party\",\"stamps\":\"time\",\"peers\":[]\
         ,\"allow\":[{\"mech\":\"E1\",\"slot\":\"X1\",\"length\":3,\"prefix\":\"0A\"}]}",
    ),
    (
        "texts that are no list",
        "{\"me\":1,\"kind\":\"party\",\"stamps\":\"time\",\"peers\":[],\"texts\":{}}",
    ),
    (
        "a text without its text",
        "{\"me\":1,\"kind\":\"party\",\"stamps\":\"time\",\"peers\":[]\
         ,\"texts\":[{\"mech\":\"E1\",\"slot\":\"X1\"}]}",
    ),
    (
        "a text of half a byte",
        "{\"me\":1,\"kind\":\"party\",\"stamps\":\"time\",\"peers\":[]\
         ,\"texts\":[{\"mech\":\"E1\",\"slot\":\"X1\",\"text\":\"0\"}]}",
    ),
    (
        "a pair twice",
        "{\"me\":1,\"kind\":\"party\",\"stamps\":\"time\",\"peers\":[]\
         ,\"texts\":[{\"mech\":\"E1\",\"slot\":\"X1\",\"text\":\"00\"},{\"mech\":\"E1\"\
         ,\"slot\":\"X1\",\"text\":\"01\"}]}",
    ),
    (
        "a pair twice, apart",
        "{\"me\":1,\"kind\":\"party\",\"stamps\":\"time\",\"peers\":[]\
         ,\"texts\":[{\"mech\":\"E1\",\"slot\":\"X1\",\"text\":\"00\"},{\"mech\":\"E1\"\
         ,\"slot\":\"X2\",\"text\":\"01\"},{\"mech\":\"E1\",\"slot\":\"X1\"\
         ,\"text\":\"00\"}]}",
    ),
];

/// The first and the last part of a ring of many peers.
const MANY: (&str, &str) = (
    "{\"me\":1,\"kind\":\"party\",\"stamps\":\"seq\",\"peers\":[",
    "]}",
);

#[test]
fn rings_are_read(rt: HostRuntime) -> Result<(), Fail> {
    for (rule, text) in &GOOD {
        assert!(rt; read_ring(rt.alloc(), text.as_bytes()).is_ok(), "{rule}");
    }
    Ok(())
}

#[test]
fn what_breaks_a_rule_is_bad(rt: HostRuntime) -> Result<(), Fail> {
    for (rule, text) in &BAD {
        assert!(rt;
            read_ring(rt.alloc(), text.as_bytes()).err() == Some(RingFault::Bad),
            "{rule}"
        );
    }
    Ok(())
}

#[test]
fn bytes_that_are_no_text_are_bad(rt: HostRuntime) -> Result<(), Fail> {
    assert!(rt; read_ring(rt.alloc(), b"{\"me\":\xff}").err() == Some(RingFault::Bad));
    Ok(())
}

/// A ring of the peers that are named from 2 up to below this.
fn with_peers(alloc: Global, end: u32) -> Result<String, OutOfMemory> {
    let mut text = String::new(alloc);
    text.push_str(MANY.0)?;
    for number in 2..end {
        let comma = if number == 2 { "" } else { "," };
        let peer = format!(in alloc; "{comma}{{\"name\":{number},\"kind\":\"party\"}}")?;
        text.push_str(&peer)?;
    }
    text.push_str(MANY.1)?;
    Ok(text)
}

#[test]
fn a_ring_has_at_most_64_peers(rt: HostRuntime) -> Result<(), Fail> {
    let alloc = rt.alloc();
    let most = with_peers(alloc, 66)?;
    assert!(rt; read_ring(alloc, most.as_bytes()).is_ok());
    let more = with_peers(alloc, 67)?;
    assert!(rt; read_ring(alloc, more.as_bytes()).err() == Some(RingFault::Bad));
    Ok(())
}

/// A ring with one text of so many bytes.
fn with_text(alloc: Global, bytes: usize) -> Result<String, OutOfMemory> {
    let mut text = String::new(alloc);
    text.push_str("{\"me\":1,\"kind\":\"party\",\"stamps\":\"seq\",\"peers\":[],")?;
    text.push_str("\"texts\":[{\"mech\":\"E1\",\"slot\":\"X1\",\"text\":\"")?;
    for _ in 0..bytes {
        text.push_str("5a")?;
    }
    text.push_str("\"}]}")?;
    Ok(text)
}

#[test]
fn a_text_has_at_most_1024_bytes(rt: HostRuntime) -> Result<(), Fail> {
    let alloc = rt.alloc();
    let most = with_text(alloc, 1024)?;
    assert!(rt; read_ring(alloc, most.as_bytes()).is_ok());
    let more = with_text(alloc, 1025)?;
    assert!(rt; read_ring(alloc, more.as_bytes()).err() == Some(RingFault::Bad));
    Ok(())
}

/// A worked ring: a node with two peers and a third party.
const WORKED: &str = "{\"me\":2,\"kind\":\"party\",\"stamps\":\"time\",\"window\":5000,\
    \"peers\":[{\"name\":1,\"kind\":\"party\",\
    \"key\":\"2121212121212121212121212121212121212121212121212121212121212121\"},\
    {\"name\":3,\"kind\":\"party\",\
    \"key\":\"2323232323232323232323232323232323232323232323232323232323232323\"},\
    {\"name\":9,\"kind\":\"server\",\
    \"key\":\"2929292929292929292929292929292929292929292929292929292929292929\"}]}";

/// Expects that peer of a ring.
fn expect_peer<R: Abort>(rt: &R, ring: &Ring, place: usize, name: u32, server: bool, byte: u8) {
    match ring.peers.get(place) {
        Some(peer) => {
            assert!(rt; Some(peer.name) == Name::new(name));
            assert!(rt; peer.server == server);
            assert!(rt; peer.part == Some(Part([byte; 32])));
        }
        None => panic!(rt; "no peer {place}"),
    }
}

#[test]
fn the_worked_ring_is_read(rt: HostRuntime) -> Result<(), Fail> {
    let file = read_ring(rt.alloc(), WORKED.as_bytes())?;
    let ring = &file.ring;
    assert!(rt; Some(ring.me) == Name::new(2) && !ring.server);
    assert!(rt; ring.kind == StampKind::Time && ring.window == 5000);
    assert!(rt; ring.peers.len() == 3 && file.rules.is_empty() && file.texts.is_empty());
    expect_peer(&rt, ring, 0, 1, false, 0x21);
    expect_peer(&rt, ring, 1, 3, false, 0x23);
    expect_peer(&rt, ring, 2, 9, true, 0x29);
    Ok(())
}

/// A ring with a rule and a text, and no window; of its two names the last counts.
const RULED: &str = "{\"me\":1,\"me\":7,\"kind\":\"server\",\"stamps\":\"seq\",\"peers\":[],\
    \"allow\":[{\"mech\":\"E3\",\"slot\":\"X4\",\"length\":9,\"prefix\":\"0aff\"}],\
    \"texts\":[{\"mech\":\"K8\",\"slot\":\"X2\",\"text\":\"6869\"}]}";

#[test]
fn rules_and_texts_are_read(rt: HostRuntime) -> Result<(), Fail> {
    let file = read_ring(rt.alloc(), RULED.as_bytes())?;
    let ring = &file.ring;
    assert!(rt; Some(ring.me) == Name::new(7) && ring.server);
    assert!(rt; ring.kind == StampKind::Seq && ring.window == 5000);
    assert!(rt; file.rules.len() == 1 && file.texts.len() == 1);
    for rule in &file.rules {
        assert!(rt; rule.mech == Mech::E3 && rule.slot == Slot::X4 && rule.longest == 9);
        assert!(rt; rule.prefix.list() == b"\x0a\xff".as_slice());
    }
    for (mech, slot, text) in &file.texts {
        assert!(rt; *mech == Mech::K8 && *slot == Slot::X2 && text.list() == b"hi".as_slice());
    }
    Ok(())
}
