use crate::offline::run_offline;
use outside::{SureSink, SureSource};
use std::test::Fail;

/// The scripts of the folder of examples and their transcripts, with SHARED for the part that two parties share.
const EXAMPLES: [(&str, &str); 9] = [
    (
        "# A token with a time stamp is heard and given a second time, to another run of the same verifier.\nparty 1 time 5000\nparty 2 time 5000\npair 1 2 SHARED\nclock 1 10000\nclock 2 10000\nopen E1 A 1 2\nopen E1 B 1 2\nopen E1 B 1 2\ngive 2 @1\ngive 3 @1\n",
        "clock 1 10000\nclock 2 10000\nrun 1\nsent 1 1 (G:01010100,X:,S[K:SHARED|(G:01010101,N:1,N:2,T:10000,X:)])\ndone 1 E1 A - no-claim\nrun 2\nrun 3\ntook 2 1\ndone 2 E1 B - partner 1\nrefused 12 Repeated T:10000\n",
    ),
    (
        "# Party 1 verifies in one run and claims in another. Its own challenge is turned round, and its own answer is sent back to it.\nparty 1 time 5000\nparty 2 time 5000\npair 1 2 SHARED\nopen E2 B 2 1\nopen E2 A 1 2\ngive 2 @1\ngive 1 @2\n",
        "run 1\nsent 1 1 (G:01020100,R:d0000000000000000000000000000000,X:)\nrun 2\ntook 2 1\nsent 2 2 (G:01020200,X:,S[K:SHARED|(G:01020201,N:1,N:2,R:d0000000000000000000000000000000,X:)])\ndone 2 E2 A - no-claim\nrefused 7 WrongNames 1\n",
    ),
    (
        "# Where a nonce belongs, the attacker puts a text, a name and a time stamp.\nparty 1 time 5000\nparty 2 time 5000\npair 1 2 SHARED\nparty 3 time 5000\npair 1 3 bbbbbbbbbbbbbbbbbbbbbbbbbbbbbbbbbbbbbbbbbbbbbbbbbbbbbbbbbbbbbbbb revealed\nopen E2 A 1 2\ngive 1 (G:01020100,X:6869,X:)\ngive 1 (G:01020100,N:2,X:)\ngive 1 (G:01020100,T:5,X:)\n# A message with one item too many, and one with a name where a text belongs.\ngive 1 (G:01020100,R:00112233445566778899aabbccddeeff,X:,X:)\ngive 1 (G:01020100,R:00112233445566778899aabbccddeeff,N:1)\n# Within a seal, made with a part that the attacker has: a text where the nonce belongs, and then the nonce.\nopen E2 B 1 3\ngive 2 (G:01020200,X:,S[K:bbbbbbbbbbbbbbbbbbbbbbbbbbbbbbbbbbbbbbbbbbbbbbbbbbbbbbbbbbbbbbbb|(G:01020201,N:1,N:3,X:6869,X:)])\ngive 2 (G:01020200,X:,S[K:bbbbbbbbbbbbbbbbbbbbbbbbbbbbbbbbbbbbbbbbbbbbbbbbbbbbbbbbbbbbbbbb|(G:01020201,N:1,N:3,R:d0000000000000000000000000000000,X:)])\n",
        "run 1\nrefused 6 WrongShape 0\nrefused 6 WrongShape 0\nrefused 6 WrongShape 0\nrefused 6 WrongShape 0\nrefused 6 WrongShape 0\nrun 2\nsent 1 2 (G:01020100,R:d0000000000000000000000000000000,X:)\nrefused 6 WrongShape 1\ntook 2 2\ndone 2 E2 B - no-claim\n",
    ),
    (
        "# Two verifiers wait at once. The answer to the challenge of the one is given to the other.\nparty 1 time 5000\nparty 2 time 5000\npair 1 2 SHARED\nopen E2 B 1 2\nopen E2 B 1 2\nopen E2 A 1 2\ngive 3 @1\ngive 2 @3\ngive 1 @3\n",
        "run 1\nsent 1 1 (G:01020100,R:d0000000000000000000000000000000,X:)\nrun 2\nsent 2 2 (G:01020100,R:d0000000000000000000000000000001,X:)\nrun 3\ntook 3 1\nsent 3 3 (G:01020200,X:,S[K:SHARED|(G:01020201,N:1,N:2,R:d0000000000000000000000000000000,X:)])\ndone 3 E2 A - no-claim\nrefused 8 WrongValue 1 Rb\ntook 1 2\ndone 1 E2 B - partner 3\n",
    ),
    (
        "# A verifier of three passes waits. A claimant of two passes is made to seal its nonce, and the seal is given to it, in the\n# message of the other mechanism and in one of its own.\nparty 1 time 5000\nparty 2 time 5000\npair 1 2 SHARED\nopen E4 B 1 2\nopen E2 A 1 2\ngive 2 (G:01020100,R:d0000000000000000000000000000000,X:)\ngive 1 @2\ngive 1 (G:01040200,X:,@2.2)\n# A verifier of a mechanism by checks waits. The seal is given to it in the place of the check.\nopen C2 B 1 2\ngive 3 (G:02020200,X:,X:,@2.2)\n",
        "run 1\nsent 1 1 (G:01040100,R:d0000000000000000000000000000000,X:)\nrun 2\ntook 2 1\nsent 2 2 (G:01020200,X:,S[K:SHARED|(G:01020201,N:1,N:2,R:d0000000000000000000000000000000,X:)])\ndone 2 E2 A - no-claim\nrefused 4 WrongPass\nrefused 6 WrongShape 1\nrun 3\nsent 3 3 (G:02020100,R:d0000000000000000000000000000001,X:)\nrefused 5 Unopened 1\n",
    ),
    (
        "# Tokens with time stamps are held back, and one is given before its time by the verifier's clock.\nparty 1 time 5000\nparty 2 time 5000\npair 1 2 SHARED\nclock 1 10000\nopen E1 A 1 2\nopen E1 A 1 2\nopen E1 B 1 2\nclock 2 4999\ngive 3 @1\nclock 2 15000\ngive 3 @1\nopen E1 B 1 2\nclock 2 15002\ngive 4 @2\n",
        "clock 1 10000\nrun 1\nsent 1 1 (G:01010100,X:,S[K:SHARED|(G:01010101,N:1,N:2,T:10000,X:)])\ndone 1 E1 A - no-claim\nrun 2\nsent 2 2 (G:01010100,X:,S[K:SHARED|(G:01010101,N:1,N:2,T:10001,X:)])\ndone 2 E1 A - no-claim\nrun 3\nclock 2 4999\nrefused 10 Early Ta 4999\nclock 2 15000\ntook 3 1\ndone 3 E1 B - partner 1\nrun 4\nclock 2 15002\nrefused 11 Late Ta 15002\n",
    ),
    (
        "# Tokens with sequence numbers come in another order, and each comes twice.\nparty 1 seq\nparty 2 seq\npair 1 2 SHARED\nopen E1 A 1 2\nopen E1 A 1 2\nopen E1 B 1 2\nopen E1 B 1 2\nopen E1 B 1 2\ngive 3 @2\ngive 4 @2\ngive 4 @1\ngive 5 @1\n",
        "run 1\nsent 1 1 (G:01010100,X:,S[K:SHARED|(G:01010101,N:1,N:2,Q:1,X:)])\ndone 1 E1 A - no-claim\nrun 2\nsent 2 2 (G:01010100,X:,S[K:SHARED|(G:01010101,N:1,N:2,Q:2,X:)])\ndone 2 E1 A - no-claim\nrun 3\nrun 4\nrun 5\ntook 3 1\ndone 3 E1 B - partner 2\nrefused 12 Repeated Q:2\ntook 4 1\ndone 4 E1 B - partner 1\nrefused 12 Repeated Q:1\n",
    ),
    (
        "# The part that 1 and 2 share is known to the attacker, who answers a challenge itself. For 1 and 3, whose part it hasn't, it cannot.\nparty 1 time 5000\nparty 2 time 5000\nparty 3 time 5000\npair 1 2 SHARED revealed\npair 1 3 bbbbbbbbbbbbbbbbbbbbbbbbbbbbbbbbbbbbbbbbbbbbbbbbbbbbbbbbbbbbbbbb\nopen E2 B 1 2\ngive 1 (G:01020200,X:,S[K:SHARED|(G:01020201,N:1,N:2,R:d0000000000000000000000000000000,X:)])\nopen E2 B 1 3\ngive 2 (G:01020200,X:,S[K:bbbbbbbbbbbbbbbbbbbbbbbbbbbbbbbbbbbbbbbbbbbbbbbbbbbbbbbbbbbbbbbb|(G:01020201,N:1,N:3,R:d0000000000000000000000000000001,X:)])\n",
        "run 1\nsent 1 1 (G:01020100,R:d0000000000000000000000000000000,X:)\ntook 1 2\ndone 1 E2 B - no-claim\nrun 2\nsent 2 2 (G:01020100,R:d0000000000000000000000000000001,X:)\nrefused 20 NotDerivable\n",
    ),
    (
        "# The attacker asks for the answer to a challenge that the verifier has not made yet.\nparty 1 time 5000\nparty 2 time 5000\npair 1 2 SHARED\nopen E2 A 1 2\ngive 1 (G:01020100,R:d0000000000000000000000000000000,X:)\nopen E2 B 1 2\ngive 1 @1\ngive 2 @2\n",
        "run 1\nrefused 21 Unborn\nrun 2\nsent 1 2 (G:01020100,R:d0000000000000000000000000000000,X:)\ntook 1 1\nsent 2 1 (G:01020200,X:,S[K:SHARED|(G:01020201,N:1,N:2,R:d0000000000000000000000000000000,X:)])\ndone 1 E2 A - no-claim\ntook 2 2\ndone 2 E2 B - partner 1\n",
    ),
];

const SHARED: &str = "aaaaaaaaaaaaaaaaaaaaaaaaaaaaaaaaaaaaaaaaaaaaaaaaaaaaaaaaaaaaaaaa";

#[test]
fn examples_are_replayed(rt: HostRuntime) -> Result<(), Fail> {
    let alloc = rt.alloc();
    let words = vec![in alloc; b"replay".to_vec(alloc)?]?;
    for (script, transcript) in EXAMPLES {
        let script = script.replace(alloc, "SHARED", SHARED)?;
        let transcript = transcript.replace(alloc, "SHARED", SHARED)?;
        let mut input = SureSource::new(script.as_bytes().to_vec(alloc)?);
        let mut out = SureSink::new(alloc);
        assert_eq!(rt;
            run_offline(alloc, &words, &mut input, &mut out),
            0,
            "{script}"
        );
        let written = str::from_utf8(out.written()).or(Err("no text"))?;
        assert_eq!(rt; written, transcript.as_str(), "{script}");
    }
    Ok(())
}
