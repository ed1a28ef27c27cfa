ghost use Rattle.std.specs.Prelude.{◌≡◌};
ghost use Rattle.std.specs.List.{list_any};
ghost use Rattle.term_values.specs.SameBytes.{same_bytes};
ghost use Rattle.agreement_laws.specs.Configs.{is_of as is_of_pair};
ghost use Rattle.world_run.specs.Tested.{begins_apart as apart, has_part as part_among};
ghost use Rattle.world_run.specs.Tested.{has_party as party_among, is_declared as pair_declared};
ghost use Rattle.world_run.specs.Tested.{pairs_have_part as part_of_pairs};
ghost use Rattle.transcript_replay.specs.Fitting.{fits_pair as pair_fits, fits_part as part_fits};
ghost use Rattle.transcript_replay.specs.Fitting.{fits_party as party_fits};

use term_values::{Name, Part};
use world_run::{Config, Pair, Party};

/// How many parties a script may declare.
const PARTIES_MAX: usize = 64;

/// The greatest window, in milliseconds.
const WINDOW_MAX: u32 = 600_000;

/// The first byte of a drawn nonce, and that of a drawn part.
const LEADS: [u8; 2] = [0xd0, 0xd1];

fn has_party(parties: &[Party], name: Name) -> bool
    ensures { result ≡ party_among parties.now name }
{
    parties.iter().any(|party| party.name.get() == name.get())
}

/// Whether the configuration keeps its conditions with a further party, which is no third party.
pub(crate) fn fits_party(config: &Config, party: &Party) -> bool
    ensures { result ≡ party_fits config.now party.now.name party.now.window }
{
    let parties = config.parties.as_slice();
    parties.len() < PARTIES_MAX && !has_party(parties, party.name) && party.window <= WINDOW_MAX
}

fn begins_apart(part: &Part) -> bool
    ensures { result ≡ apart part.now }
{
    match part.list().first() {
        Some(byte) => *byte != LEADS[0] && *byte != LEADS[1],
        None => true,
    }
}

#[tactic(auto, using(world_run::proofs::Decided::pointwise_is))]
fn is_same(part: &Part, other: &Part) -> bool
    ensures { result ≡ same_bytes part.now other.now }
{
    part.list() == other.list()
}

fn pairs_have_part(pairs: &[Pair], part: &Part) -> bool
    ensures { result ≡ part_of_pairs pairs.now part.now }
{
    pairs.iter().any(|pair| is_same(&pair.part, part))
}

fn has_part(parts: &[Part], part: &Part) -> bool
    ensures { result ≡ part_among parts.now part.now }
{
    parts.iter().any(|other| is_same(other, part))
}

/// Whether a further part keeps the conditions: it begins as no drawn value does, and was not given before.
pub(crate) fn fits_part(config: &Config, part: &Part) -> bool
    ensures { result ≡ part_fits config.now part.now }
{
    begins_apart(part)
        && !(pairs_have_part(config.pairs.as_slice(), part)
            || has_part(config.own.as_slice(), part))
}

fn is_declared(parties: &[Party], pair: &Pair) -> bool
    ensures { result ≡ pair_declared parties.now pair.now }
{
    has_party(parties, pair.a) && has_party(parties, pair.b) && pair.a.get() != pair.b.get()
}

fn is_of(one: &Pair, other: &Pair) -> bool
    ensures { result ≡ is_of_pair one.now.x one.now.y other.now }
{
    let same = other.a.get() == one.a.get() && other.b.get() == one.b.get();
    same || (other.a.get() == one.b.get() && other.b.get() == one.a.get())
}

fn has_pair(pairs: &[Pair], pair: &Pair) -> bool
    ensures { result ≡ list_any (is_of_pair pair.now.x pair.now.y) pairs.now }
{
    pairs.iter().any(|other| is_of(pair, other))
}

/// Whether the configuration keeps its conditions with a further pair.
pub(crate) fn fits_pair(config: &Config, pair: &Pair) -> bool
    ensures { result ≡ pair_fits config.now pair.now }
{
    is_declared(config.parties.as_slice(), pair)
        && !has_pair(config.pairs.as_slice(), pair)
        && fits_part(config, &pair.part)
}
