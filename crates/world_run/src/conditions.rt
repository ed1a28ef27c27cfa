ghost use Rattle.std.specs.Prelude.{◌≡◌, ◌↔◌, IsTrue, length, nat_le};
ghost use Rattle.std.specs.List.{list_all, list_any};
ghost use Rattle.term_values.specs.SameBytes.{same_bytes};
ghost use Rattle.agreement_laws.specs.Configs.{LongTerm, is_of as is_of_pair};
ghost use Rattle.world_run.specs.Conditions.{KeepsConditions};
ghost use Rattle.world_run.specs.Tested.{are_fit_pairs as fit_pairs, are_kept as all_kept};
ghost use Rattle.world_run.specs.Tested.{are_fit_parties as fit_parties};
ghost use Rattle.world_run.specs.Tested.{are_fit_parts as fit_parts, are_new_pairs as new_pairs};
ghost use Rattle.world_run.specs.Tested.{are_new_parts as new_parts, begins_apart as apart};
ghost use Rattle.world_run.specs.Tested.{has_part as parts_have, has_party as party_there};
ghost use Rattle.world_run.specs.Tested.{has_window as window_fits, have_new_names as new_names};
ghost use Rattle.world_run.specs.Tested.{have_new_parts as new_part_of_pairs};
ghost use Rattle.world_run.specs.Tested.{is_declared as pair_declared};
ghost use Rattle.world_run.specs.Tested.{pairs_have_part as part_of_pairs};

use crate::born::{NONCE_LEAD, PART_LEAD};
use crate::config::Config;
use crate::pair::Pair;
use crate::party::Party;
use term_values::{Name, Part};

/// How many parties and third parties a world may have.
const PARTIES_MAX: usize = 64;

/// The greatest window, in milliseconds.
const WINDOW_MAX: u32 = 600_000;

/// Whether a world may begin with this configuration.
pub(crate) fn keeps_conditions(config: &Config) -> bool
    ensures { IsTrue result ↔ KeepsConditions config.now }
{
    are_kept(config)
}

fn are_kept(config: &Config) -> bool
    ensures { result ≡ all_kept config.now }
{
    let parties = config.parties.as_slice();
    let pairs = config.pairs.as_slice();
    are_fit_parties(parties)
        && are_fit_pairs(parties, pairs)
        && are_fit_parts(pairs, config.own.as_slice())
}

fn are_fit_parties(parties: &[Party]) -> bool
    ensures { result ≡ fit_parties parties.now }
{
    are_few(parties) && have_windows(parties) && have_new_names(parties)
}

fn are_few(parties: &[Party]) -> bool
    ensures { result ≡ nat_le (length parties.now) 64 }
{
    parties.len() <= PARTIES_MAX
}

fn have_windows(parties: &[Party]) -> bool
    ensures { result ≡ list_all window_fits parties.now }
{
    parties.iter().all(|party| has_window(party))
}

fn are_fit_pairs(parties: &[Party], pairs: &[Pair]) -> bool
    ensures { result ≡ fit_pairs parties.now pairs.now }
{
    are_declared(parties, pairs) && are_new_pairs(pairs)
}

fn are_declared(parties: &[Party], pairs: &[Pair]) -> bool
    ensures { result ≡ list_all (pair_declared parties.now) pairs.now }
{
    pairs.iter().all(|pair| is_declared(parties, pair))
}

fn are_fit_parts(pairs: &[Pair], own: &[Part]) -> bool
    ensures { result ≡ fit_parts pairs.now own.now }
{
    have_new_parts(own, pairs)
        && are_new_parts(own)
        && pairs_begin_apart(pairs)
        && parts_begin_apart(own)
}

fn pairs_begin_apart(pairs: &[Pair]) -> bool
    ensures { result ≡ list_all (λ (l : LongTerm). apart l.part) pairs.now }
{
    pairs.iter().all(|pair| begins_apart(&pair.part))
}

fn parts_begin_apart(parts: &[Part]) -> bool
    ensures { result ≡ list_all apart parts.now }
{
    parts.iter().all(|part| begins_apart(part))
}

fn has_window(party: &Party) -> bool
    ensures { result ≡ window_fits party.now }
{
    party.window <= WINDOW_MAX
}

fn has_party(parties: &[Party], name: Name) -> bool
    ensures { result ≡ party_there parties.now name }
{
    parties.iter().any(|party| party.name.get() == name.get())
}

fn have_new_names(parties: &[Party]) -> bool
    ensures { result ≡ new_names parties.now }
{
    let mut rest = parties;
    while let Some((party, later)) = rest.split_first() {
        if has_party(later, party.name) {
            return false;
        }
        rest = later;
    }
    true
}

fn is_declared(parties: &[Party], pair: &Pair) -> bool
    ensures { result ≡ pair_declared parties.now pair.now }
{
    has_party(parties, pair.a) && has_party(parties, pair.b) && pair.a.get() != pair.b.get()
}

fn is_of(one: &Pair, other: &Pair) -> bool
    ensures { result ≡ is_of_pair one.now.x one.now.y other.now }
{
    let same = other.a.get() == one.a.get() && other.b.get() == one.b.get();
    same || (other.a.get() == one.b.get() && other.b.get() == one.a.get())
}

/// Whether one of the pairs is of the names of this one, in either order.
fn has_pair(pairs: &[Pair], pair: &Pair) -> bool
    ensures { result ≡ list_any (is_of_pair pair.now.x pair.now.y) pairs.now }
{
    pairs.iter().any(|other| is_of(pair, other))
}

fn are_new_pairs(pairs: &[Pair]) -> bool
    ensures { result ≡ new_pairs pairs.now }
{
    let mut rest = pairs;
    while let Some((pair, later)) = rest.split_first() {
        if has_pair(later, pair) {
            return false;
        }
        rest = later;
    }
    true
}

#[tactic(auto, using(crate::proofs::Decided::pointwise_is))]
fn is_same(part: &Part, other: &Part) -> bool
    ensures { result ≡ same_bytes part.now other.now }
{
    part.list() == other.list()
}

fn has_part(parts: &[Part], part: &Part) -> bool
    ensures { result ≡ parts_have parts.now part.now }
{
    parts.iter().any(|other| is_same(other, part))
}

fn pairs_have_part(pairs: &[Pair], part: &Part) -> bool
    ensures { result ≡ part_of_pairs pairs.now part.now }
{
    pairs.iter().any(|pair| is_same(&pair.part, part))
}

fn are_new_parts(parts: &[Part]) -> bool
    ensures { result ≡ new_parts parts.now }
{
    let mut rest = parts;
    while let Some((part, later)) = rest.split_first() {
        if has_part(later, part) {
            return false;
        }
        rest = later;
    }
    true
}

fn have_new_parts(own: &[Part], pairs: &[Pair]) -> bool
    ensures { result ≡ new_part_of_pairs own.now pairs.now }
{
    let mut rest = pairs;
    while let Some((pair, later)) = rest.split_first() {
        if pairs_have_part(later, &pair.part) || has_part(own, &pair.part) {
            return false;
        }
        rest = later;
    }
    true
}

fn begins_apart(part: &Part) -> bool
    ensures { result ≡ apart part.now }
{
    match part.list().first() {
        Some(lead) => *lead != NONCE_LEAD && *lead != PART_LEAD,
        None => true,
    }
}
