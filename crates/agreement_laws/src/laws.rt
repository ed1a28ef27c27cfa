ghost use Rattle.std.specs.Prelude.{◌<◌, List, Option, ℕ};
ghost use Rattle.agreement_laws.specs.Assembled.{OfEachIdealNetwork};
ghost use Rattle.agreement_laws.specs.Configs.{Config, IsGoodLong};
ghost use Rattle.agreement_laws.specs.Examples.{ShowsClaim, ShowsLosses, ShowsSecret};
ghost use Rattle.agreement_laws.specs.Nodes.{AcceptsOnce, NowsRise, OfEachLegalLog, StampsRise};
ghost use Rattle.agreement_laws.specs.Nodes.{UsesOnce};
ghost use Rattle.agreement_laws.specs.Replacement.{IsIdealFor, replaced_step};
ghost use Rattle.agreement_laws.specs.Sound.{HasOnePartner, HasOrigins, HidesGoodParts, HidesParts};
ghost use Rattle.agreement_laws.specs.Sound.{IsCleanBase, IsSound, PairsAreThere, RunsAreOwned};
ghost use Rattle.agreement_laws.specs.Sound.{SecretsAreGood};
ghost use Rattle.agreement_laws.specs.Traces.{Happening};
ghost use Rattle.agreement_laws.specs.Worlds.{Entry, HasLegalLog, InEachWorld, IsWorld, trace};
ghost use Rattle.mech_rows.specs.Runs.{Keys, Run, Step};
ghost use Rattle.mech_rows.specs.Steps.{IsStep, symbolic};
ghost use Rattle.mech_rows.specs.declared.kinds.Mech.TheVariants.{E4, E5, K3, K5};
ghost use Rattle.mech_rows.specs.declared.kinds.Role.TheVariants.{A, B};
ghost use Rattle.mech_rows.specs.declared.kinds.Slot.{Slot};
ghost use Rattle.term_values.specs.Trees.{Bytes, Tree};

use crate::sealing::Sealing;

/// In each legal log of a node, over any sealing and with restarts: no two commits accept the same sender, tag and stamp,
/// an issued stamp stands in at most one commit, issued stamps rise, and now never falls.
pub fn legal_logs_keep_stamps_apart<S: Sealing>()
    ensures accepted { OfEachLegalLog S.opens AcceptsOnce }
    ensures used { OfEachLegalLog S.opens UsesOnce }
    ensures issued { OfEachLegalLog S.opens StampsRise }
    ensures nows { OfEachLegalLog S.opens NowsRise }
{}

/// Each party's events in a world are a legal log of a new node with the party's ring.
pub fn logs_of_worlds_are_legal()
    ensures legal { (c : Config) (h : List Entry) → IsWorld c h → (n : ℕ) → HasLegalLog c h n }
{}

/// A run of a world stands in the log of the party that plays its role.
pub fn runs_are_of_their_parties()
    ensures owned { InEachWorld RunsAreOwned }
{}

/// A completion has at most one partner and one server, since each is the first in the order of opening.
pub fn partners_are_determined()
    ensures one { (t : List Happening) (slots : List Slot) (run : Run) → HasOnePartner t slots run }
{}

/// No good part is derivable at any moment of a world: neither a long-term part of a pair that isn't revealed,
/// nor any other good part.
pub fn good_parts_stay_secret()
    ensures long { InEachWorld (λ c. HidesParts (IsGoodLong c) c) }
    ensures all { InEachWorld HidesGoodParts }
{}

/// Whatever can be derived of the form of a seal or check under a good key was made by an earlier step: it stands in that
/// step's list, the names in its body are those of the step's run, its tag has the run's mechanism and the pass of the step,
/// and it is the run's role that sends this pass.
pub fn items_have_origins()
    ensures origins { InEachWorld HasOrigins }
{}

/// Each part of the key of a completion that has a secret is good.
pub fn keys_of_secrets_are_good()
    ensures good { InEachWorld SecretsAreGood }
{}

/// In a world the pairs of a completed run of A or B are all in the configuration, where none of them is revealed. So it makes
/// no difference to claims and secrets whether a pair that is not there counts as revealed.
pub fn pairs_of_completions_are_there()
    ensures there { InEachWorld PairsAreThere }
{}

/// In every world, with each of the sixteen mechanisms, each completion with a claim has a partner and, where there is a
/// third party, a server; no run agrees with two of them; and no part of the key of a completion with a secret is derivable.
pub fn worlds_are_sound()
    ensures sound { InEachWorld IsSound }
{}

/// Each world is a clean base for each family of tags beyond the mechanisms' own: no key of a completion with a secret is
/// derivable, and no item under it whose body begins with a tag of that family.
pub fn worlds_are_clean_bases()
    ensures clean { (family : ℕ) → 3 < family → InEachWorld (λ c t. IsCleanBase c t family) }
{}

/// After the replacement of a working sealing's items, a step over it is a step over symbolic sealing.
pub fn replaced_steps_are_symbolic<S: Sealing>()
    ensures symbolic { (f : Bytes → Option Tree) (keys : Keys) (step : Step) → IsIdealFor f step →
        IsStep S.opens keys step → IsStep symbolic keys (replaced_step f step) }
{}

/// What several nodes did over a working sealing, which was ideal for it, on wires that are a network, is a world after the
/// replacement. So it is sound.
pub fn assembled_worlds_are_worlds<S: Sealing>()
    ensures world { OfEachIdealNetwork S.opens IsWorld }
    ensures sound { OfEachIdealNetwork S.opens (λ c h. IsSound c (trace h)) }
{}

/// The laws are not empty: there are worlds in which runs of both parties complete with claims and with secrets, with and
/// without a third party; and one in which a claim stands though the run's key was given away later and a party restarted.
pub fn claims_are_there()
    ensures e4_a { ShowsClaim E4 A }
    ensures e4_b { ShowsClaim E4 B }
    ensures k5_a { ShowsClaim K5 A }
    ensures k5_b { ShowsClaim K5 B }
    ensures e5_a { ShowsClaim E5 A }
    ensures e5_b { ShowsClaim E5 B }
    ensures k5_secret_a { ShowsSecret K5 A }
    ensures k5_secret_b { ShowsSecret K5 B }
    ensures e5_secret_a { ShowsSecret E5 A }
    ensures e5_secret_b { ShowsSecret E5 B }
    ensures k3_secret_a { ShowsSecret K3 A }
    ensures losses { ShowsLosses K3 B }
{}
