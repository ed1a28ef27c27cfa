ghost use Rattle.std.specs.Prelude.{Bool, List, Option, reverse, ℕ};
ghost use Rattle.term_values.specs.Trees.{Tree};
ghost use Rattle.term_values.specs.declared.small.Key.{Key};
ghost use Rattle.agreement_laws.specs.Nodes.{IsLegal, Node, NodeStep, new_node};
ghost use Rattle.mech_rows.specs.Lawful.{tested_by};
ghost use Rattle.mech_rows.specs.Moves.{Move, step_of};
ghost use Rattle.mech_rows.specs.Rings.{Ring, keys_in};
ghost use Rattle.mech_rows.specs.Runs.{Keys};
ghost use Rattle.mech_rows.specs.Steps.{IsStep};
ghost use Rattle.node_desk.specs.Desks.{AreSteps, IsMadeWith, IsStepEvent, IsWholeLog};
ghost use Rattle.node_desk.specs.Events.{event_of, log_of};
ghost use Rattle.node_desk.specs.declared.event.Event.{Event};

use agreement_laws::Sealing;

/// What a desk says over tests holds over each relation of sealing. A log that is legal whatever
/// its items are is legal over it where the steps of its commits are steps over it; a step of the
/// node machine is one over it where the event's step is; and a step that was made with some keys
/// is, over each relation over which it is a step, one with these keys.
pub fn desks_step_over_every_sealing<S: Sealing>()
    ensures legal { (ring : Ring) (first : ℕ) (log : List Event) → IsWholeLog ring first log →
        AreSteps S.opens (keys_in ring) (reverse log) →
        IsLegal S.opens (new_node ring first) (log_of log) }
    ensures steps { (opens : Key → Tree → Option Tree) (checks : Key → Tree → Tree → Bool)
        (old new : Node) (event : Event) → NodeStep (tested_by opens checks) old
        (event_of event) new → IsStepEvent S.opens (keys_in old.ring) event →
        NodeStep S.opens old (event_of event) new }
    ensures made { (keys other : Keys) (step : Move) → IsMadeWith keys step →
        IsStep S.opens other (step_of step) → IsStep S.opens keys (step_of step) }
{}
