ghost use Rattle.std.specs.Prelude.{◌≡◌, ◌∷◌, [], Some, Ok, Err, IfOk, IfErr, IfSome};
ghost use Rattle.std.specs.Prelude.{if◌then◌else◌};
ghost use Rattle.term_values.specs.Trees.{tuple, trees, tag, text};
ghost use Rattle.tagged_codec.specs.Grammar.{IsInLimits};
ghost use Rattle.mech_rows.specs.Replies.{first_item};
ghost use Rattle.mech_rows.specs.declared.refusal.Refusal.TheVariants.{Memory};
ghost use Rattle.text_hooks.specs.Drawn.{HasDrawCause, MovedOn, NoncesAre};
ghost use Rattle.text_hooks.specs.Made.{IsSealOf};
ghost use Rattle.text_hooks.specs.Parts.{AreSmall, IsFlat, IsMadeItem};
ghost use Rattle.third_party.specs.Words.{part_body, second_item, two_seals};

use mech_rows::{Opening, Refusal};
use outside::Draws;
use seal_trait::Sealer;
use std::alloc::Global;
use term_values::{Key, Part, Tag, Term, Text};
use text_hooks::{
    Reply, SlotValue, Three, Unsealed, beside, body_of, message_of, seal_item, tag_term, text_term,
};

/// The body of three names, a value, a part and a text.
///
/// # Errors
///
/// Want of memory alone.
pub fn part_body(
    alloc: Global,
    head: Tag,
    names: &Three,
    value: SlotValue,
    part: Part,
    last: &Text,
) -> Result<Term, Refusal>
    ensures term { IfOk result (λ t. t ≡ part_body head names.now value part last.now) }
    ensures flat { IfOk result IsFlat }
    ensures memory { IfErr result (λ e. e ≡ Memory) }
{
    let (a, b, p) = (names.a, names.b, names.p);
    body_of(
        alloc,
        head,
        &[a, b, p],
        &[value, SlotValue::Part(part)],
        last,
    )
}

/// Seals two bodies, the first before the second, each with a nonce that it draws where the sealer
/// wants one.
fn seal_two<S: Sealer, D: Draws>(
    alloc: Global,
    sealer: &S,
    draws: &mut D,
    one: Unsealed,
    two: Unsealed,
) -> Result<(Opening, Opening), Refusal>
    requires flat_one { IsFlat one.body }
    requires flat_two { IsFlat two.body }
    ensures one { IfOk result (λ s. IsSealOf S.opens one.key one.body s.0) }
    ensures two { IfOk result (λ s. IsSealOf S.opens two.key two.body s.1) }
    ensures made { IfOk result (λ s. IsMadeItem s.0.item × IsMadeItem s.1.item) }
    ensures nonces { IfOk result (λ s. IfSome (D.told draws.old) (λ t. NoncesAre S.iv_of t
        (if S.wants_iv sealer.now then s.0 ∷ s.1 ∷ [] else []) (D.told draws.new))) }
    ensures moved { MovedOn 2 (D.told draws.old) (D.told draws.new) }
    ensures cause { HasDrawCause (D.fault_count draws.old) (D.fault_count draws.new) result }
{
    let first = seal_item(alloc, sealer, draws, one.key, one.body)?;
    let second = seal_item(alloc, sealer, draws, two.key, two.body);
    beside(first, second)
}

/// The terms before the items: the tag and the clear text.
fn before_items(alloc: Global, head: Tag, clear: &Text) -> Result<Vec<Term>, Refusal>
    ensures shown { IfOk result (λ ts. ts.items ≡ tag head ∷ text clear.now ∷ []) }
    ensures small { IfOk result (λ ts. AreSmall 1027 ts.items) }
    ensures memory { IfErr result (λ e. e ≡ Memory) }
{
    let clear = text_term(alloc, clear)?;
    Ok(vec![in alloc; tag_term(head), clear]?)
}

/// The message of a tag, a clear text and two items, and a list of these.
fn with_two(
    alloc: Global,
    one: Opening,
    two: Opening,
    head: Tag,
    clear: &Text,
) -> Result<(Term, Vec<Opening>), Refusal>
    requires made_one { IsMadeItem one.item }
    requires made_two { IsMadeItem two.item }
    ensures sealed { IfOk result (λ s. s.1.items ≡ one ∷ two ∷ []) }
    ensures message { IfOk result (λ s.
        s.0 ≡ tuple (trees (tag head ∷ text clear.now ∷ one.item ∷ two.item ∷ []))) }
    ensures limits { IfOk result (λ s. IsInLimits s.0) }
    ensures memory { IfErr result (λ e. e ≡ Memory) }
{
    let sealed = vec![in alloc; one, two]?;
    let shown = before_items(alloc, head, clear)?;
    let message = message_of(alloc, shown, sealed.as_slice())?;
    Ok((message, sealed))
}

/// The message of a tag, a clear text, and two items, which seal these bodies, the first before the
/// second.
///
/// # Errors
///
/// `DrawFault` where a draw failed, and the count of faults rose; want of memory, where it stayed.
pub fn say_two<S: Sealer, D: Draws>(
    alloc: Global,
    sealer: &S,
    draws: &mut D,
    bodies: (Unsealed, Unsealed),
    head: Tag,
    clear: &Text,
) -> Result<(Term, Vec<Opening>), Refusal>
    requires flat_one { IsFlat bodies.0.body }
    requires flat_two { IsFlat bodies.1.body }
    ensures sealed { IfOk result (λ s. s.1.items ≡ two_seals bodies.0 bodies.1 s.1.items) }
    ensures opens_one { IfOk result (λ s.
        S.opens bodies.0.key (first_item s.1.items) ≡ Some bodies.0.body) }
    ensures opens_two { IfOk result (λ s.
        S.opens bodies.1.key (second_item s.1.items) ≡ Some bodies.1.body) }
    ensures message { IfOk result (λ s. s.0 ≡ tuple (trees (tag head ∷ text clear.now
        ∷ first_item s.1.items ∷ second_item s.1.items ∷ []))) }
    ensures limits { IfOk result (λ s. IsInLimits s.0) }
    ensures nonces { IfOk result (λ s. IfSome (D.told draws.old) (λ t.
        NoncesAre S.iv_of t (if S.wants_iv sealer.now then s.1.items else []) (D.told draws.new))) }
    ensures moved { MovedOn 2 (D.told draws.old) (D.told draws.new) }
    ensures cause { HasDrawCause (D.fault_count draws.old) (D.fault_count draws.new) result }
{
    let (one, two) = bodies;
    let (one, two) = seal_two(alloc, sealer, draws, one, two)?;
    with_two(alloc, one, two, head, clear)
}
