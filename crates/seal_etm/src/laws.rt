ghost use Rattle.std.specs.Prelude.{◌≡◌, ◌↔◌, true, Some};
ghost use Rattle.term_values.specs.Trees.{Tree, blob};
ghost use Rattle.term_values.specs.declared.small.Key.{Key};
ghost use Rattle.seal_etm.specs.Blobs.{IsLongBlob};
ghost use Rattle.seal_etm.specs.Layout.{check_bytes, checked, opened};
ghost use Rattle.mech_rows.specs.Lawful.{tested_by};
ghost use Rattle.agreement_laws.specs.Assembled.{OpensBlobs};

/// A law: nothing but a blob of at least 48 bytes opens, and one blob alone checks a body under a key.
pub fn blobs_alone_open_and_check()
    ensures opens { (key : Key) (item body : Tree) → opened key item ≡ Some body → IsLongBlob item }
    ensures checks { (key : Key) (body item : Tree) →
        (checked key body item ≡ true) ↔ (item ≡ blob (check_bytes key body)) }
{}

/// A law: what a step over this sealing opens or tests are blobs. So it meets the premise `blobs` of
/// assembled worlds, over the relation by which a node's steps are steps.
pub fn steps_are_over_blobs()
    ensures blobs { OpensBlobs (tested_by opened checked) }
{}
