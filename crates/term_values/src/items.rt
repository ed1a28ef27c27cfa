ghost use Rattle.std.specs.Prelude.{◌≡◌, slice_get};
ghost use Rattle.std.specs.Option.{option_copied};

use crate::term::Term;
use std::marker::Model;

/// The items of a tuple, first to last. Contracts see the list of their trees.
#[cycle(term)]
#[derive(Drop)]
pub struct Items {
    items: Vec<Term>,
}

impl Model for Items {
    ghost use Rattle.std.specs.Prelude.{List};
    ghost use Rattle.std.specs.Coded.{coded_list};
    ghost use Rattle.term_values.specs.Trees.{Tree, trees, sizes_of};
    ghost use Rattle.term_values.specs.Codes.{coded_tree};

    ghost Value = { List Tree };

    ghost coded = { coded_list coded_tree };

    ghost view = { λ a. a.items.items };

    ghost size = { λ ts. sizes_of (trees ts) };

    ghost use Rattle.std.proofs.Common.{arith};
    ghost use Rattle.term_values.specs.Falls.{most_le};

    ghost size_decreases = { λ a h. omega (arith, most_le a.items.items) };
}

impl Items {
    /// These items, of any number. Takes no memory.
    pub fn new(items: Vec<Term>) -> Items
        ensures value { result ≡ items.items }
    {
        Items { items }
    }

    /// The items, in their order. Takes no memory.
    pub fn list(&self) -> &[Term]
        ensures value { result.now ≡ self.now }
    {
        self.items.as_slice()
    }
}

/// Item k of a list, from 0.
pub(crate) fn item_at<T>(items: &[T], k: usize) -> Option<&T>
    ensures item { option_copied result ≡ slice_get items.now k }
{
    items.get(k)
}
