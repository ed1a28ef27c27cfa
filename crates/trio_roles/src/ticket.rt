ghost use Rattle.std.specs.Prelude.{◌≡◌, ◌↔◌, IsTrue, IfOk};
ghost use Rattle.trio_roles.specs.Tickets.{MayGoOn};

use std::alloc::Global;
use std::marker::Model;
use term_values::{OutOfMemory, Term};

/// A protected item that its receiver hands on unread: a message has room for it. Contracts see the
/// item.
#[derive(Drop)]
pub struct Ticket {
    alloc: Global,
    item: Term,
}

impl Model for Ticket {
    ghost use Rattle.term_values.specs.Trees.{Tree};
    ghost use Rattle.term_values.specs.Codes.{coded_tree};
    ghost use Rattle.trio_roles.specs.Tickets.{MayGoOn};

    ghost Value = { Tree };

    ghost coded = { coded_tree };

    ghost view = { λ t. t.item };

    ghost invariant = { λ t. MayGoOn t.item };
}

impl Clone for Ticket {
    ghost is_clone = { λ t u. u ≡ t };

    fn clone(&self) -> Result<Ticket, OutOfMemory> {
        Ok(Ticket {
            alloc: self.alloc,
            item: self.item.copy(self.alloc)?,
        })
    }
}

impl Ticket {
    /// Keeps a copy of an item that may go on.
    ///
    /// # Errors
    ///
    /// Want of memory alone.
    pub fn of(alloc: Global, item: &Term) -> Result<Ticket, OutOfMemory>
        requires goes_on { MayGoOn item.now }
        ensures item { IfOk result (λ t. t ≡ item.now) }
    {
        Ok(Ticket {
            alloc,
            item: item.copy(alloc)?,
        })
    }

    /// The item. Takes no memory.
    pub fn item(&self) -> &Term
        ensures item { result.now ≡ self.now }
        ensures goes_on { MayGoOn result.now }
    {
        &self.item
    }

    /// Whether both are one item. Takes no memory.
    pub fn same(&self, other: &Ticket) -> bool
        ensures same { IsTrue result ↔ (self.now ≡ other.now) }
    {
        self.item.same(&other.item)
    }
}
