ghost use Rattle.std.specs.Prelude.{◌≡◌, ◌+◌, ◌%◌, ◌^◌, ◌<◌, ◌≤◌, [], ℕ, Bool, OnOk, cond};
ghost use Rattle.std.specs.Prelude.{count_by, length, nat_le, filter};
ghost use Rattle.replay_store.specs.Windows.{below, up_to};

use crate::tree::{Node, Tree};
use std::alloc::Global;
use std::marker::Model;
use std::mem;
use term_values::OutOfMemory;

/// Keys in rising order, each as often as it was added, with the memory for more of them.
#[derive(Drop)]
pub(crate) struct Ranked {
    tree: Tree,
    /// Each has no keys on its sides. There is room for all nodes, those of the tree too.
    unused: Vec<Box<Node>>,
}

impl Model for Ranked {
    ghost use Rattle.std.specs.Prelude.{◌+◌, ◌≤◌, length, vec_len, vec_capacity};
    ghost use Rattle.replay_store.specs.Rising.{Rises};
    ghost use Rattle.replay_store.specs.Windows.{Ranks};

    ghost Value = { Ranks };

    ghost view = { λ r. record { keys = r.tree; room = vec_len r.unused } };

    ghost invariant = { λ r. Rises r.tree × (length r.tree + vec_len r.unused ≤ vec_capacity r.unused) };
}

impl Ranked {
    /// No keys.
    pub fn new(alloc: Global) -> Ranked
        ensures { result.keys ≡ [] }
    {
        Ranked {
            tree: Tree::empty(),
            unused: Vec::new(alloc),
        }
    }

    /// None of these keys.
    pub fn emptied(&self) -> Ranked
        ensures { result.keys ≡ [] }
    {
        Ranked::new(self.allocator())
    }

    /// The allocator that the keys take their memory from.
    pub fn allocator(&self) -> Global {
        *self.unused.allocator()
    }

    /// How many keys there are.
    pub fn len(&self) -> usize
        ensures count { result ≡ length self.now.keys }
        ensures small { result < 2 ^ 63 }
    {
        self.tree.len()
    }

    /// Takes the memory of so many more keys.
    pub fn reserve(&mut self, more: usize) -> Result<(), OutOfMemory>
        ensures room { OnOk result (more ≤ self.new.room) }
        ensures kept { self.old.room ≤ self.new.room }
        ensures keys { self.new.keys ≡ self.old.keys }
    {
        let alloc = self.allocator();
        self.unused.reserve(self.tree.len().saturating_add(more))?;
        while self.unused.len() < more {
            let node = Box::new(alloc, Node::unused())?;
            self.unused.push_reserved(node);
        }
        Ok(())
    }

    /// How many keys are below the bound.
    #[tactic(auto, using(crate::proofs::Rising::below_is, crate::proofs::Rising::below_nothing))]
    pub fn below(&self, bound: u128) -> usize
        ensures { result ≡ below bound self.now.keys }
    {
        match bound.checked_sub(1) {
            None => 0,
            Some(most) => self.tree.up_to(most),
        }
    }

    /// How many keys are at most the bound.
    pub fn up_to(&self, bound: u128) -> usize
        ensures { result ≡ up_to bound self.now.keys }
    {
        self.tree.up_to(bound)
    }

    /// Adds a key.
    #[tactic(auto, using(crate::proofs::Rising::count_placed, crate::proofs::Rising::length_placed, crate::proofs::Rising::rises_placed))]
    pub fn add(&mut self, key: u128)
        requires { 0 < self.old.room }
        ensures added { (p : ℕ → Bool) → count_by p self.new.keys ≡ count_by p self.old.keys + cond
            (p key) 1 0 }
        ensures room { self.old.room ≤ self.new.room + 1 }
    {
        let Some(mut node) = self.unused.pop() else {
            unreachable!()
        };
        node.key = key;
        let tree = mem::replace(&mut self.tree, Tree::empty());
        self.tree = tree.add(node);
    }

    /// Forgets each key whose low 64 bits are below the time.
    #[tactic(auto, using(crate::proofs::Rising::filter_shorter, crate::proofs::Rising::rises_filter))]
    pub fn forget_before(&mut self, time: u64)
        ensures keys { self.new.keys ≡ filter (λ k. nat_le time (k % 2 ^ 64)) self.old.keys }
        ensures room { self.old.room ≤ self.new.room }
    {
        let tree = mem::replace(&mut self.tree, Tree::empty());
        self.tree = tree.forget_before(time, &mut self.unused);
    }
}
