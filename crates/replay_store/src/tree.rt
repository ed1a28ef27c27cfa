ghost use Rattle.std.specs.Prelude.{◌≡◌, ◌+◌, ◌^◌, ◌<◌, ◌≤◌, ◌++◌, ◌∷◌, ◌%◌, [], length, filter};
ghost use Rattle.std.specs.Prelude.{nat_le, vec_len, vec_capacity};
ghost use Rattle.std.specs.Bool.{OnTrue};
ghost use Rattle.replay_store.specs.Rising.{AllSince, Rises, placed};
ghost use Rattle.replay_store.specs.Windows.{up_to};

use std::marker::Model;
use std::mem;

/// One side of a node may weigh at most so many times as much as the other one.
const BALANCE: usize = 3;

/// A single rotation does where the inner part of the heavy side weighs less than so many times as much as the outer part.
const SINGLE: usize = 2;

/// Keys in rising order, each as often as it was added, in a binary tree that is balanced by weight. So its depth is
/// logarithmic in the number of keys; no clause says so.
#[cycle(tree)]
#[derive(Drop)]
pub(crate) struct Tree {
    top: Option<Box<Node>>,
}

/// A key between the keys of two trees, or the memory for one.
#[cycle(tree)]
#[derive(Drop)]
pub(crate) struct Node {
    left: Tree,
    pub key: u128,
    right: Tree,
    /// How many keys there are, with those of both sides.
    len: usize,
    /// No time of theirs is before this one.
    oldest: u64,
}

impl Model for Tree {
    ghost use Rattle.std.specs.Prelude.{ℕ, List, length};

    ghost Value = { List ℕ };

    ghost use Rattle.replay_store.specs.Rising.{IsCounted, keys_in};

    ghost view = { λ t. keys_in t.top };

    ghost invariant = { λ t. IsCounted t.top };

    ghost size = { length };

    ghost use Rattle.replay_store.specs.Falls.{tree_falls};

    ghost size_decreases = { λ t h. tree_falls t.top };
}

impl Node {
    /// The memory for a node.
    pub fn unused() -> Node {
        Node {
            left: Tree::empty(),
            key: 0,
            right: Tree::empty(),
            len: 1,
            oldest: 0,
        }
    }

    /// The time of the key, its low 64 bits.
    fn time(&self) -> u64
        ensures { result ≡ self.now.key % 2 ^ 64 }
    {
        (self.key % (1 << 64)) as u64
    }
}

impl Tree {
    /// No keys.
    pub fn empty() -> Tree
        ensures { result ≡ [] }
    {
        Tree { top: None }
    }

    /// How many keys there are.
    pub fn len(&self) -> usize
        ensures { result ≡ length self.now }
    {
        match &self.top {
            None => 0,
            Some(top) => top.len,
        }
    }

    /// A time that no key's is before; the greatest of all where there are none.
    fn oldest(&self) -> u64
        ensures since { AllSince result self.now }
        ensures none { result < 18_446_744_073_709_551_615 → 0 < length self.now }
    {
        match &self.top {
            None => u64::MAX,
            Some(top) => top.oldest,
        }
    }

    /// How many keys are at most the bound.
    #[tactic(auto, using(crate::proofs::Rising::length_fork, crate::proofs::Rising::rises_left, crate::proofs::Rising::rises_right, crate::proofs::Rising::up_to_left, crate::proofs::Rising::up_to_right, crate::proofs::Rising::up_to_within))]
    pub fn up_to(&self, bound: u128) -> usize
        requires rising { Rises self.now }
        requires fits { length self.now < 2 ^ 63 }
        ensures { result ≡ up_to bound self.now }
    {
        match &self.top {
            None => 0,
            Some(top) => {
                if top.key <= bound {
                    top.left.len() + 1 + top.right.up_to(bound)
                } else {
                    top.left.up_to(bound)
                }
            }
        }
    }

    /// With the key of this node too.
    #[tactic(auto, using(crate::proofs::Rising::length_fork, crate::proofs::Rising::length_placed, crate::proofs::Rising::rises_left, crate::proofs::Rising::rises_right, crate::proofs::Rising::placed_left, crate::proofs::Rising::placed_right))]
    pub fn add(self, node: Box<Node>) -> Tree
        requires rising { Rises self }
        requires fits { length self + 1 < 2 ^ 63 }
        ensures { result ≡ placed node.value.key self }
    {
        if self.len() == 0 {
            return fork(self, node, Tree::empty());
        }
        let (left, top, right) = self.into_parts();
        if node.key < top.key {
            rebalance(left.add(node), top, right)
        } else {
            rebalance(left, top, right.add(node))
        }
    }

    /// Without the keys whose time is before this one. Their nodes become unused. Goes only where there are such keys.
    #[tactic(auto, using(crate::proofs::Rising::length_fork, crate::proofs::Rising::filter_all, crate::proofs::Rising::filter_with, crate::proofs::Rising::filter_without, crate::proofs::Rising::filter_shorter))]
    pub fn forget_before(self, time: u64, unused: &mut Vec<Box<Node>>) -> Tree
        requires fits { length self + vec_len unused.old ≤ vec_capacity unused.old }
        ensures keys { result ≡ filter (λ k. nat_le time (k % 2 ^ 64)) self }
        ensures nodes { length result + vec_len unused.new ≡ length self + vec_len unused.old }
        ensures room { vec_capacity unused.new ≡ vec_capacity unused.old }
    {
        if self.oldest() >= time {
            return self;
        }
        let (left, top, right) = self.into_parts();
        let left = left.forget_before(time, unused);
        let right = right.forget_before(time, unused);
        if top.time() >= time {
            return link(left, top, right);
        }
        unused.push_reserved(top);
        join(left, right)
    }

    /// The number of keys and one more.
    fn weight(&self) -> usize
        requires { length self.now < 2 ^ 63 }
        ensures { result ≡ length self.now + 1 }
    {
        self.len() + 1
    }

    /// Whether this is too heavy to stand beside the other.
    fn outweighs(&self, other: &Tree) -> bool
        requires here { length self.now < 2 ^ 63 }
        requires there { length other.now < 2 ^ 63 }
        ensures { OnTrue result (0 < length self.now) }
    {
        self.weight() > other.weight().saturating_mul(BALANCE)
    }

    /// The top node and its sides.
    fn into_parts(self) -> (Tree, Box<Node>, Tree)
        requires { 0 < length self }
        ensures { self ≡ result.0 ++ result.1.value.key ∷ result.2 }
    {
        match self.top {
            Some(mut top) => {
                let left = mem::replace(&mut top.left, Tree::empty());
                let right = mem::replace(&mut top.right, Tree::empty());
                (left, top, right)
            }
            None => unreachable!(),
        }
    }

    /// The node of the first key, and the others.
    #[tactic(auto, using(crate::proofs::Rising::length_fork))]
    fn split_first(self) -> (Box<Node>, Tree)
        requires some { 0 < length self }
        requires fits { length self < 2 ^ 63 }
        ensures { self ≡ result.0.value.key ∷ result.1 }
    {
        let (left, top, right) = self.into_parts();
        if left.len() == 0 {
            return (top, right);
        }
        let (first, rest) = left.split_first();
        (first, rebalance(rest, top, right))
    }
}

/// The node between both sides.
#[tactic(auto, using(crate::proofs::Rising::since_fork))]
fn fork(left: Tree, mut node: Box<Node>, right: Tree) -> Tree
    requires fits { length left + length right + 1 < 2 ^ 63 }
    ensures { result ≡ left ++ node.value.key ∷ right }
{
    node.len = left.len() + right.len() + 1;
    node.oldest = left.oldest().min(right.oldest()).min(node.time());
    node.left = left;
    node.right = right;
    Tree { top: Some(node) }
}

/// The node between both sides, of which the right one is too heavy.
#[tactic(auto, using(crate::proofs::Rising::length_fork))]
fn rotate_left(left: Tree, node: Box<Node>, right: Tree) -> Tree
    requires some { 0 < length right }
    requires fits { length left + length right + 1 < 2 ^ 63 }
    ensures { result ≡ left ++ node.value.key ∷ right }
{
    let (inner, top, outer) = right.into_parts();
    if inner.weight() < outer.weight().saturating_mul(SINGLE) {
        return fork(fork(left, node, inner), top, outer);
    }
    let (low, middle, high) = inner.into_parts();
    fork(fork(left, node, low), middle, fork(high, top, outer))
}

/// The node between both sides, of which the left one is too heavy.
#[tactic(auto, using(crate::proofs::Rising::length_fork))]
fn rotate_right(left: Tree, node: Box<Node>, right: Tree) -> Tree
    requires some { 0 < length left }
    requires fits { length left + length right + 1 < 2 ^ 63 }
    ensures { result ≡ left ++ node.value.key ∷ right }
{
    let (outer, top, inner) = left.into_parts();
    if inner.weight() < outer.weight().saturating_mul(SINGLE) {
        return fork(outer, top, fork(inner, node, right));
    }
    let (low, middle, high) = inner.into_parts();
    fork(fork(outer, top, low), middle, fork(high, node, right))
}

/// The node between both sides, of which one may be too heavy by one key.
fn rebalance(left: Tree, node: Box<Node>, right: Tree) -> Tree
    requires fits { length left + length right + 1 < 2 ^ 63 }
    ensures { result ≡ left ++ node.value.key ∷ right }
{
    if right.outweighs(&left) {
        rotate_left(left, node, right)
    } else if left.outweighs(&right) {
        rotate_right(left, node, right)
    } else {
        fork(left, node, right)
    }
}

/// The node between both sides, whatever they weigh.
#[tactic(auto, using(crate::proofs::Rising::length_fork))]
fn link(left: Tree, node: Box<Node>, right: Tree) -> Tree
    requires fits { length left + length right + 1 < 2 ^ 63 }
    ensures { result ≡ left ++ node.value.key ∷ right }
{
    if right.outweighs(&left) {
        let (inner, top, outer) = right.into_parts();
        rebalance(link(left, node, inner), top, outer)
    } else if left.outweighs(&right) {
        let (outer, top, inner) = left.into_parts();
        rebalance(outer, top, link(inner, node, right))
    } else {
        fork(left, node, right)
    }
}

/// The keys of both.
#[tactic(auto, using(crate::proofs::Rising::length_fork))]
fn join(left: Tree, right: Tree) -> Tree
    requires fits { length left + length right < 2 ^ 63 }
    ensures { result ≡ left ++ right }
{
    if right.len() == 0 {
        return left;
    }
    let (first, rest) = right.split_first();
    link(left, first, rest)
}
