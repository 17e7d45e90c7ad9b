// The six places of mending, M1 to M6: each decides a plan and changes nothing itself. w are the levels that wait.
#![tactic(auto)]

ghost use Rattle.std.specs.Prelude.{◌≡◌, ◌+◌, ◌*◌, ◌≤◌, length};
ghost use Rattle.region.specs.Held.{viewed};
ghost use Rattle.region.specs.Shared.{shared_in};
ghost use Rattle.moundify.specs.Moundify.{node_and_child_same, child_less, after_children_read, clean_at, after_depth_read, exchange_at, exchange_with, marked, mend_clean, mend_read_depth, mend_read_left, mend_read_node, mend_read_right, mend_swap, place_after, return_answer, returned, returning};
ghost use Rattle.moundify.specs.Inner.{HasChildren};

use access::{Effect, Plan};
use region::{Answer, Node, Place, Refusal, Thread, View};

// Where a mending that does not answer goes, by the thread's word `after`.
#[tactic(auto, unfolding(crate::specs::Moundify::place_after, region::specs::Pick::pick))]
fn place_after(after: u32) -> Place
    ensures { result ≡ place_after after }
{
    match after {
        2 => Place::ListReadRoot,
        3 => Place::HandOut,
        _ => Place::ReadRoot,
    }
}

// The record after the return from mending, with these levels waiting.
#[tactic(auto, using(crate::proofs::Returns::some_level, crate::proofs::Returns::few_levels, crate::proofs::Returns::mark_within), unfolding(crate::specs::Moundify::returned, region::specs::Pick::pick))]
fn returned(t: Thread, w: u32) -> Thread
    ensures { result ≡ returned t w }
{
    if w == 0 {
        if t.after == 1 {
            return t.gone_idle();
        }
        return t.at_place(place_after(t.after));
    }
    let deepest = region::level_of(w);
    let node = region::ancestor_at(t.node, deepest);
    t.mending(node, w - region::mark_of(deepest))
}

// What the turn that returns from mending answers.
#[tactic(auto, unfolding(crate::specs::Moundify::return_answer, region::specs::Pick::pick))]
fn return_answer(t: Thread, w: u32) -> Answer
    ensures { result ≡ return_answer t w }
{
    if w == 0 && t.after == 1 {
        Answer::Took(t.result)
    } else {
        Answer::Moved
    }
}

// The return from mending, after an effect.
#[tactic(auto, unfolding(crate::specs::Moundify::returning))]
fn returning(effect: Effect, t: Thread, w: u32) -> Plan
    ensures { result ≡ returning effect t w }
{
    access::plan_of(effect, returned(t, w), return_answer(t, w))
}

// M1
#[tactic(auto, unfolding(crate::specs::Moundify::mend_read_node, region::specs::Pick::pick, region::specs::Shared::shared_in))]
#[inline(always)]
pub fn mend_read_node(view: View, t: Thread, w: u32) -> Plan
    ensures { result ≡ mend_read_node (viewed view.entry) t w }
{
    if t.node == 0 {
        return access::refused(t, Refusal::Unreadable);
    }
    let q = access::read_node(view, t.node);
    access::on_to(t.with_first(q), Place::MendReadDepth(w))
}

// The depth was read: a clean copy returns, whatever the node; a node at the last level goes on to M6, any other to M3.
#[tactic(auto, unfolding(crate::specs::Moundify::after_depth_read, region::specs::Pick::pick))]
fn after_depth_read(t: Thread, d: u32, w: u32) -> Plan
    ensures { result ≡ after_depth_read t d w }
{
    let kept = t.with_depth(d);
    if !access::is_dirty(t.copies.first.node) {
        return returning(Effect::Nothing, kept, w);
    }
    if t.node == 0 {
        return access::refused(t, Refusal::Unreadable);
    }
    if region::level_of(t.node) == d {
        return access::on_to(kept, Place::MendClean(w));
    }
    access::on_to(kept, Place::MendReadLeft(w))
}

// M2
#[tactic(auto, unfolding(crate::specs::Moundify::mend_read_depth, region::specs::Shared::shared_in))]
#[inline(always)]
pub fn mend_read_depth(view: View, t: Thread, w: u32) -> Plan
    ensures { result ≡ mend_read_depth (viewed view.entry) t w }
{
    after_depth_read(t, view.depth(), w)
}

// M3
#[tactic(auto, unfolding(crate::specs::Moundify::mend_read_left, region::specs::Pick::pick, access::specs::Read::is_node, region::specs::Shape::between, region::specs::Shared::shared_in))]
#[inline(always)]
pub fn mend_read_left(view: View, t: Thread, w: u32) -> Plan
    ensures { result ≡ mend_read_left view.entry.frame.shape (viewed view.entry) t w }
{
    let left = 2 * t.node as usize;
    if !access::is_node(view.frame.shape, left) {
        return access::refused(t, Refusal::Unreadable);
    }
    let q = access::read_node(view, left as u32);
    access::on_to(t.with_second(q), Place::MendReadRight(w))
}

// The waiting levels w with level j.
#[tactic(auto, unfolding(crate::specs::Moundify::marked, region::specs::Pick::pick))]
fn marked(w: u32, j: u32) -> u32
    requires { (1 ≤ j) × (j ≤ 32) }
    ensures { result ≡ marked w j }
{
    let mark = region::mark_of(j);
    if w < mark { w + mark } else { w }
}

// Whether the lesser child is less than the node.
#[tactic(auto, using(crate::proofs::Ways::left_decides, crate::proofs::Ways::right_decides))]
fn child_less(t: Thread) -> bool
    ensures { result ≡ child_less t }
{
    let node = access::value_of(t.copies.first);
    let left = access::value_of(t.copies.second);
    let right = access::value_of(t.copies.third);
    if access::item_le(left, right) {
        return access::item_lt(left, node);
    }
    access::item_lt(right, node)
}

// The children were read: one is dirty and is mended first, or one is less, or the node may be cleaned.
#[tactic(auto, using(crate::proofs::Ways::some_level, crate::proofs::Ways::few_levels), unfolding(crate::specs::Moundify::after_children_read, region::specs::Pick::pick))]
fn after_children_read(t: Thread, w: u32) -> Plan
    requires { HasChildren t }
    ensures { result ≡ after_children_read t w }
{
    if access::is_dirty(t.copies.second.node) {
        let waiting = marked(w, region::level_of(t.node));
        return access::moved(t.mending(2 * t.node, waiting));
    }
    if access::is_dirty(t.copies.third.node) {
        let waiting = marked(w, region::level_of(t.node));
        return access::moved(t.mending(2 * t.node + 1, waiting));
    }
    if child_less(t) {
        return access::on_to(t, Place::MendSwap(w));
    }
    access::on_to(t, Place::MendClean(w))
}

// M4
#[tactic(auto, unfolding(crate::specs::Moundify::mend_read_right, region::specs::Pick::pick, access::specs::Read::is_node, region::specs::Shape::between, region::specs::Shared::shared_in))]
#[inline(always)]
pub fn mend_read_right(view: View, t: Thread, w: u32) -> Plan
    ensures { result ≡ mend_read_right view.entry.frame.shape (viewed view.entry) t w }
{
    let right = 2 * t.node as usize + 1;
    if t.node == 0 || !access::is_node(view.frame.shape, right) {
        return access::refused(t, Refusal::Unreadable);
    }
    let q = access::read_node(view, right as u32);
    after_children_read(t.with_third(q), w)
}

// The exchange of the node's list and its child's; `holds` says whether the comparison held.
// stays: holds is what the comparison found, and no caller chooses it.
#[tactic(auto, unfolding(crate::specs::Moundify::exchange_at, region::specs::Pick::pick))]
fn exchange_at(t: Thread, w: u32, c: u32, k: Node, holds: bool) -> Plan
    ensures { result ≡ exchange_at t w c k holds }
{
    if !holds {
        return access::on_to(t, Place::MendReadNode(w));
    }
    let n = t.copies.first.node;
    if access::is_spent(n) || access::is_spent(k) {
        return access::refused(t, Refusal::CounterSpent);
    }
    let effect = Effect::Exchange {
        node: t.node,
        value: access::updated_node(n, k.first, 0),
        child: c,
        below: access::updated_node(k, n.first, 1),
    };
    access::plan_of(effect, t.mending(c, w), Answer::Moved)
}

// Whether the node and the child are as they were copied.
#[tactic(auto, unfolding(crate::specs::Moundify::node_and_child_same, access::specs::Read::same_node, region::specs::Shared::shared_in))]
#[inline(always)]
fn node_and_child_same(view: View, t: Thread, c: u32, k: Node) -> bool
    ensures { result ≡ node_and_child_same (viewed view.entry) t c k }
{
    access::same_node(view.node(t.node), t.copies.first.node) && access::same_node(view.node(c), k)
}

// DCAS of the node and its child.
#[tactic(auto, unfolding(crate::specs::Moundify::exchange_with, crate::specs::Moundify::node_and_child_same, region::specs::Pick::pick, access::specs::Read::is_node, access::specs::Read::same_node, region::specs::Shape::between, region::specs::Shared::shared_in))]
#[inline(always)]
fn exchange_with(view: View, t: Thread, w: u32, child: usize, k: Node) -> Plan
    ensures { result ≡ exchange_with view.entry.frame.shape (viewed view.entry) t w child k }
{
    if t.node == 0 || !access::is_node(view.frame.shape, child) {
        return access::refused(t, Refusal::Unreadable);
    }
    let c = child as u32;
    exchange_at(t, w, c, k, node_and_child_same(view, t, c, k))
}

// M5. The child is chosen first, so that the exchange stands here once and is compiled into its place.
#[tactic(auto, unfolding(crate::specs::Moundify::mend_swap, region::specs::Pick::pick, access::specs::Order::item_le, region::specs::Shared::shared_in))]
#[inline(always)]
pub fn mend_swap(view: View, t: Thread, w: u32) -> Plan
    ensures { result ≡ mend_swap view.entry.frame.shape (viewed view.entry) t w }
{
    let left = 2 * t.node as usize;
    let second = t.copies.second;
    let third = t.copies.third;
    let (child, copy) = if access::item_le(access::value_of(second), access::value_of(third)) {
        (left, second)
    } else {
        (left + 1, third)
    };
    exchange_with(view, t, w, child, copy.node)
}

// The node becomes clean, where it is as it was copied.
#[tactic(auto, unfolding(crate::specs::Moundify::clean_at, region::specs::Pick::pick))]
fn clean_at(t: Thread, w: u32) -> Plan
    ensures { result ≡ clean_at t w }
{
    let n = t.copies.first.node;
    if access::is_spent(n) {
        return access::refused(t, Refusal::CounterSpent);
    }
    let effect = Effect::Clean {
        node: t.node,
        value: access::updated_node(n, n.first, 0),
    };
    returning(effect, t, w)
}

// M6
#[tactic(auto, unfolding(crate::specs::Moundify::mend_clean, region::specs::Pick::pick, access::specs::Read::same_node, region::specs::Shared::shared_in))]
#[inline(always)]
pub fn mend_clean(view: View, t: Thread, w: u32) -> Plan
    ensures { result ≡ mend_clean (viewed view.entry) t w }
{
    if t.node == 0 {
        return access::refused(t, Refusal::Unreadable);
    }
    if !access::same_node(view.node(t.node), t.copies.first.node) {
        return access::on_to(t, Place::MendReadNode(w));
    }
    clean_at(t, w)
}
