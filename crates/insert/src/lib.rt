// The eight places of a put, I1 to I8: each decides a plan and changes nothing itself.
#![tactic(auto)]

ghost use Rattle.std.specs.Prelude.{◌≡◌, ◌≤◌, true, length};
ghost use Rattle.region.specs.Held.{viewed};
ghost use Rattle.region.specs.Shared.{shared_in};
ghost use Rattle.insert.specs.Insert.{after_ancestor_read, node_and_parent_same, failed_place, grow_depth, has_middle, has_tried_deepest, insert_at, insert_at_root, insert_below, is_leaf_of, leaf_after_failed_try, after_failed_try, leaf_of, leaf_to_read, after_leaf_read, middle_level, next_tries, read_ancestor, read_depth, read_leaf, read_parent, read_target, search_on, target_place};

use access::{Effect, Plan};
use region::{Answer, NodeCopy, Place, Refusal, Search, Shape, Thread, View};

// I1
#[tactic(auto, unfolding(crate::specs::Insert::read_depth, region::specs::Shared::shared_in))]
#[inline(always)]
pub fn read_depth(view: View, t: Thread) -> Plan
    ensures { result ≡ read_depth (viewed view.entry) t }
{
    let depth = view.depth();
    let old = t.search_state;
    let search = Search { tries: 0, ..old };
    access::on_to(t.with_depth(depth).with_search(search), Place::ReadLeaf)
}

// The search goes on, or the insertion point is found.
#[tactic(auto, using(crate::proofs::Ways::some_level), unfolding(crate::specs::Insert::search_on, region::specs::Pick::pick, region::specs::Shape::between))]
fn search_on(t: Thread) -> Plan
    ensures { result ≡ search_on t }
{
    let leaf = t.search_state.leaf;
    let hi = t.search_state.hi;
    if t.search_state.lo < hi {
        return access::on_to(t, Place::ReadAncestor);
    }
    if !region::is_between(1, hi, region::level_of(leaf)) {
        return access::refused(t, Refusal::Unreadable);
    }
    access::on_to(
        t.with_node(region::ancestor_at(leaf, hi)),
        Place::ReadTarget,
    )
}

// The leaf that a choice names at depth d.
#[tactic(auto, using(crate::proofs::Ways::leaf_named))]
fn leaf_of(d: u32, choice: u32) -> u32
    requires { (1 ≤ d) × (d ≤ 12) }
    ensures { result ≡ leaf_of d choice }
{
    let leaves = region::mark_of(d);
    leaves + choice % leaves
}

// Whether this is a leaf of level d.
#[tactic(auto, using(crate::proofs::Ways::leaf_tested))]
fn is_leaf_of(d: u32, leaf: u32) -> bool
    requires { (1 ≤ d) × (d ≤ 12) }
    ensures { result ≡ is_leaf_of d leaf }
{
    leaf / region::mark_of(d) == 1
}

// Whether the put has tried a leaf of the greatest depth.
#[tactic(auto, unfolding(crate::specs::Insert::has_tried_deepest))]
fn has_tried_deepest(shape: Shape, t: Thread) -> bool
    requires { (1 ≤ t.depth) × (t.depth ≤ 12) }
    ensures { result ≡ has_tried_deepest shape t }
{
    t.depth == shape.depth && is_leaf_of(t.depth, t.search_state.leaf)
}

// The leaf to read: the one in the leaf word, or the one that the choice names. A leaf's own number names that leaf.
#[tactic(auto, using(crate::proofs::Ways::leaf_word_counts, crate::proofs::Ways::choice_counts))]
fn leaf_to_read(shape: Shape, t: Thread, choice: u32) -> u32
    requires { (1 ≤ t.depth) × (t.depth ≤ 12) }
    ensures { result ≡ leaf_to_read shape t choice }
{
    if has_tried_deepest(shape, t) {
        return leaf_of(t.depth, t.search_state.leaf);
    }
    leaf_of(t.depth, choice)
}

// The leaf word after a failed try: the number behind a leaf names the next one, and behind the last the first.
#[tactic(auto, using(crate::proofs::Ways::leaf_moves, crate::proofs::Ways::leaf_stays, crate::proofs::Ways::next_fits))]
fn leaf_after_failed_try(shape: Shape, t: Thread, leaf: u32) -> u32
    requires { (1 ≤ t.depth) × (t.depth ≤ 12) × (is_leaf_of t.depth leaf ≡ true) }
    ensures { result ≡ leaf_after_failed_try shape t leaf }
{
    if t.depth != shape.depth {
        return leaf;
    }
    leaf_of(t.depth, leaf + 1)
}

// The tries after one more, at most the threshold.
#[tactic(auto, unfolding(crate::specs::Insert::next_tries))]
fn next_tries(shape: Shape, t: Thread) -> u32
    ensures { result ≡ next_tries shape t }
{
    t.search_state.tries.saturating_add(1).min(shape.threshold)
}

// The place after a leaf whose value is below the item.
#[tactic(auto, unfolding(crate::specs::Insert::failed_place, region::specs::Pick::pick))]
fn failed_place(shape: Shape, t: Thread) -> Place
    ensures { result ≡ failed_place shape t }
{
    if next_tries(shape, t) < shape.threshold {
        return Place::ReadLeaf;
    }
    if t.depth < shape.depth {
        return Place::GrowDepth;
    }
    Place::ReadDepth
}

// The leaf's value is below the item.
#[tactic(auto, unfolding(crate::specs::Insert::after_failed_try))]
fn after_failed_try(shape: Shape, t: Thread, leaf: u32, q: NodeCopy) -> Plan
    requires { (1 ≤ t.depth) × (t.depth ≤ 12) × (is_leaf_of t.depth leaf ≡ true) }
    ensures { result ≡ after_failed_try shape t leaf q }
{
    let old = t.search_state;
    let search = Search {
        leaf: leaf_after_failed_try(shape, t, leaf),
        tries: next_tries(shape, t),
        ..old
    };
    access::on_to(t.with_search(search).with_first(q), failed_place(shape, t))
}

// The leaf was read: the search begins, or the try failed.
#[tactic(auto, unfolding(crate::specs::Insert::after_leaf_read, region::specs::Pick::pick))]
fn after_leaf_read(shape: Shape, t: Thread, leaf: u32, q: NodeCopy) -> Plan
    requires { (1 ≤ t.depth) × (t.depth ≤ 12) × (is_leaf_of t.depth leaf ≡ true) }
    ensures { result ≡ after_leaf_read shape t leaf q }
{
    if !access::item_le(t.item, access::value_of(q)) {
        return after_failed_try(shape, t, leaf, q);
    }
    let old = t.search_state;
    let search = Search {
        leaf,
        lo: 1,
        hi: t.depth,
        ..old
    };
    search_on(t.with_search(search).with_first(q))
}

// I2
#[tactic(auto, unfolding(crate::specs::Insert::read_leaf, region::specs::Pick::pick, access::specs::Read::is_level, region::specs::Shape::between, region::specs::Shared::shared_in))]
#[inline(always)]
pub fn read_leaf(view: View, t: Thread, choice: u32) -> Plan
    ensures { result ≡ read_leaf view.entry.frame.shape (viewed view.entry) t choice }
{
    let shape = view.frame.shape;
    if !access::is_level(shape, t.depth) {
        return access::refused(t, Refusal::Unreadable);
    }
    let leaf = leaf_to_read(shape, t, choice);
    after_leaf_read(shape, t, leaf, access::read_node(view, leaf))
}

// The ancestor at this level was read: one of the levels between which the search looks moves.
#[tactic(auto, unfolding(crate::specs::Insert::after_ancestor_read, region::specs::Pick::pick))]
fn after_ancestor_read(t: Thread, middle: u32, q: NodeCopy) -> Plan
    requires { middle ≤ 32 }
    ensures { result ≡ after_ancestor_read t middle q }
{
    let old = t.search_state;
    let search = if access::item_le(t.item, access::value_of(q)) {
        Search { hi: middle, ..old }
    } else {
        Search {
            lo: middle + 1,
            ..old
        }
    };
    search_on(t.with_search(search).with_first(q))
}

// The level halfway between those of the search.
#[tactic(auto, unfolding(crate::specs::Insert::middle_level))]
fn middle_level(t: Thread) -> u32
    ensures { result ≡ middle_level t }
{
    let lo = t.search_state.lo as usize;
    let hi = t.search_state.hi as usize;
    ((lo + hi) / 2) as u32
}

// Whether the search goes on, and the level halfway is one that the leaf has.
#[tactic(auto, unfolding(crate::specs::Insert::has_middle))]
fn has_middle(t: Thread) -> bool
    ensures { result ≡ has_middle t }
{
    t.search_state.lo < t.search_state.hi
        && region::is_between(1, middle_level(t), region::level_of(t.search_state.leaf))
}

// I3
#[tactic(auto, using(crate::proofs::Ways::middle_most), unfolding(crate::specs::Insert::read_ancestor, crate::specs::Insert::has_middle, region::specs::Pick::pick, region::specs::Shape::between, region::specs::Shared::shared_in))]
#[inline(always)]
pub fn read_ancestor(view: View, t: Thread) -> Plan
    ensures { result ≡ read_ancestor (viewed view.entry) t }
{
    if !has_middle(t) {
        return access::refused(t, Refusal::Unreadable);
    }
    let middle = middle_level(t);
    let node = region::ancestor_at(t.search_state.leaf, middle);
    after_ancestor_read(t, middle, access::read_node(view, node))
}

// I4
#[tactic(auto, unfolding(crate::specs::Insert::grow_depth, region::specs::Pick::pick, access::specs::Read::is_level, region::specs::Shape::between, region::specs::Shared::shared_in))]
#[inline(always)]
pub fn grow_depth(view: View, t: Thread) -> Plan
    ensures { result ≡ grow_depth view.entry.frame.shape (viewed view.entry) t }
{
    let shape = view.frame.shape;
    let d = t.depth;
    if !access::is_level(shape, d) || !access::is_level(shape, d + 1) {
        return access::refused(t, Refusal::Unreadable);
    }
    if view.depth() == d {
        return access::plan_of(
            Effect::Grow(d + 1),
            t.at_place(Place::ReadDepth),
            Answer::Moved,
        );
    }
    access::on_to(t, Place::ReadDepth)
}

// The place after reading the node to insert at.
#[tactic(auto, unfolding(crate::specs::Insert::target_place, region::specs::Pick::pick))]
fn target_place(t: Thread, q: NodeCopy) -> Place
    ensures { result ≡ target_place t q }
{
    if access::item_lt(access::value_of(q), t.item) {
        return Place::ReadDepth;
    }
    if t.node == 1 {
        return Place::InsertAtRoot;
    }
    Place::ReadParent
}

// I5
#[tactic(auto, unfolding(crate::specs::Insert::read_target, region::specs::Pick::pick, region::specs::Shared::shared_in))]
#[inline(always)]
pub fn read_target(view: View, t: Thread) -> Plan
    ensures { result ≡ read_target (viewed view.entry) t }
{
    if t.node == 0 {
        return access::refused(t, Refusal::Unreadable);
    }
    let q = access::read_node(view, t.node);
    access::on_to(t.with_first(q), target_place(t, q))
}

// The update of I6 and I8 at node n; `holds` says whether its comparison held.
// stays: holds is what the comparison found, and no caller chooses it.
#[tactic(auto, unfolding(crate::specs::Insert::insert_at, region::specs::Pick::pick))]
fn insert_at(t: Thread, n: u32, holds: bool) -> Plan
    ensures { result ≡ insert_at t n holds }
{
    if !holds {
        return access::on_to(t, Place::ReadDepth);
    }
    let node = t.copies.first.node;
    if access::is_spent(node) {
        return access::refused(t, Refusal::CounterSpent);
    }
    let effect = Effect::Push {
        node: n,
        value: access::updated_node(node, t.own, node.dirty),
        cell: t.own,
        next: node.first,
    };
    access::plan_of(effect, t.gone_idle(), Answer::Inserted)
}

// I6
#[tactic(auto, unfolding(crate::specs::Insert::insert_at_root, region::specs::Pick::pick, access::specs::Read::same_node, region::specs::Shared::shared_in))]
#[inline(always)]
pub fn insert_at_root(view: View, t: Thread) -> Plan
    ensures { result ≡ insert_at_root (viewed view.entry) t }
{
    if t.own == 0 {
        return access::refused(t, Refusal::Unreadable);
    }
    insert_at(t, 1, access::same_node(view.node(1), t.copies.first.node))
}

// I7
#[tactic(auto, unfolding(crate::specs::Insert::read_parent, region::specs::Pick::pick, access::specs::Order::item_lt, access::specs::Order::item_le, region::specs::Shared::shared_in))]
#[inline(always)]
pub fn read_parent(view: View, t: Thread) -> Plan
    ensures { result ≡ read_parent (viewed view.entry) t }
{
    if t.node < 2 {
        return access::refused(t, Refusal::Unreadable);
    }
    let q = access::read_node(view, t.node / 2);
    let next = if access::item_lt(t.item, access::value_of(q)) {
        Place::ReadDepth
    } else {
        Place::InsertBelow
    };
    access::on_to(t.with_second(q), next)
}

// Whether the node and its parent are as they were copied.
#[tactic(auto, unfolding(crate::specs::Insert::node_and_parent_same, access::specs::Read::same_node, region::specs::Shared::shared_in))]
#[inline(always)]
fn node_and_parent_same(view: View, t: Thread) -> bool
    ensures { result ≡ node_and_parent_same (viewed view.entry) t }
{
    access::same_node(view.node(t.node), t.copies.first.node)
        && access::same_node(view.node(t.node / 2), t.copies.second.node)
}

// I8
#[tactic(auto, unfolding(crate::specs::Insert::insert_below, crate::specs::Insert::node_and_parent_same, region::specs::Pick::pick, access::specs::Read::same_node, region::specs::Shared::shared_in))]
#[inline(always)]
pub fn insert_below(view: View, t: Thread) -> Plan
    ensures { result ≡ insert_below (viewed view.entry) t }
{
    if t.node < 2 || t.own == 0 {
        return access::refused(t, Refusal::Unreadable);
    }
    insert_at(t, t.node, node_and_parent_same(view, t))
}
