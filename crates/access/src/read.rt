// READ of a node, the comparison of an update, and the counter.
ghost use Rattle.std.specs.Prelude.{◌≡◌, false, ◌≤◌, ◌<◌, length};
ghost use Rattle.region.specs.Held.{viewed};
ghost use Rattle.region.specs.Shared.{shared_in};
ghost use Rattle.access.specs.Read.{is_dirty, is_level, is_node, is_spent, read_node, same_node, updated};

use region::{Node, NodeCopy, Shape, View};

// The last value of a word of a counter.
const LAST: u32 = u32::MAX;

// READ of node n, with its head cell.
#[tactic(auto, unfolding(crate::specs::Read::read_node, region::specs::Shared::shared_in))]
#[inline(always)]
pub fn read_node(view: View, n: u32) -> NodeCopy
    ensures { result ≡ read_node (viewed view.entry) n }
{
    let node = view.node(n);
    let head = view.cell(node.first);
    NodeCopy { node, head }
}

// Whether first cell, dirty and counter agree.
#[tactic(auto, unfolding(crate::specs::Read::same_node))]
pub fn same_node(a: Node, b: Node) -> bool
    ensures { result ≡ same_node a b }
{
    a == b
}

#[tactic(auto, unfolding(crate::specs::Read::is_dirty))]
pub fn is_dirty(n: Node) -> bool
    ensures { result ≡ is_dirty n }
{
    n.dirty != 0
}

// Whether the counter has its last value.
#[tactic(auto, using(crate::proofs::Ways::low_decides, crate::proofs::Ways::high_decides))]
pub fn is_spent(n: Node) -> bool
    ensures { result ≡ is_spent n }
{
    n.low == LAST && n.high == LAST
}

// The node with another list and mark, and its counter one more.
#[tactic(auto, using(crate::proofs::ReadLaws::carry_fits), unfolding(crate::specs::Read::updated))]
pub fn updated_node(n: Node, first: u32, dirty: u32) -> Node
    requires { is_spent n ≡ false }
    ensures { result ≡ updated n first dirty }
{
    let low = n.low as u64 + 1;
    Node {
        first,
        dirty,
        low: (low % 4294967296) as u32,
        high: n.high + (low / 4294967296) as u32,
    }
}

#[tactic(auto, unfolding(crate::specs::Read::is_node, region::specs::Shape::between))]
pub fn is_node(shape: Shape, n: usize) -> bool
    requires { shape.depth ≤ 12 }
    ensures { result ≡ is_node shape n }
{
    (1..=shape.node_count()).contains(&n)
}

#[tactic(auto, unfolding(crate::specs::Read::is_level))]
pub fn is_level(shape: Shape, j: u32) -> bool
    ensures { result ≡ is_level shape j }
{
    region::is_between(1, j, shape.depth)
}
