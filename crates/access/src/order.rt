// The order of items, and the values of nodes.
ghost use Rattle.std.specs.Prelude.{◌+◌, ◌*◌, ◌^◌, ◌≡◌};
ghost use Rattle.access.specs.Order.{item_le, item_lt, value_of};

use region::{Item, NodeCopy};

// Above every item: the value of an empty node.
const TOP: Item = Item {
    key: u32::MAX,
    tag: 65536,
};

// The two words as one number, in which the key counts more.
// stays: a derived order compares word by word, with a branch; this is one comparison.
fn rank(i: Item) -> u64
    ensures { result ≡ i.key * 2 ^ 32 + i.tag }
{
    i.key as u64 * 4294967296 + i.tag as u64
}

// By key, then tag.
#[tactic(auto, using(crate::proofs::Ways::by_rank))]
pub fn item_le(a: Item, b: Item) -> bool
    ensures { result ≡ item_le a b }
{
    rank(a) <= rank(b)
}

#[tactic(auto, unfolding(crate::specs::Order::item_lt))]
pub fn item_lt(a: Item, b: Item) -> bool
    ensures { result ≡ item_lt a b }
{
    !item_le(b, a)
}

// The value of a copied node: its head's item, or what is above every item where its list is empty.
#[tactic(auto, unfolding(crate::specs::Order::value_of, region::specs::Pick::pick))]
pub fn value_of(q: NodeCopy) -> Item
    ensures { result ≡ value_of q }
{
    if q.node.first == 0 { TOP } else { q.head.item }
}
