// The bag played by position, as a heap of numbers: an item is its key and behind it its tag.
ghost use Rattle.std.specs.Prelude.{◌≡◌, ◌<◌, true, []};
ghost use Rattle.records.specs.Accepts.{by_position};
ghost use Rattle.records.specs.Inner.{PlayedOne, packed};
ghost use Rattle.records.specs.Play.{plays};
ghost use Rattle.records.specs.Recorded.{in_range, recorded_at};

use crate::form::Recorded;
use crate::kind::Kind;
use crate::order::Walk;
use heap::Heap;
use region::Item;

// An item as a number that goes by key, then tag.
// stays: no `From`, since it is this heap's order and not what an item is.
#[tactic(auto, unfolding(crate::specs::Inner::packed))]
fn pack(i: Item) -> u64
    ensures { result ≡ packed i }
{
    65536 * u64::from(i.key) + u64::from(i.tag)
}

// Whether the bag gives the answer that is recorded. It is then as the operation leaves it.
fn gives(bag: &mut Heap<1025>, r: Recorded) -> bool
    requires room { bag.old.size < 1024 }
    requires ranged { in_range r ≡ true }
    ensures { PlayedOne bag.old.entries bag.old.size r bag.new.entries bag.new.size result }
{
    let x = pack(r.item);
    match Kind::try_from(r.kind) {
        Ok(Kind::Put) => {
            bag.push(x);
            true
        }
        Ok(Kind::Take) => {
            let Some(least) = bag.least() else {
                return false;
            };
            if least != x {
                return false;
            }
            bag.pop();
            true
        }
        Ok(Kind::Empty) => bag.is_empty(),
        Err(_) => false,
    }
}

// Whether the bag, empty at first, gives every answer. A function of its own: copied into its caller, it took 1.2 times as long.
#[inline(never)]
pub fn is_played(walk: &Walk) -> bool
    ensures { result ≡ plays [] (by_position walk.now.count (recorded_at walk.now.bytes.now)) }
{
    let mut bag = Heap::new();
    for k in 0..walk.count {
        if !gives(&mut bag, walk.at(k)) {
            return false;
        }
    }
    true
}
