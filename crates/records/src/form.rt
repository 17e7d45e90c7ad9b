// A record by value, and the test that all records are whole and in range.
ghost use Rattle.std.specs.Prelude.{◌≡◌, ◌*◌, ◌+◌, ◌≤◌, length};
ghost use Rattle.records.specs.Recorded.{all_in_range, in_range, recorded_at, well_formed};

use crate::kind::Kind;
use region::Item;

// The bytes of a record.
pub const RECORD_BYTES: usize = 28;

// What a record says of an operation: its kind, its thread, when it began and was answered, the position that it claims
// among all, and its item.
#[derive(Clone, Copy)]
pub struct Recorded {
    // stays: a word of any value, as `recorded_of` (specs/Recorded) reads it and `record_words` of crates/accepted writes it back.
    pub kind: u32,
    pub thread: u32,
    pub begin: u32,
    pub answer: u32,
    pub position: u32,
    pub item: Item,
}

// Record k, from 0.
#[tactic(auto, unfolding(crate::specs::Recorded::recorded_at))]
pub fn load_recorded(b: &[u8], k: usize) -> Recorded
    requires { 28 * k + 28 ≤ length b.now }
    ensures { result ≡ recorded_at b.now k }
{
    let mut a = [0u32; 7];
    words::load_words(b, 7 * k, &mut a);
    let [kind, thread, begin, answer, position, key, tag] = a;
    Recorded {
        kind,
        thread,
        begin,
        answer,
        position,
        item: Item { key, tag },
    }
}

// Whether kind, thread, key and tag are in range.
#[tactic(auto, unfolding(crate::specs::Recorded::in_range, region::specs::Shape::between, region::specs::Pick::pick, region::specs::Record::same_item))]
fn is_in_range(r: Recorded) -> bool
    ensures { result ≡ in_range r }
{
    let Ok(kind) = Kind::try_from(r.kind) else {
        return false;
    };
    if !region::is_between(1, r.thread, 64) {
        return false;
    }
    if kind == Kind::Empty {
        return r.item.key == 0 && r.item.tag == 0;
    }
    region::is_item(r.item)
}

// Whether the first n records are in range.
// stays: here and in the walks n is the number of records, not the length of b; the test of the bytes gives it once.
#[tactic(auto, using(crate::proofs::Ranges::range_bad, crate::proofs::Ranges::range_end))]
fn are_in_range(b: &[u8], n: usize) -> bool
    requires { 28 * n ≤ length b.now }
    ensures { result ≡ all_in_range b.now n }
{
    for k in 0..n {
        if !is_in_range(load_recorded(b, k)) {
            return false;
        }
    }
    true
}

// Whether the bytes are whole records, at most 1,024 of them, all in range.
#[tactic(auto, unfolding(crate::specs::Recorded::well_formed))]
pub fn is_well_formed(b: &[u8]) -> bool
    ensures { result ≡ well_formed b.now }
{
    let n = b.len() / RECORD_BYTES;
    b.len() % RECORD_BYTES == 0 && n <= 1024 && are_in_range(b, n)
}
