// The records in the order of the positions that they claim.
ghost use Rattle.std.specs.Prelude.{◌≡◌, ◌<◌, false, replicate};
ghost use Rattle.std.specs.Bool.{OnFalse, OnTrue};
ghost use Rattle.records.specs.Accepts.{accepts};
ghost use Rattle.records.specs.Inner.{AtPosition, InOrder, WellFormed};
ghost use Rattle.records.specs.Recorded.{recorded_at};

use crate::form::{Recorded, load_recorded};

// The most records.
pub const MOST: usize = 1024;

// Records in range, each of which claims a position from 1 to their count that no other claims and begins before it is
// answered. Entry k of the order is the number, from 1, of the record that claims position k + 1.
#[derive(Clone, Copy)]
pub struct Walk<'a> {
    pub bytes: &'a [u8],
    pub count: usize,
    pub order: &'a [u32; MOST],
    pub ghost formed: { WellFormed bytes.now count },
    pub ghost ordered: { InOrder count (recorded_at bytes.now) order.now },
}

impl Walk<'_> {
    // The record that claims position k + 1.
    pub fn at(&self, k: usize) -> Recorded
        requires { k < self.now.count }
        ensures { AtPosition self.now.bytes.now self.now.count k result }
    {
        let i = self.order[k] as usize;
        load_recorded(self.bytes, i - 1)
    }
}

// Puts n records in order in an array of zeros, unless one is not before its answer, or claims no position, or that of another.
// stays: a `bool` and a lent array; with an `Option<Walk>` that owns it, its 4 kB were copied once more, and a check of 8 records took 1.5 times as long.
pub fn put_in_order(b: &[u8], n: usize, order: &mut [u32; MOST]) -> bool
    requires formed { WellFormed b.now n }
    requires free { order.old ≡ replicate MOST 0 }
    ensures ordered { OnTrue result (InOrder n (recorded_at b.now) order.new) }
    ensures refused { OnFalse result (accepts n (recorded_at b.now) ≡ false) }
{
    for i in 0..n {
        let r = load_recorded(b, i);
        if r.answer <= r.begin {
            return false;
        }
        let p = r.position as usize;
        if p == 0 || n < p {
            return false;
        }
        if order[p - 1] != 0 {
            return false;
        }
        order[p - 1] = i as u32 + 1;
    }
    true
}
