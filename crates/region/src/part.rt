// A part of a region: records of one kind, at equal distances. They count from 1; a number out of range loads what its kind has for none
// (the empty node, the zero cell, the idle thread), and stores nothing.
ghost use Rattle.std.specs.Prelude.{◌≡◌, ◌+◌, ◌*◌, ◌^◌, ◌<◌, ◌≤◌, length, Some, None, IfSome};

use crate::record::Record;

// The first word, the words from one record to the next, and how many records there are.
#[derive(Clone, Copy, PartialEq, Eq, Debug)]
pub struct Part {
    pub start: usize,
    pub stride: usize,
    pub count: usize,
}

impl Part {
    ghost use Rattle.region.specs.Pick.{pick};
    ghost use Rattle.region.specs.Shape.{between};
    ghost use Rattle.region.specs.Shared.{entry, record_in, set_record_in};

    // The first word of record n, where there is one.
    #[inline(always)]
    #[tactic(auto, unfolding(crate::specs::Pick::pick, crate::specs::Shape::between))]
    fn entry(self, n: u32) -> Option<usize>
        requires { self.start + self.stride * self.count < 2 ^ 64 }
        ensures value { result ≡ pick (between 1 n self.count) (Some (entry self n)) None }
        ensures within { IfSome result (λ at. at + self.stride ≤ self.start + self.stride * self.count) }
    {
        let k = n as usize;
        if k == 0 || self.count < k {
            return None;
        }
        Some(self.start + self.stride * (k - 1))
    }

    #[inline(always)]
    #[tactic(auto, unfolding(crate::specs::Shared::load_entry, crate::specs::Pick::pick, crate::specs::Shape::between))]
    pub fn load<R: Record>(self, b: &[u8], n: u32) -> R
        requires fits { R.WORDS ≤ self.stride }
        requires within { 4 * (self.start + self.stride * self.count) ≤ length b.now }
        ensures { result ≡ record_in R.of_words R.WORDS R.none self b.now n }
    {
        match self.entry(n) {
            Some(at) => R::load(b, at),
            None => R::default(),
        }
    }

    #[inline(always)]
    #[tactic(auto, unfolding(crate::specs::Shared::store_entry, crate::specs::Pick::pick, crate::specs::Shape::between))]
    pub fn store<R: Record>(self, b: &mut [u8], n: u32, value: R)
        requires fits { R.WORDS ≤ self.stride }
        requires within { 4 * (self.start + self.stride * self.count) ≤ length b.old }
        ensures { b.new ≡ set_record_in R.to_words self b.old n value }
    {
        if let Some(at) = self.entry(n) {
            value.store(b, at);
        }
    }
}
