// The shape of a region: its ranges, and the sizes that follow from it.
ghost use Rattle.std.specs.Prelude.{◌≡◌, ◌≤◌, true};
ghost use Rattle.region.specs.Shape.{between, shape_fits, node_count, region_words};
ghost use Rattle.region.specs.Inner.{InRange};

use crate::record::COUNTER_SIZE;

// The words before the nodes.
pub const HEAD_SIZE: usize = 6;

#[derive(Clone, Copy, PartialEq, Eq, Debug)]
pub struct Shape {
    // D, the greatest depth
    pub depth: u32,
    // C
    pub cells: u32,
    // T
    pub threads: u32,
    // H, the failed tries after which a put lets the tree grow
    pub threshold: u32,
}

#[tactic(auto, unfolding(crate::specs::Shape::between))]
pub fn is_between(lo: u32, x: u32, hi: u32) -> bool
    ensures { result ≡ between lo x hi }
{
    (lo..=hi).contains(&x)
}

impl Shape {
    #[tactic(auto, using(crate::proofs::Shapes::in_range), unfolding(crate::specs::Shape::shape_fits, crate::specs::Shape::between))]
    pub fn fits(self) -> bool
        ensures fits { result ≡ shape_fits self }
        ensures range { result ≡ true → InRange self }
    {
        is_between(1, self.depth, 12)
            && is_between(1, self.cells, 1 << (self.depth - 1))
            && is_between(1, self.threads, 64)
            && is_between(1, self.threshold, 16)
    }

    // 2^D - 1.
    pub fn node_count(self) -> usize
        requires { self.depth ≤ 12 }
        ensures { result ≡ node_count self }
    {
        (1 << self.depth) - 1
    }

    // The region's length in words.
    #[tactic(auto, using(crate::proofs::Shapes::words_most))]
    pub fn word_count(self) -> usize
        requires { InRange self }
        ensures words { result ≡ region_words self }
        ensures few { result ≤ 24834 }
    {
        self.word_count_of_width::<COUNTER_SIZE>()
    }
}
