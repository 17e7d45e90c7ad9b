// A region by the words of a counter: two, or one in a region of the older form.
ghost use Rattle.std.specs.Prelude.{◌≡◌, ◌≤◌};
ghost use Rattle.region.specs.Frame.{frame_of_width};
ghost use Rattle.region.specs.Inner.{InRange, Width};
ghost use Rattle.region.specs.Record.{copy_size, node_size};
ghost use Rattle.region.specs.Shape.{region_words_of_width};
ghost use Rattle.region.specs.Thread.{thread_size};

use crate::frame::Frame;
use crate::record::CELL_SIZE;
use crate::shape::{HEAD_SIZE, Shape};

// The words of a node: first cell, dirty, counter.
#[inline(always)]
#[tactic(auto, using(crate::proofs::Forms::few_counter_words))]
pub fn node_size<const WIDTH: usize>() -> usize
    requires { Width WIDTH }
    ensures { result ≡ node_size WIDTH }
{
    2 + WIDTH
}

// The words of a node copy: a node, and its head cell.
#[inline(always)]
#[tactic(auto, using(crate::proofs::Forms::few_counter_words))]
pub fn copy_size<const WIDTH: usize>() -> usize
    requires { Width WIDTH }
    ensures { result ≡ copy_size WIDTH }
{
    node_size::<WIDTH>() + CELL_SIZE
}

// The words of a thread's record: those before its node copies, and these.
#[inline(always)]
#[tactic(auto, using(crate::proofs::Forms::few_counter_words))]
pub fn thread_size<const WIDTH: usize>() -> usize
    requires { Width WIDTH }
    ensures { result ≡ thread_size WIDTH }
{
    FIELDS + 3 * copy_size::<WIDTH>()
}

// The words of a thread's record before its node copies.
pub const FIELDS: usize = 15;

impl Frame {
    // The frame of a region that holds one queue.
    #[tactic(auto, unfolding(crate::specs::Frame::frame_of_width))]
    pub fn of_width<const WIDTH: usize>(shape: Shape) -> Frame
        requires width { Width WIDTH }
        requires range { InRange shape }
        ensures { result ≡ frame_of_width WIDTH shape }
    {
        let nodes = node_size::<WIDTH>() * shape.node_count();
        let cells = CELL_SIZE * (shape.cells as usize);
        Frame {
            shape,
            depth: 4,
            free: 5,
            nodes: HEAD_SIZE,
            cells: HEAD_SIZE + nodes,
            threads: HEAD_SIZE + nodes + cells,
            stride: thread_size::<WIDTH>(),
            width: WIDTH,
        }
    }
}

impl Shape {
    // The region's length in words.
    #[tactic(auto, using(crate::proofs::Forms::few_words_in_frame), unfolding(crate::specs::Frame::frame_of_width, crate::specs::Shape::region_words_of_width))]
    pub fn word_count_of_width<const WIDTH: usize>(self) -> usize
        requires width { Width WIDTH }
        requires range { InRange self }
        ensures words { result ≡ region_words_of_width WIDTH self }
        ensures few { result ≤ 24834 }
    {
        let frame = Frame::of_width::<WIDTH>(self);
        frame.threads + frame.stride * (self.threads as usize)
    }
}
