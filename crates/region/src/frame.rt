// Where the parts of a queue lie in its region: nodes, cells, threads' records, the present depth and the first free cell.
ghost use Rattle.std.specs.Prelude.{◌≡◌, ◌≤◌};
ghost use Rattle.region.specs.Inner.{InRange};
ghost use Rattle.region.specs.Record.{counter_size};
ghost use Rattle.region.specs.Frame.{frame_of, nodes_of, cells_of, threads_of};

use crate::part::Part;
use crate::record::{CELL_SIZE, COUNTER_SIZE, NODE_SIZE};
use crate::shape::Shape;

// Word offsets of the parts, the stride of a thread's record in words, and the words of a counter.
#[derive(Clone, Copy, PartialEq, Eq, Debug)]
pub struct Frame {
    pub shape: Shape,
    pub depth: usize,
    pub free: usize,
    pub nodes: usize,
    pub cells: usize,
    pub threads: usize,
    pub stride: usize,
    pub width: usize,
}

impl Frame {
    // The frame of a region that holds one queue.
    pub fn of(shape: Shape) -> Frame
        requires { InRange shape }
        ensures { result ≡ frame_of shape }
    {
        Frame::of_width::<COUNTER_SIZE>(shape)
    }

    // The nodes, the cells and the threads' records.
    #[inline(always)]
    pub fn nodes(self) -> Part
        requires { (self.width ≡ counter_size) × (self.shape.depth ≤ 12) }
        ensures { result ≡ nodes_of self }
    {
        Part {
            start: self.nodes,
            stride: NODE_SIZE,
            count: self.shape.node_count(),
        }
    }

    #[inline(always)]
    pub fn cells(self) -> Part
        ensures { result ≡ cells_of self }
    {
        Part {
            start: self.cells,
            stride: CELL_SIZE,
            count: self.shape.cells as usize,
        }
    }

    #[inline(always)]
    pub fn threads(self) -> Part
        ensures { result ≡ threads_of self }
    {
        Part {
            start: self.threads,
            stride: self.stride,
            count: self.shape.threads as usize,
        }
    }
}
