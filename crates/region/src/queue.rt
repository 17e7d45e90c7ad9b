// A queue in lent bytes: the bytes, and where its parts lie in them.
ghost use Rattle.std.specs.Prelude.{◌≡◌, length};
ghost use Rattle.region.specs.Inner.{Within};

use crate::frame::Frame;
use crate::record::{Cell, Node};
use crate::thread::Thread;
use words::{load_word, store_word};

#[derive(Drop)]
pub struct Queue<'a> {
    pub bytes: &'a mut [u8],
    pub frame: Frame,
    ghost within: { Within frame (length bytes.now) },
}

// The same to be read alone.
#[derive(Clone, Copy)]
pub struct View<'a> {
    pub bytes: &'a [u8],
    pub frame: Frame,
    ghost within: { Within frame (length bytes.now) },
}

impl<'a> Queue<'a> {
    ghost use Rattle.words.specs.Word.{word, set_word};
    ghost use Rattle.region.specs.Shared.{node_in, set_node_in, cell_in, set_cell_in, thread_in, set_thread_in, set_permission_in};
    ghost use Rattle.region.specs.Held.{Holds};

    #[inline(always)]
    pub fn new(bytes: &'a mut [u8], frame: Frame) -> Queue<'a>
        requires { Within frame (length bytes.old) }
        ensures same_reference { result.bytes.ghost_name ≡ bytes.entry.ghost_name }
        ensures bytes { result.bytes.now ≡ bytes.old }
        ensures frame { result.frame ≡ frame }
    {
        Queue { bytes, frame }
    }

    #[inline(always)]
    #[tactic(auto, using(crate::proofs::Parts::node_loaded))]
    pub fn node(&self, n: u32) -> Node
        ensures { result ≡ node_in self.now.frame self.now.bytes.now n }
    {
        self.frame.nodes().load(self.bytes, n)
    }

    #[inline(always)]
    #[tactic(auto, using(crate::proofs::Parts::node_stored))]
    pub fn set_node(&mut self, n: u32, node: Node)
        ensures { Holds self.old self.new (set_node_in self.old.frame self.old.bytes.now n node) }
    {
        self.frame.nodes().store(self.bytes, n, node);
    }

    #[inline(always)]
    #[tactic(auto, using(crate::proofs::Parts::cell_loaded))]
    pub fn cell(&self, n: u32) -> Cell
        ensures { result ≡ cell_in self.now.frame self.now.bytes.now n }
    {
        self.frame.cells().load(self.bytes, n)
    }

    #[inline(always)]
    #[tactic(auto, using(crate::proofs::Parts::cell_stored))]
    pub fn set_cell(&mut self, n: u32, cell: Cell)
        ensures { Holds self.old self.new (set_cell_in self.old.frame self.old.bytes.now n cell) }
    {
        self.frame.cells().store(self.bytes, n, cell);
    }

    #[inline(always)]
    #[tactic(auto, using(crate::proofs::Parts::thread_loaded))]
    pub fn thread(&self, n: u32) -> Thread
        ensures { result ≡ thread_in self.now.frame self.now.bytes.now n }
    {
        self.frame.threads().load(self.bytes, n)
    }

    #[inline(always)]
    #[tactic(auto, using(crate::proofs::Parts::thread_stored))]
    pub fn set_thread(&mut self, n: u32, thread: Thread)
        ensures { Holds self.old self.new (set_thread_in self.old.frame self.old.bytes.now n thread) }
    {
        self.frame.threads().store(self.bytes, n, thread);
    }

    #[inline(always)]
    #[tactic(auto, unfolding(crate::specs::Shared::set_permission_in))]
    pub fn set_permission(&mut self, n: u32, permission: u32)
        ensures { Holds self.old self.new (set_permission_in self.old.frame self.old.bytes.now n permission) }
    {
        self.frame.threads().store(self.bytes, n, permission);
    }

    #[inline(always)]
    pub fn depth(&self) -> u32
        ensures { result ≡ word self.now.bytes.now self.now.frame.depth }
    {
        load_word(self.bytes, self.frame.depth)
    }

    #[inline(always)]
    pub fn set_depth(&mut self, depth: u32)
        ensures { Holds self.old self.new (set_word self.old.bytes.now self.old.frame.depth depth) }
    {
        store_word(self.bytes, self.frame.depth, depth);
    }

    #[inline(always)]
    pub fn free(&self) -> u32
        ensures { result ≡ word self.now.bytes.now self.now.frame.free }
    {
        load_word(self.bytes, self.frame.free)
    }

    #[inline(always)]
    pub fn set_free(&mut self, cell: u32)
        ensures { Holds self.old self.new (set_word self.old.bytes.now self.old.frame.free cell) }
    {
        store_word(self.bytes, self.frame.free, cell);
    }

    #[inline(always)]
    pub fn view(&self) -> View<'_>
        ensures bytes { result.bytes.now ≡ self.now.bytes.now }
        ensures frame { result.frame ≡ self.now.frame }
    {
        View {
            bytes: self.bytes,
            frame: self.frame,
        }
    }
}

impl<'a> View<'a> {
    ghost use Rattle.words.specs.Word.{word};
    ghost use Rattle.region.specs.Shared.{node_in, cell_in, thread_in};

    #[inline(always)]
    pub fn new(bytes: &'a [u8], frame: Frame) -> View<'a>
        requires { Within frame (length bytes.now) }
        ensures bytes { result.bytes.now ≡ bytes.now }
        ensures frame { result.frame ≡ frame }
    {
        View { bytes, frame }
    }

    #[inline(always)]
    #[tactic(auto, using(crate::proofs::Parts::node_loaded))]
    pub fn node(self, n: u32) -> Node
        ensures { result ≡ node_in self.entry.frame self.entry.bytes.now n }
    {
        self.frame.nodes().load(self.bytes, n)
    }

    #[inline(always)]
    #[tactic(auto, using(crate::proofs::Parts::cell_loaded))]
    pub fn cell(self, n: u32) -> Cell
        ensures { result ≡ cell_in self.entry.frame self.entry.bytes.now n }
    {
        self.frame.cells().load(self.bytes, n)
    }

    #[inline(always)]
    #[tactic(auto, using(crate::proofs::Parts::thread_loaded))]
    pub fn thread(self, n: u32) -> Thread
        ensures { result ≡ thread_in self.entry.frame self.entry.bytes.now n }
    {
        self.frame.threads().load(self.bytes, n)
    }

    #[inline(always)]
    pub fn depth(self) -> u32
        ensures { result ≡ word self.entry.bytes.now self.entry.frame.depth }
    {
        load_word(self.bytes, self.frame.depth)
    }

    #[inline(always)]
    pub fn free(self) -> u32
        ensures { result ≡ word self.entry.bytes.now self.entry.frame.free }
    {
        load_word(self.bytes, self.frame.free)
    }
}
