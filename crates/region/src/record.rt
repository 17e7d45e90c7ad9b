// A record is a value that is a few words of the region, in a row: an item, a node, a cell, a node copy.
ghost use Rattle.std.specs.Prelude.{◌≡◌, ℕ, ◌+◌, ◌*◌, ◌≤◌, List, [], ◌∷◌, length, get_or};
ghost use Rattle.std.proofs.Common.{rules};
ghost use Rattle.words.specs.Word.{words_at, set_words};
ghost use Rattle.region.specs.Record.{counter_size, node_size, cell_size, copy_size, node_of, node_words, empty_node, cell_of, cell_words, zero_cell, copy_of, copy_words, zero_copy, is_item};

use words::{load_word, load_words, store_word, store_words};

pub trait Record: Copy + Default {
    // How many words it has.
    const WORDS: usize;

    ghost WORDS: { ℕ };

    // The record of these words, and the words of a record.
    ghost of_words: { List ℕ → Self };

    ghost to_words: { Self → List ℕ };

    // What a number out of range reads as: the default.
    ghost none: { Self };

    // The record at word `at`.
    fn load(b: &[u8], at: usize) -> Self
        requires { 4 * (at + WORDS) ≤ length b.now }
        ensures { result ≡ of_words (words_at b.now at WORDS) };

    fn store(self, b: &mut [u8], at: usize)
        requires { 4 * (at + WORDS) ≤ length b.old }
        ensures { b.new ≡ set_words b.old at (to_words self) };

    ghost length_words: { (r : Self) → length (to_words r) ≡ WORDS };

    ghost words_back: { (r : Self) → of_words (to_words r) ≡ r };

    ghost default_is_none: { (r : Self) → Self.is_default r → r ≡ none };
}

// The words of a node and of a cell.
pub const NODE_SIZE: usize = Node::WORDS;

pub const CELL_SIZE: usize = Cell::WORDS;

// The words of a counter.
pub const COUNTER_SIZE: usize = 2;

// A key with a tag.
#[derive(Clone, Copy, PartialEq, Eq, Default, Debug)]
pub struct Item {
    pub key: u32,
    pub tag: u32,
}

// A node of the tree: the first cell of its list (0 for none), dirty (0 or 1), and the counter of its updates, in two words.
#[derive(Clone, Copy, PartialEq, Eq, Default, Debug)]
pub struct Node {
    pub first: u32,
    pub dirty: u32,
    pub low: u32,
    pub high: u32,
}

// A cell of a list: its item, and the next cell (0 ends the list).
#[derive(Clone, Copy, PartialEq, Eq, Default, Debug)]
pub struct Cell {
    pub item: Item,
    pub next: u32,
}

// What a READ of a node copies: the node, and its head cell (zero if the list is empty).
#[derive(Clone, Copy, PartialEq, Eq, Default, Debug)]
pub struct NodeCopy {
    pub node: Node,
    pub head: Cell,
}

const GREATEST_KEY: u32 = u32::MAX - 1;

const GREATEST_TAG: u32 = 65535;

// Whether key and tag are in range.
#[tactic(auto, unfolding(crate::specs::Record::is_item))]
pub fn is_item(i: Item) -> bool
    ensures { result ≡ is_item i }
{
    i.key <= GREATEST_KEY && i.tag <= GREATEST_TAG
}

impl Record for Node {
    const WORDS: usize = 4;

    ghost WORDS = { node_size counter_size };

    ghost of_words = { λ ws. node_of counter_size ws 0 };

    ghost to_words = { node_words counter_size };

    ghost none = { empty_node };

    ghost length_words = { λ r. Prim.search rules };

    ghost words_back = { λ r. Prim.search rules };

    ghost default_is_none = { λ r d. Prim.search rules };

    #[inline(always)]
    fn load(b: &[u8], at: usize) -> Node {
        let mut a = [0u32; 4];
        load_words(b, at, &mut a);
        Node {
            first: a[0],
            dirty: a[1],
            low: a[2],
            high: a[3],
        }
    }

    #[inline(always)]
    fn store(self, b: &mut [u8], at: usize) {
        store_words(b, at, &[self.first, self.dirty, self.low, self.high]);
    }
}

impl Record for Cell {
    const WORDS: usize = 3;

    ghost WORDS = { cell_size };

    ghost of_words = { λ ws. cell_of ws 0 };

    ghost to_words = { cell_words };

    ghost none = { zero_cell };

    ghost length_words = { λ r. Prim.search rules };

    ghost words_back = { λ r. Prim.search rules };

    ghost default_is_none = { λ r d. Prim.search rules };

    #[inline(always)]
    fn load(b: &[u8], at: usize) -> Cell {
        let mut a = [0u32; 3];
        load_words(b, at, &mut a);
        Cell {
            item: Item {
                key: a[0],
                tag: a[1],
            },
            next: a[2],
        }
    }

    #[inline(always)]
    fn store(self, b: &mut [u8], at: usize) {
        store_words(b, at, &[self.item.key, self.item.tag, self.next]);
    }
}

impl Record for NodeCopy {
    const WORDS: usize = Node::WORDS + Cell::WORDS;

    ghost WORDS = { copy_size counter_size };

    ghost of_words = { λ ws. copy_of counter_size ws 0 };

    ghost to_words = { copy_words counter_size };

    ghost none = { zero_copy };

    ghost length_words = { λ r. Prim.search rules };

    ghost words_back = { λ r. Prim.search rules };

    ghost default_is_none = { λ r d. Prim.search rules };

    #[inline(always)]
    fn load(b: &[u8], at: usize) -> NodeCopy {
        NodeCopy {
            node: Node::load(b, at),
            head: Cell::load(b, at + Node::WORDS),
        }
    }

    #[inline(always)]
    fn store(self, b: &mut [u8], at: usize) {
        self.node.store(b, at);
        self.head.store(b, at + Node::WORDS);
    }
}

// One word is a record too: a thread's permission is the first word of its record.
impl Record for u32 {
    const WORDS: usize = 1;

    ghost WORDS = { 1 };

    ghost of_words = { λ ws. get_or ws 0 0 };

    ghost to_words = { λ v. v ∷ [] };

    ghost none = { 0 };

    ghost length_words = { λ r. Prim.search rules };

    ghost words_back = { λ r. Prim.search rules };

    ghost default_is_none = { λ r d. Prim.search rules };

    #[inline(always)]
    fn load(b: &[u8], at: usize) -> u32 {
        load_word(b, at)
    }

    #[inline(always)]
    fn store(self, b: &mut [u8], at: usize) {
        store_word(b, at, self);
    }
}
