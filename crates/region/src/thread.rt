// A thread's record by value: loaded from the region, changed by methods that take self and give the new record, and stored again.
ghost use Rattle.std.specs.Prelude.{◌≡◌};
ghost use Rattle.std.proofs.Common.{rules};
ghost use Rattle.region.specs.Laws.{thread_back};
ghost use Rattle.region.specs.Record.{counter_size};
ghost use Rattle.region.specs.Thread.{thread_size, thread_of, thread_words, idle_thread, gone_idle, is_idle, begun_put, mending, at_place, with_item, with_own, with_depth, with_search, with_node, with_after, with_result, with_first, with_second, with_third};

use crate::place::Place;
use crate::record::{Item, NodeCopy, Record};
use words::{load_words, store_words};

// The words of a thread's record before each of its three node copies, and all its words.
const FIRST_COPY: usize = 15;

const SECOND_COPY: usize = FIRST_COPY + NodeCopy::WORDS;

const THIRD_COPY: usize = SECOND_COPY + NodeCopy::WORDS;

pub const THREAD_SIZE: usize = Thread::WORDS;

// What a put's search for its node keeps: the leaf, the tries so far, and the levels between which it looks.
#[derive(Clone, Copy, PartialEq, Eq, Default, Debug)]
pub struct Search {
    pub leaf: u32,
    pub tries: u32,
    pub lo: u32,
    pub hi: u32,
}

// The second copy takes parent and left child, the third the right child, the first every other node read.
#[derive(Clone, Copy, PartialEq, Eq, Default, Debug)]
pub struct Copies {
    pub first: NodeCopy,
    pub second: NodeCopy,
    pub third: NodeCopy,
}

#[derive(Clone, Copy, PartialEq, Eq, Default, Debug)]
pub struct Thread {
    // bit 0 put, bit 1 take
    pub permission: u32,
    pub place: Place,
    // what the put is to insert, and the cell that holds it; of a list, the first cell in hand
    pub item: Item,
    pub own: u32,
    // the tree's depth as last read
    pub depth: u32,
    pub search_state: Search,
    // the node that a put changes or a mending mends
    pub node: u32,
    // where a mending returns to: 0 back to E1, 1 answer, 2 back to 17, 3 on to 19
    // stays: a word of any value, as `thread_of` reads it and `field_words` writes it back; an enum would lose those above 3.
    pub after: u32,
    pub result: Item,
    pub copies: Copies,
}

impl Record for Thread {
    const WORDS: usize = 36;

    ghost WORDS = { thread_size counter_size };

    ghost of_words = { thread_of counter_size };

    ghost to_words = { thread_words counter_size };

    ghost none = { idle_thread 0 };

    ghost length_words = { λ r. Prim.search rules };

    ghost words_back = { thread_back };

    ghost default_is_none = { λ r d. Prim.search rules };

    // Fifteen words, then three node copies.
    #[inline(always)]
    fn load(b: &[u8], at: usize) -> Thread {
        let mut a = [0u32; 15];
        load_words(b, at, &mut a);
        Thread {
            permission: a[0],
            place: Place::of(a[1], a[11]),
            item: Item {
                key: a[2],
                tag: a[3],
            },
            own: a[4],
            depth: a[5],
            search_state: Search {
                leaf: a[6],
                tries: a[7],
                lo: a[8],
                hi: a[9],
            },
            node: a[10],
            after: a[12],
            result: Item {
                key: a[13],
                tag: a[14],
            },
            copies: Copies {
                first: NodeCopy::load(b, at + FIRST_COPY),
                second: NodeCopy::load(b, at + SECOND_COPY),
                third: NodeCopy::load(b, at + THIRD_COPY),
            },
        }
    }

    #[inline(always)]
    fn store(self, b: &mut [u8], at: usize) {
        let a = [
            self.permission,
            self.place.number(),
            self.item.key,
            self.item.tag,
            self.own,
            self.depth,
            self.search_state.leaf,
            self.search_state.tries,
            self.search_state.lo,
            self.search_state.hi,
            self.node,
            self.place.waiting(),
            self.after,
            self.result.key,
            self.result.tag,
        ];
        store_words(b, at, &a);
        self.copies.first.store(b, at + FIRST_COPY);
        self.copies.second.store(b, at + SECOND_COPY);
        self.copies.third.store(b, at + THIRD_COPY);
    }
}

impl Thread {
    // An idle thread with this permission.
    pub fn idle(permission: u32) -> Thread
        ensures { result ≡ idle_thread permission }
    {
        Thread {
            permission,
            ..Thread::default()
        }
    }

    // Going idle zeroes every field but the permission.
    #[tactic(auto, unfolding(crate::specs::Thread::gone_idle))]
    pub fn gone_idle(self) -> Thread
        ensures { result ≡ gone_idle self }
    {
        Thread::idle(self.permission)
    }

    #[tactic(auto, unfolding(crate::specs::Thread::is_idle))]
    pub fn is_idle(self) -> bool
        ensures { result ≡ is_idle self }
    {
        matches!(self.place, Place::Idle)
    }

    // A put of item begins, with this cell of its own.
    #[tactic(auto, unfolding(crate::specs::Thread::begun_put))]
    pub fn begun_put(self, item: Item, own: u32) -> Thread
        ensures { result ≡ begun_put self item own }
    {
        Thread {
            place: Place::ReadDepth,
            item,
            own,
            ..self
        }
    }

    // The mending of this node begins, with these levels waiting.
    #[tactic(auto, unfolding(crate::specs::Thread::mending))]
    pub fn mending(self, node: u32, waiting: u32) -> Thread
        ensures { result ≡ mending self node waiting }
    {
        Thread {
            place: Place::MendReadNode(waiting),
            node,
            ..self
        }
    }

    // The record with another value in one field.
    // stays: each is the record of that name in specs/Thread.antt, by which plans are defined; an update in place would leave the old record.
    #[tactic(auto, unfolding(crate::specs::Thread::at_place))]
    pub fn at_place(self, place: Place) -> Thread
        ensures { result ≡ at_place self place }
    {
        Thread { place, ..self }
    }

    #[tactic(auto, unfolding(crate::specs::Thread::with_item))]
    pub fn with_item(self, item: Item) -> Thread
        ensures { result ≡ with_item self item }
    {
        Thread { item, ..self }
    }

    #[tactic(auto, unfolding(crate::specs::Thread::with_own))]
    pub fn with_own(self, own: u32) -> Thread
        ensures { result ≡ with_own self own }
    {
        Thread { own, ..self }
    }

    #[tactic(auto, unfolding(crate::specs::Thread::with_depth))]
    pub fn with_depth(self, depth: u32) -> Thread
        ensures { result ≡ with_depth self depth }
    {
        Thread { depth, ..self }
    }

    #[tactic(auto, unfolding(crate::specs::Thread::with_search))]
    pub fn with_search(self, search: Search) -> Thread
        ensures { result ≡ with_search self search }
    {
        Thread {
            search_state: search,
            ..self
        }
    }

    #[tactic(auto, unfolding(crate::specs::Thread::with_node))]
    pub fn with_node(self, node: u32) -> Thread
        ensures { result ≡ with_node self node }
    {
        Thread { node, ..self }
    }

    #[tactic(auto, unfolding(crate::specs::Thread::with_after))]
    pub fn with_after(self, after: u32) -> Thread
        ensures { result ≡ with_after self after }
    {
        Thread { after, ..self }
    }

    #[tactic(auto, unfolding(crate::specs::Thread::with_result))]
    pub fn with_result(self, res: Item) -> Thread
        ensures { result ≡ with_result self res }
    {
        Thread {
            result: res,
            ..self
        }
    }

    #[tactic(auto, unfolding(crate::specs::Thread::with_first))]
    pub fn with_first(self, copy: NodeCopy) -> Thread
        ensures { result ≡ with_first self copy }
    {
        let copies = self.copies;
        Thread {
            copies: Copies {
                first: copy,
                ..copies
            },
            ..self
        }
    }

    #[tactic(auto, unfolding(crate::specs::Thread::with_second))]
    pub fn with_second(self, copy: NodeCopy) -> Thread
        ensures { result ≡ with_second self copy }
    {
        let copies = self.copies;
        Thread {
            copies: Copies {
                second: copy,
                ..copies
            },
            ..self
        }
    }

    #[tactic(auto, unfolding(crate::specs::Thread::with_third))]
    pub fn with_third(self, copy: NodeCopy) -> Thread
        ensures { result ≡ with_third self copy }
    {
        let copies = self.copies;
        Thread {
            copies: Copies {
                third: copy,
                ..copies
            },
            ..self
        }
    }
}
