// What a turn does to shared memory, as a value, and the functions that carry it out on the lent bytes.
ghost use Rattle.std.specs.Prelude.{◌≡◌, length};
ghost use Rattle.region.specs.Held.{Holds};
ghost use Rattle.access.specs.Effect.{effect_bytes, freed_bytes, push_bytes};

use region::{Cell, Item, Node, Queue};

// Each node value is complete: its counter was counted up where refusal 11 was tested.
#[derive(Clone, Copy)]
pub enum Effect {
    Nothing,
    // the present depth grows to this
    Grow(u32),
    // a cell becomes the head of a node's list; next is the head until now
    Push {
        node: u32,
        value: Node,
        cell: u32,
        next: u32,
    },
    // the root's head leaves its list, and its cell is freed
    Pop {
        value: Node,
        cell: u32,
    },
    // a node and its child exchange lists
    Exchange {
        node: u32,
        value: Node,
        child: u32,
        below: Node,
    },
    // a node becomes clean
    Clean {
        node: u32,
        value: Node,
    },
    // the root's list leaves it
    Detach(Node),
    // a cell is freed
    Free(u32),
}

// Frees a cell: its key and tag become 0, and it becomes the first of the chain.
#[tactic(auto, unfolding(crate::specs::Effect::freed_bytes))]
#[inline(always)]
fn free_cell(queue: &mut Queue, cell: u32)
    ensures { Holds queue.old queue.new (freed_bytes queue.old.frame queue.old.bytes.now cell) }
{
    let next = queue.free();
    let item = Item { key: 0, tag: 0 };
    queue.set_cell(cell, Cell { item, next });
    queue.set_free(cell);
}

// Makes a cell the head of a node's list.
#[tactic(auto, unfolding(crate::specs::Effect::push_bytes))]
#[inline(always)]
fn push(queue: &mut Queue, node: u32, value: Node, cell: u32, next: u32)
    ensures { Holds queue.old queue.new (push_bytes queue.old.frame queue.old.bytes.now node value cell next) }
{
    let held = queue.cell(cell);
    queue.set_node(node, value);
    queue.set_cell(cell, Cell { next, ..held });
}

impl Effect {
    // Carries out what a place decided. PLACE is its number, there for speed alone: code of its own for each place has no arm that the place never
    // decides.
    #[tactic(auto, unfolding(crate::specs::Effect::effect_bytes))]
    #[inline(always)]
    pub fn carry_out<const PLACE: u32>(self, queue: &mut Queue)
        ensures { Holds queue.old queue.new (effect_bytes queue.old.frame queue.old.bytes.now self) }
    {
        match self {
            Effect::Nothing => {}
            Effect::Grow(depth) => queue.set_depth(depth),
            Effect::Push {
                node,
                value,
                cell,
                next,
            } => push(queue, node, value, cell, next),
            Effect::Pop { value, cell } => {
                queue.set_node(1, value);
                free_cell(queue, cell);
            }
            Effect::Exchange {
                node,
                value,
                child,
                below,
            } => {
                queue.set_node(node, value);
                queue.set_node(child, below);
            }
            Effect::Clean { node, value } => queue.set_node(node, value),
            Effect::Detach(value) => queue.set_node(1, value),
            Effect::Free(cell) => free_cell(queue, cell),
        }
    }
}
