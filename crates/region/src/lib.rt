// The region's records (node, cell, node copy, thread) by value, the frame that says where they lie, and the loads and
// stores that carry them between a lent byte slice and values.
#![tactic(auto)]

mod answer;
mod form;
mod frame;
mod level;
mod part;
mod place;
mod queue;
mod record;
mod refusal;
mod shape;
mod theorems;
mod thread;

pub use answer::Answer;
pub use form::{FIELDS, copy_size, node_size, thread_size};
pub use frame::Frame;
pub use level::{ancestor_at, level_of, mark_of};
pub use part::Part;
pub use place::Place;
pub use queue::{Queue, View};
pub use record::{CELL_SIZE, COUNTER_SIZE, Cell, Item, NODE_SIZE, Node, NodeCopy, Record, is_item};
pub use refusal::{NoRefusal, Refusal, code_of, require};
pub use shape::{HEAD_SIZE, Shape, is_between};
pub use theorems::{other_records_stay, stored_is_read_back};
pub use thread::{Copies, Search, THREAD_SIZE, Thread};
