// What the places share: the order of items, READ, comparison and counter, and the effects and plans that turns decide.
#![tactic(auto)]

mod effect;
mod order;
mod plan;
mod read;

pub use effect::Effect;
pub use order::{item_le, item_lt, value_of};
pub use plan::{Plan, accesses_of, moved, on_to, plan_of, refused};
pub use read::{is_dirty, is_level, is_node, is_spent, read_node, same_node, updated_node};
