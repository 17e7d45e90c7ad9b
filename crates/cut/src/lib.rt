// Cutting a script down to lines each of which a refusal needs: `cut_script`, and `print_cut` for the program.
#![tactic(auto)]

mod cutting;
mod lines;
mod passes;
mod program;
mod states;
mod trials;

pub use cutting::cut_script;
pub use program::{CUT_INPUT_MOST, print_cut};
