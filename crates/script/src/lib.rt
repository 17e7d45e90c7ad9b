// The script program's work: a script's bytes in, its output's bytes out: `run_script`. And its parts, for those who read and run scripts in
// another way: the opening, the lines, the layout, a line's call, and numbers and text printed.
#![tactic(auto)]

mod numbers;
mod printing;
mod reader;
mod reading;
mod script;
mod text;

pub use numbers::number_then;
pub use printing::Outcome;
pub use reading::{SCRIPT_MOST, ScriptLine, Setup, What, line_at, opening_at, read_opening};
pub use script::{OUTPUT_ROOM, REGION_ROOM, lay_region, make_call, run_script, setup_check};
pub use text::Text;
