// The report's work: the bytes of many scripts in, the report's bytes out. `write_report` is all that a caller needs.
#![tactic(auto)]

mod columns;
mod counting;
mod report;
mod rows;
mod scripts;

pub use report::{REPORT_ROOM, write_report};
pub use scripts::INPUT_MOST;
