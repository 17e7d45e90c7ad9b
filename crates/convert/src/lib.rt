// Carries a region of the older form, whose counters have one word, over to the present form, or refuses and changes no byte.
#![tactic(auto)]

mod carry;

pub use carry::convert;
