// Checks the records that a native build writes of its operations, in four walks over them: the first refuses what is
// out of range, the second puts them in the order of their positions, the third compares the times and the fourth plays the bag, by position.
#![tactic(auto)]

ghost use Rattle.std.specs.Prelude.{◌≡◌};
ghost use Rattle.records.specs.Accepts.{accepts, records_check};
ghost use Rattle.records.specs.Inner.{WellFormed};
ghost use Rattle.records.specs.Recorded.{recorded_at};

use order::{MOST, Walk};
use region::{Refusal, require};

mod form;
mod kind;
mod order;
mod play;
mod times;

// Whether n records that are in range are accepted. None at all are, with no array set to zero for them.
fn is_accepted(b: &[u8], n: usize) -> bool
    requires { WellFormed b.now n }
    ensures { result ≡ accepts n (recorded_at b.now) }
{
    if n == 0 {
        return true;
    }
    let mut order = [0; MOST];
    if !order::put_in_order(b, n, &mut order) {
        return false;
    }
    let walk = Walk {
        bytes: b,
        count: n,
        order: &order,
    };
    times::are_in_time(&walk) && play::is_played(&walk)
}

// Whether the records are accepted; refused (12) where they are not whole or not in range.
#[tactic(auto, using(crate::proofs::Ranges::formed), unfolding(region::specs::Pick::pick))]
pub fn check_records(b: &[u8]) -> Result<bool, Refusal>
    ensures { result ≡ records_check b.now }
{
    require(form::is_well_formed(b), Refusal::BadRecords)?;
    Ok(is_accepted(b, b.len() / form::RECORD_BYTES))
}
