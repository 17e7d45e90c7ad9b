// The times, in one walk by position: an operation is not answered before one of a smaller position begins, and it begins
// after the last one of its thread is answered.
ghost use Rattle.std.specs.Prelude.{◌≡◌};
ghost use Rattle.records.specs.Inner.{InTime, ended};
ghost use Rattle.records.specs.Recorded.{recorded_at};

use crate::order::Walk;

// stays: 0 for none, since no answer is at 0: an `Option` here would be no plainer than this one test.
// Whether a thread whose last operation was answered at `last` (0 for none) may begin another at `begin`.
#[tactic(auto, unfolding(crate::specs::Inner::ended))]
fn has_ended(last: u32, begin: u32) -> bool
    ensures { result ≡ ended last begin }
{
    last == 0 || last < begin
}

// Whether the times agree with the order of the positions and with one operation of a thread at a time.
pub fn are_in_time(walk: &Walk) -> bool
    ensures { InTime walk.now.count (recorded_at walk.now.bytes.now) result }
{
    let mut last = [0u32; 65];
    let mut latest = 0;
    for k in 0..walk.count {
        let r = walk.at(k);
        if r.answer < latest {
            return false;
        }
        let t = r.thread as usize;
        if !has_ended(last[t], r.begin) {
            return false;
        }
        latest = latest.max(r.begin);
        last[t] = r.answer;
    }
    true
}
