// A row's figures, one after the other: accesses of the six kinds by their numbers, failed updates, operations answered. What a turn
// adds to them.
ghost use Rattle.std.specs.Prelude.{◌≡◌};
ghost use Rattle.figures.specs.Inner.{Most, access_column, added, answer_column, counted, failed_column, took_column};

use access::Plan;
use region::{Answer, Place, Thread};

// The figures of a row.
pub const COLUMNS: usize = 11;

pub type Figures = [u32; COLUMNS];

// The columns behind the kinds of access. A turn that counts nowhere has the column after the last.
pub const FAILED: usize = 6;

pub const PUT: usize = 7;

const TAKE: usize = 8;

const LIST: usize = 9;

const EMPTY: usize = 10;

// The column of a turn's access.
#[tactic(auto, unfolding(crate::specs::Inner::access_column, region::specs::Pick::pick))]
fn access_column(place: Place, plan: Plan) -> usize
    ensures { result ≡ access_column place plan }
{
    let answer = plan.answer;
    if !kinds::makes_access(answer) {
        return COLUMNS;
    }
    // the six kinds are the columns before the failed updates; idle has none of them
    let kind = kinds::access_kind(place);
    if kind < FAILED {
        return kind;
    }
    COLUMNS
}

// The column of an update that failed.
#[tactic(auto, unfolding(crate::specs::Inner::failed_column, region::specs::Pick::pick))]
fn failed_column(place: Place, plan: Plan) -> usize
    ensures { result ≡ failed_column place plan }
{
    if kinds::has_failed(place, plan) {
        return FAILED;
    }
    COLUMNS
}

// The column of an answer took, t being the thread's record afterwards. A list is answered with its last item.
#[tactic(auto, unfolding(crate::specs::Inner::took_column, region::specs::Pick::pick))]
fn took_column(place: Place, t: Thread) -> usize
    ensures { result ≡ took_column place t }
{
    let Place::HandOut = place else {
        return TAKE;
    };
    if t.is_idle() {
        return LIST;
    }
    COLUMNS
}

// The column of an operation that is answered.
#[tactic(auto, unfolding(crate::specs::Inner::answer_column))]
fn answer_column(place: Place, plan: Plan) -> usize
    ensures { result ≡ answer_column place plan }
{
    let thread = plan.thread;
    let answer = plan.answer;
    match answer {
        Answer::Moved => COLUMNS,
        Answer::Idle => COLUMNS,
        Answer::Inserted => PUT,
        Answer::Took(_) => took_column(place, thread),
        Answer::Empty => EMPTY,
        Answer::Refused(_) => COLUMNS,
        Answer::Withdrawn => COLUMNS,
    }
}

// Adds one in a column of a row, if there is such a column.
#[tactic(auto, using(crate::proofs::TurnColumns::one_fits), unfolding(crate::specs::Inner::added, region::specs::Pick::pick))]
fn add_one(figures: &mut Figures, column: usize)
    requires { Most 4294967294 figures.old }
    ensures { figures.new ≡ added figures.old column }
{
    if column < COLUMNS {
        figures[column] += 1;
    }
}

// Adds a turn to a row.
pub fn add_turn(figures: &mut Figures, place: Place, plan: Plan)
    requires { Most 4294967292 figures.old }
    ensures { figures.new ≡ counted figures.old place plan }
{
    add_one(figures, access_column(place, plan));
    add_one(figures, failed_column(place, plan));
    add_one(figures, answer_column(place, plan));
}
