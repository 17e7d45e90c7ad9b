// What a turn answers, and the numbers that stand for it.
ghost use Rattle.std.specs.Prelude.{◌≡◌};
ghost use Rattle.region.specs.Answer.{answer_code, answer_key, answer_tag};

use crate::record::Item;
use crate::refusal::Refusal;

// What came of a turn: its access was made and the operation goes on, the thread is idle, or the operation ended or was refused.
#[derive(Clone, Copy, PartialEq, Eq, Debug)]
pub enum Answer {
    Moved,
    Idle,
    Inserted,
    Took(Item),
    Empty,
    Refused(Refusal),
    Withdrawn,
}

impl Answer {
    // stays: a variant with a field has no discriminant to cast, and the words of an answer are these numbers (`answer_words`).
    pub fn code(self) -> u32
        ensures { result ≡ answer_code self }
    {
        match self {
            Answer::Moved => 0,
            Answer::Idle => 1,
            Answer::Inserted => 2,
            Answer::Took(_) => 3,
            Answer::Empty => 4,
            Answer::Refused(_) => 5,
            Answer::Withdrawn => 6,
        }
    }

    pub fn key(self) -> u32
        ensures { result ≡ answer_key self }
    {
        match self {
            Answer::Took(i) => i.key,
            Answer::Refused(refusal) => refusal.into(),
            _ => 0,
        }
    }

    pub fn tag(self) -> u32
        ensures { result ≡ answer_tag self }
    {
        match self {
            Answer::Took(i) => i.tag,
            _ => 0,
        }
    }
}
