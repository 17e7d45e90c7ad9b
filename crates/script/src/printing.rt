// A line of the output: the script line's number, its thread, and what came of it.
ghost use Rattle.std.specs.Prelude.{◌≡◌, ◌+◌, ◌≤◌, length};
ghost use Rattle.script.specs.Inner.{Appends, Wrote};
ghost use Rattle.script.specs.Printing.{answer_word, line_text, outcome_key, outcome_tag, outcome_word, number_text};

use crate::text::Text;
use region::Answer;

// What came of a script line.
#[derive(Clone, Copy)]
pub enum Outcome {
    Begun,
    Set,
    Answered(Answer),
    Unreadable,
}

impl Outcome {
    // The word of an outcome, and a space.
    fn word(self) -> &'static [u8]
        ensures { result.now ≡ outcome_word self }
    {
        match self {
            Outcome::Begun => b"begun ",
            Outcome::Set => b"set ",
            Outcome::Answered(a) => answer_word(a),
            Outcome::Unreadable => b"unreadable ",
        }
    }

    fn key(self) -> u32
        ensures { result ≡ outcome_key self }
    {
        match self {
            Outcome::Answered(a) => a.key(),
            Outcome::Begun | Outcome::Set | Outcome::Unreadable => 0,
        }
    }

    // stays: key and tag read a field each; with a function that both call they would be no shorter.
    fn tag(self) -> u32
        ensures { result ≡ outcome_tag self }
    {
        match self {
            Outcome::Answered(a) => a.tag(),
            Outcome::Begun | Outcome::Set | Outcome::Unreadable => 0,
        }
    }
}

// The word of a turn's answer, and a space.
fn answer_word(a: Answer) -> &'static [u8]
    ensures { result.now ≡ answer_word a }
{
    match a {
        Answer::Moved => b"moved ",
        Answer::Idle => b"idle ",
        Answer::Inserted => b"inserted ",
        Answer::Took(_) => b"took ",
        Answer::Empty => b"empty ",
        Answer::Refused(_) => b"refused ",
        Answer::Withdrawn => b"withdrawn ",
    }
}

// Writes a line of the output.
pub fn write_line(text: &mut Text, line: u32, thread: u32, o: Outcome)
    requires { text.old.len + 55 ≤ length text.old.out.now }
    ensures { Appends text.old text.new (line_text line thread o) }
{
    text.number(line, b' ');
    text.number(thread, b' ');
    text.push(o.word());
    text.number(o.key(), b' ');
    text.number(o.tag(), b'\n');
}
