// Reading the script: its opening (both headings and the shape between them), and one line at a position.
ghost use Rattle.std.specs.Prelude.{◌≡◌};
ghost use Rattle.script.specs.Reading.{opening_at, read_line, read_opening};

use crate::reader::Reader;
use region::{Item, Shape};

// The most bytes of a script.
pub const SCRIPT_MOST: usize = 60000;

// The fields behind a line's first word.
#[derive(Clone, Copy)]
pub struct Fields {
    pub thread: u32,
    pub a: u32,
    pub b: u32,
    // the position after the line
    pub next: usize,
}

// The call that a line makes: a put of its item, a take of one item or of the root's list, the thread's permission, a turn with
// its choice.
#[derive(Clone, Copy)]
pub enum What {
    Put(Item),
    Take,
    TakeList,
    Permit(u32),
    Turn(u32),
}

#[derive(Clone, Copy)]
pub struct ScriptLine {
    pub what: What,
    pub thread: u32,
    // the position after the line
    pub next: usize,
}

// What the script's opening says: the shape, the permission of every thread, and where the lines start.
#[derive(Clone, Copy)]
pub struct Setup {
    pub shape: Shape,
    pub permission: u32,
    pub next: usize,
}

impl Fields {
    ghost use Rattle.std.specs.Prelude.{◌≡◌, Some};
    ghost use Rattle.script.specs.Reading.{line_if_zero, line_of, take_line};

    // The line that makes this call.
    fn line(self, what: What) -> ScriptLine
        ensures { result ≡ line_of what self }
    {
        ScriptLine {
            what,
            thread: self.thread,
            next: self.next,
        }
    }

    // The same, where b has to be 0.
    #[tactic(auto, unfolding(region::specs::Pick::pick))]
    fn line_without_b(self, what: What) -> Option<ScriptLine>
        ensures { result ≡ line_if_zero self.b (line_of what self) }
    {
        if self.b != 0 {
            return None;
        }
        Some(self.line(what))
    }

    // The same, where a and b have to be 0.
    #[tactic(auto, unfolding(region::specs::Pick::pick))]
    fn line_without_a_b(self, what: What) -> Option<ScriptLine>
        ensures { result ≡ take_line what (Some self) }
    {
        if self.a != 0 {
            return None;
        }
        self.line_without_b(what)
    }
}

impl Reader<'_> {
    ghost use Rattle.std.specs.Prelude.{◌≡◌};
    ghost use Rattle.script.specs.Reading.{fields_at, opening_at, read_line, shape_at};

    // Three fields: a space ends each of the first two, the line's end the last.
    #[tactic(auto, unfolding(crate::specs::Reading::fields_at))]
    fn fields(mut self) -> Option<Fields>
        ensures { result ≡ fields_at self.entry.src.now self.entry.at }
    {
        let thread = self.number(b' ')?;
        let a = self.number(b' ')?;
        let b = self.number(b'\n')?;
        Some(Fields {
            thread,
            a,
            b,
            next: self.at,
        })
    }

    // A line: its first word, and what its fields mean.
    #[tactic(auto, unfolding(crate::specs::Reading::read_line, region::specs::Pick::pick))]
    fn line(mut self) -> Option<ScriptLine>
        ensures { result ≡ read_line self.entry.src.now self.entry.at }
    {
        if self.eat(b"put ") {
            let fields = self.fields()?;
            let item = Item {
                key: fields.a,
                tag: fields.b,
            };
            return Some(fields.line(What::Put(item)));
        }
        if self.eat(b"take ") {
            return self.fields()?.line_without_a_b(What::Take);
        }
        if self.eat(b"list ") {
            return self.fields()?.line_without_a_b(What::TakeList);
        }
        if self.eat(b"permit ") {
            let fields = self.fields()?;
            return fields.line_without_b(What::Permit(fields.a));
        }
        if self.eat(b"turn ") {
            let fields = self.fields()?;
            return fields.line_without_b(What::Turn(fields.a));
        }
        None
    }

    // The line of five numbers.
    #[tactic(auto, unfolding(crate::specs::Reading::shape_at))]
    fn shape(mut self) -> Option<Setup>
        ensures { result ≡ shape_at self.entry.src.now self.entry.at }
    {
        let depth = self.number(b' ')?;
        let cells = self.number(b' ')?;
        let threads = self.number(b' ')?;
        let threshold = self.number(b' ')?;
        let permission = self.number(b'\n')?;
        let shape = Shape {
            depth,
            cells,
            threads,
            threshold,
        };
        Some(Setup {
            shape,
            permission,
            next: self.at,
        })
    }

    // Both headings and the shape between them.
    #[tactic(auto, unfolding(crate::specs::Reading::opening_at, region::specs::Pick::pick))]
    fn opening(mut self) -> Option<Setup>
        ensures { result ≡ opening_at self.entry.src.now self.entry.at }
    {
        if !self.eat(b"depth cells threads threshold permission\n") {
            return None;
        }
        let setup = self.shape()?;
        self.at = setup.next;
        if !self.eat(b"what thread a b\n") {
            return None;
        }
        Some(Setup {
            next: self.at,
            ..setup
        })
    }
}

// The line that starts at a position.
pub fn line_at(s: &[u8], at: usize) -> Option<ScriptLine>
    ensures { result ≡ read_line s.now at }
{
    Reader::new(s, at).line()
}

// The opening that starts at a position.
pub fn opening_at(s: &[u8], at: usize) -> Option<Setup>
    ensures { result ≡ opening_at s.now at }
{
    Reader::new(s, at).opening()
}

// The opening of a script that is not too long.
#[tactic(auto, unfolding(crate::specs::Reading::read_opening, region::specs::Pick::pick))]
pub fn read_opening(s: &[u8]) -> Option<Setup>
    ensures { result ≡ read_opening s.now }
{
    if SCRIPT_MOST < s.len() {
        return None;
    }
    opening_at(s, 0)
}
