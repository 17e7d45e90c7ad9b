// A reader of the script: its bytes, and the position that is read next.
ghost use Rattle.std.specs.Prelude.{◌≡◌};
ghost use Rattle.script.specs.Text.{text_at};
ghost use Rattle.script.specs.Inner.{Ate, NumberRead};

use crate::numbers::number_then;

// Whether the text stands in s at a position.
#[tactic(auto, using(crate::proofs::Texts::stands))]
fn text_at(s: &[u8], at: usize, text: &[u8]) -> bool
    ensures { result ≡ text_at s.now at text.now }
{
    let start = at.min(s.len());
    s[start..].starts_with(text)
}

#[derive(Clone, Copy)]
pub struct Reader<'a> {
    src: &'a [u8],
    pub at: usize,
}

impl<'a> Reader<'a> {
    pub fn new(src: &'a [u8], at: usize) -> Reader<'a>
        ensures { (result.src ≡ src.entry) × (result.at ≡ at) }
    {
        Reader { src, at }
    }

    // Takes the text, if it stands here.
    #[tactic(auto, using(crate::proofs::Texts::text_fits))]
    pub fn eat(&mut self, text: &[u8]) -> bool
        ensures { Ate self.old self.new text.now result }
    {
        if !text_at(self.src, self.at, text) {
            return false;
        }
        self.at += text.len();
        true
    }

    // Takes a number and the byte that ends it, if they stand here.
    pub fn number(&mut self, end: u8) -> Option<u32>
        ensures { NumberRead self.old self.new end result }
    {
        let (value, next) = number_then(self.src, self.at, end)?;
        self.at = next;
        Some(value)
    }
}
