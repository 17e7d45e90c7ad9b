// Text written into a lent buffer, one piece behind the other.
ghost use Rattle.std.specs.Prelude.{◌≤◌, length};

#[derive(Drop)]
pub struct Text<'a> {
    pub out: &'a mut [u8],
    // how many bytes are written
    pub len: usize,
    ghost within: { len ≤ length out.now },
}

impl<'a> Text<'a> {
    ghost use Rattle.std.specs.Prelude.{◌≡◌, ◌+◌, ◌≤◌, length};
    ghost use Rattle.script.specs.Inner.{Appends};
    ghost use Rattle.script.specs.Printing.{number_text};
    ghost use Rattle.script.specs.Text.{decimal};

    // Text behind the bytes of the buffer up to a position.
    pub fn behind(out: &'a mut [u8], len: usize) -> Text<'a>
        requires { len ≤ length out.old }
        ensures same_reference { result.out.ghost_name ≡ out.entry.ghost_name }
        ensures bytes { result.out.now ≡ out.old }
        ensures len { result.len ≡ len }
    {
        Text { out, len }
    }

    // Writes bytes that there is room for.
    #[inline]
    #[tactic(auto, using(crate::proofs::Texts::wrote_text))]
    pub fn push(&mut self, bytes: &[u8])
        requires { self.old.len + length bytes.now ≤ length self.old.out.now }
        ensures { Appends self.old self.new bytes.now }
    {
        let out = &mut *self.out;
        let end = self.len + bytes.len();
        out[self.len..end].copy_from_slice(bytes);
        self.len = end;
    }

    // Writes a number's digits.
    #[tactic(auto, using(crate::proofs::Decimals::digits_written))]
    fn digits(&mut self, n: u32)
        requires { self.old.len + length (decimal n) ≤ length self.old.out.now }
        ensures { Appends self.old self.new (decimal n) }
    {
        if n < 10 {
            return self.push(&[b'0' + n as u8]);
        }
        self.digits(n / 10);
        self.push(&[b'0' + (n % 10) as u8]);
    }

    // Writes a number and the byte behind it.
    #[tactic(auto, using(crate::proofs::Decimals::number_written))]
    pub fn number(&mut self, n: u32, end: u8)
        requires { self.old.len + 11 ≤ length self.old.out.now }
        ensures { Appends self.old self.new (number_text n end) }
    {
        self.digits(n);
        self.push(&[end]);
    }
}
