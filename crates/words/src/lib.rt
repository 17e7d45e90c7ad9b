// Little-endian 32-bit words in a lent byte slice, one or several in a row. Offsets count words.
#![tactic(auto)]

ghost use Rattle.std.specs.Prelude.{◌≡◌, ◌+◌, ◌*◌, ◌≤◌, length};
ghost use Rattle.words.specs.Word.{word, set_word, words_at, set_words};

#[inline(always)]
#[tactic(auto, unfolding(crate::specs::Word::word))]
pub fn load_word(b: &[u8], k: usize) -> u32
    requires { 4 * k + 4 ≤ length b.now }
    ensures { result ≡ word b.now k }
{
    let at = 4 * k;
    u32::from_le_bytes([b[at], b[at + 1], b[at + 2], b[at + 3]])
}

#[inline(always)]
#[tactic(auto, unfolding(crate::specs::Word::set_word))]
pub fn store_word(b: &mut [u8], k: usize, v: u32)
    requires { 4 * k + 4 ≤ length b.old }
    ensures { b.new ≡ set_word b.old k v }
{
    let at = 4 * k;
    let [first, second, third, fourth] = v.to_le_bytes();
    b[at] = first;
    b[at + 1] = second;
    b[at + 2] = third;
    b[at + 3] = fourth;
}

// Fills out with the words from word `at` on.
#[inline(always)]
#[tactic(auto, using(crate::proofs::Loops::words_at_more, std::proofs::lemmas::List::take_more_set))]
pub fn load_words(b: &[u8], at: usize, out: &mut [u32])
    requires { 4 * (at + length out.old) ≤ length b.now }
    ensures { out.new ≡ words_at b.now at (length out.old) }
{
    for (i, word) in out.iter_mut().enumerate() {
        *word = load_word(b, at + i);
    }
}

// Stores vs as the words from word `at` on.
#[inline(always)]
pub fn store_words(b: &mut [u8], at: usize, vs: &[u32])
    requires { 4 * (at + length vs.now) ≤ length b.old }
    ensures { b.new ≡ set_words b.old at vs.now }
{
    for (i, v) in vs.iter().enumerate() {
        store_word(b, at + i, *v);
    }
}
