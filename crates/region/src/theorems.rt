// What was stored is read back, and records of other numbers stay: of any kind of record, at any distance that has room for it.
ghost use Rattle.std.specs.Prelude.{◌≡◌, ◌≢◌, ℕ, ◌≤◌, List, length};
ghost use Rattle.words.specs.Inner.{Fit};
ghost use Rattle.region.specs.Inner.{EndsIn};
ghost use Rattle.region.specs.Shared.{record_in, set_record_in};
ghost use Rattle.region.specs.declared.part.Part.{Part};

use crate::record::Record;

pub fn stored_is_read_back<R: Record>()
    ensures { (p : Part) (b : List ℕ) (n : ℕ) (r : R) → R.WORDS ≤ p.stride → EndsIn p (length b) → 1 ≤ n → n ≤ p.count → Fit (R.to_words r)
        → record_in R.of_words R.WORDS R.none p (set_record_in R.to_words p b n r) n ≡ r }
{}

pub fn other_records_stay<R: Record>()
    ensures { (p : Part) (b : List ℕ) (m n : ℕ) (r : R) → R.WORDS ≤ p.stride → m ≢ n
        → record_in R.of_words R.WORDS R.none p (set_record_in R.to_words p b n r) m ≡ record_in R.of_words R.WORDS R.none p b m }
{}
