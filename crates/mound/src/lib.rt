// The calls of the queue, on numbers and byte slices; `mound_c` exports them for a host in another language. 0 is done
// or yes, any other answer is the refusal's number; a run answers its counts beside it, a cut its length. No call requires anything of
// its caller; what it cannot do it refuses.
#![tactic(auto)]

ghost use Rattle.std.specs.Prelude.{◌≡◌};
ghost use Rattle.region.specs.declared.place.Place.TheVariants.{ReadRoot, ListReadRoot};
ghost use Rattle.region.specs.Refusal.{code_of};
ghost use Rattle.run.specs.Inner.{counts_of};
ghost use Rattle.cut.specs.Promises.{written_of};
ghost use Rattle.layout.specs.Layout.{LaidOut};
ghost use Rattle.readable.specs.Readable.{check_answer};
ghost use Rattle.begin.specs.Begin.{PutBegun, TakeBegun};
ghost use Rattle.permission.specs.Permit.{PermitSet};
ghost use Rattle.convert.specs.Convert.{Converted};
ghost use Rattle.records.specs.Accepts.{records_answer};
ghost use Rattle.mound.specs.Calls.{CutDone, RunDone, item_given, packed, packed_cut, shape_given};
ghost use Rattle.mound.specs.Inner.{CutPackable, Packable};

use region::{Item, Refusal, Shape, code_of};
use run::Counts;

// Lays out a region: D, C, T, H, and a permission for each thread. Refusals 1, 2.
pub fn mound_layout(
    region: &mut [u8],
    depth: u32,
    cells: u32,
    threads: u32,
    threshold: u32,
    permissions: &[u8],
) -> u32
    ensures { LaidOut (shape_given depth cells threads threshold) permissions.now region.old region.new result }
{
    let shape = Shape {
        depth,
        cells,
        threads,
        threshold,
    };
    code_of(layout::lay_out(region, shape, permissions))
}

// Begins a put of an item, a key with a tag, by a thread: 0 if begun. Refusals 7, 3, 4, 8, 9, 10.
pub fn mound_put(region: &mut [u8], thread: u32, key: u32, tag: u32) -> u32
    ensures { PutBegun region.old region.new thread (item_given key tag) result }
{
    code_of(begin::begin_put(region, thread, Item { key, tag }))
}

// Begins a take of the least item by a thread: 0 if begun. Refusals 7, 3, 8, 9.
pub fn mound_take(region: &mut [u8], thread: u32) -> u32
    ensures { TakeBegun region.old region.new thread ReadRoot result }
{
    code_of(begin::begin_take(region, thread))
}

// Begins a take of all items at the root by a thread: 0 if begun. Its turns hand them out one by one, the least first. Refusals
// 7, 3, 8, 9.
pub fn mound_list(region: &mut [u8], thread: u32) -> u32
    ensures { TakeBegun region.old region.new thread ListReadRoot result }
{
    code_of(begin::begin_list(region, thread))
}

// Sets a thread's permission (bit 0 put, bit 1 take), be the thread busy or idle: 0 if set. Refusals 7, 3, 1.
pub fn mound_permit(region: &mut [u8], thread: u32, permission: u32) -> u32
    ensures { PermitSet region.old region.new thread permission result }
{
    code_of(permission::permit(region, thread, permission))
}

// A run's refusal, or its turns and accesses, in one number.
fn pack(answer: Result<Counts, Refusal>) -> u64
    requires { Packable (code_of answer) (counts_of answer).turns (counts_of answer).accesses }
    ensures { result ≡ packed (code_of answer) (counts_of answer).turns (counts_of answer).accesses }
{
    match answer {
        Ok(counts) => 65536 * (counts.turns as u64) + 4294967296 * (counts.accesses as u64),
        Err(refusal) => u32::from(refusal) as u64,
    }
}

// Runs a schedule, turns of two words (thread, choice), up to a limit on accesses; each served turn's answer is three words
// (code, key, tag) of answers. Bits 0 to 15 are the refusal or 0, bits 16 to 31 the turns served, bits 32 to 63 the accesses
// made. Refusals 7, 6, 5.
pub fn mound_run(region: &mut [u8], schedule: &[u8], limit: u32, answers: &mut [u8]) -> u64
    ensures { RunDone region.old region.new schedule.now limit answers.old answers.new result }
{
    pack(run::run(region, schedule, limit, answers))
}

// Whether the region is readable: 0 for yes, else 7.
pub fn mound_check(region: &[u8]) -> u32
    ensures { result ≡ check_answer region.now }
{
    readable::check_region(region)
}

// Carries a region of the form before request 7, whose counters have one word, over to a slice for the present form: 0 if done. Refusals 7 for the
// old region, 2 for the new slice.
pub fn mound_convert(old: &[u8], new: &mut [u8]) -> u32
    ensures { Converted old.now new.old new.new result }
{
    code_of(convert::convert(old, new))
}

// Whether the records of a native build are accepted, seven words for each operation (kind, thread, begin, answer, position,
// key, tag): 0 for yes, 255 for no. Refusal 12.
#[tactic(auto, unfolding(records::specs::Accepts::records_answer, region::specs::Pick::pick))]
pub fn mound_records(records: &[u8]) -> u32
    ensures { result ≡ records_answer records.now }
{
    match records::check_records(records) {
        Ok(true) => 0,
        Ok(false) => 255,
        Err(refusal) => refusal.into(),
    }
}

// A cut's refusal, or its length, in one number.
fn pack_cut(answer: Result<usize, Refusal>) -> u64
    requires { CutPackable (code_of answer) (written_of answer) }
    ensures { result ≡ packed_cut (code_of answer) (written_of answer) }
{
    match answer {
        Ok(length) => 4294967296 * (length as u64),
        Err(refusal) => u32::from(refusal) as u64,
    }
}

// Cuts a script down to lines each of which is needed for its output to show a refusal with this number, and leaves what remains of the script
// at the start of out. Bits 0 to 31 are the refusal or 0, bits 32 to 63 how many bytes it has. Refusals 2, 16.
pub fn mound_cut(script: &[u8], number: u32, out: &mut [u8]) -> u64
    ensures { CutDone script.now number out.old out.new result }
{
    pack_cut(cut::cut_script(script, number, out))
}
