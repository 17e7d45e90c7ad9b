// Regions as they are before some of the lines, in slots of one size: the last slot has the region at hand, those before it are room for the
// region at later lines. A copy goes from a slot to the one before it.
ghost use Rattle.std.specs.Prelude.{◌≡◌, ◌+◌, ◌≤◌, length};
ghost use Rattle.cut.specs.Inner.{copied_down};

// The bytes of a slot: a region of the largest size, 14,856, rounded up to a multiple of 64, so that all slots lie alike in cache lines.
pub const SLOT: usize = 14912;

pub const TWO_SLOTS: usize = 29824;

// Fourteen slots: one at the first line, and one for each time that 6,000 lines can be halved.
pub const STATES_ROOM: usize = 208768;

// Copies the region of the second of two slots, which has size bytes, to the first.
#[tactic(auto, unfolding(crate::specs::Inner::copied_down))]
pub fn copy_down(slots: &mut [u8], size: usize)
    requires { 14912 + size ≤ length slots.old }
    ensures { slots.new ≡ copied_down slots.old size }
{
    slots.copy_within(SLOT..SLOT + size, 0);
}
