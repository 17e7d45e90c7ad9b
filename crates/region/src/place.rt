// The places at which a thread stands, and their numbers.
ghost use Rattle.std.specs.Prelude.{◌≡◌};
ghost use Rattle.region.specs.Place.{place_of, place_number, waiting_levels};

// A thread stands idle or at one of nineteen places: those of put, take and mending with the label that the published listing gives them, and
// the three of a list. The mending places carry the levels whose nodes wait to be mended: bit j - 1 for level j.
#[derive(Clone, Copy, PartialEq, Eq, Default, Debug)]
pub enum Place {
    #[default]
    Idle,
    // I1 to I8: put
    ReadDepth,
    ReadLeaf,
    ReadAncestor,
    GrowDepth,
    ReadTarget,
    InsertAtRoot,
    ReadParent,
    InsertBelow,
    // E1 and E2: take of one item
    ReadRoot,
    RemoveHead,
    // M1 to M6: mending
    MendReadNode(u32),
    MendReadDepth(u32),
    MendReadLeft(u32),
    MendReadRight(u32),
    MendSwap(u32),
    MendClean(u32),
    // 17 to 19: take of the root's whole list
    ListReadRoot,
    RemoveList,
    HandOut,
}

impl Place {
    // The place with this number; a mending place carries these waiting levels. A number past 19 is idle.
    pub fn of(number: u32, waiting: u32) -> Place
        ensures { result ≡ place_of number waiting }
    {
        match number {
            1 => Place::ReadDepth,
            2 => Place::ReadLeaf,
            3 => Place::ReadAncestor,
            4 => Place::GrowDepth,
            5 => Place::ReadTarget,
            6 => Place::InsertAtRoot,
            7 => Place::ReadParent,
            8 => Place::InsertBelow,
            9 => Place::ReadRoot,
            10 => Place::RemoveHead,
            11 => Place::MendReadNode(waiting),
            12 => Place::MendReadDepth(waiting),
            13 => Place::MendReadLeft(waiting),
            14 => Place::MendReadRight(waiting),
            15 => Place::MendSwap(waiting),
            16 => Place::MendClean(waiting),
            17 => Place::ListReadRoot,
            18 => Place::RemoveList,
            19 => Place::HandOut,
            _ => Place::Idle,
        }
    }

    // stays: word 1 of a thread's record is this number (`thread_words`); a variant with a field has no discriminant to cast.
    pub fn number(self) -> u32
        ensures { result ≡ place_number self }
    {
        match self {
            Place::Idle => 0,
            Place::ReadDepth => 1,
            Place::ReadLeaf => 2,
            Place::ReadAncestor => 3,
            Place::GrowDepth => 4,
            Place::ReadTarget => 5,
            Place::InsertAtRoot => 6,
            Place::ReadParent => 7,
            Place::InsertBelow => 8,
            Place::ReadRoot => 9,
            Place::RemoveHead => 10,
            Place::MendReadNode(_) => 11,
            Place::MendReadDepth(_) => 12,
            Place::MendReadLeft(_) => 13,
            Place::MendReadRight(_) => 14,
            Place::MendSwap(_) => 15,
            Place::MendClean(_) => 16,
            Place::ListReadRoot => 17,
            Place::RemoveList => 18,
            Place::HandOut => 19,
        }
    }

    // The waiting levels; only a mending place has any.
    pub fn waiting(self) -> u32
        ensures { result ≡ waiting_levels self }
    {
        match self {
            Place::MendReadNode(waiting)
            | Place::MendReadDepth(waiting)
            | Place::MendReadLeft(waiting)
            | Place::MendReadRight(waiting)
            | Place::MendSwap(waiting)
            | Place::MendClean(waiting) => waiting,
            _ => 0,
        }
    }
}
