// The kinds of operations, and the numbers that stand for them in a record.
ghost use Rattle.records.specs.Kind.{Decodes};

// What an operation is: a put, a take of an item, or a take that finds none.
#[derive(Clone, Copy, PartialEq, Eq)]
pub enum Kind {
    Put,
    Take,
    Empty,
}

// The number is no kind's.
#[derive(Clone, Copy, PartialEq, Eq)]
pub struct NoKind;

impl TryFrom<u32> for Kind {
    type Error = NoKind;

    ghost try_from_gives = { Decodes };

    fn try_from(number: u32) -> Result<Kind, NoKind> {
        match number {
            1 => Ok(Kind::Put),
            2 => Ok(Kind::Take),
            3 => Ok(Kind::Empty),
            _ => Err(NoKind),
        }
    }
}
