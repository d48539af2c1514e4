// The kinds of events, and the byte that each is known by.
ghost use Rattle.events.specs.Kinds.{Names};

#[derive(Clone, Copy, Debug, PartialEq, Eq)]
pub enum Kind {
    Smp,
    Open,
    Primitive,
    Frame,
    Identify,
    Leaving,
}

// A byte that names no kind.
#[derive(Clone, Copy, Debug, PartialEq, Eq)]
pub struct UnknownKind(pub u8);

impl TryFrom<u8> for Kind {
    type Error = UnknownKind;

    ghost try_from_gives = { Names };

    fn try_from(byte: u8) -> Result<Self, UnknownKind> {
        match byte {
            1 => Ok(Kind::Smp),
            2 => Ok(Kind::Open),
            3 => Ok(Kind::Primitive),
            4 => Ok(Kind::Frame),
            5 => Ok(Kind::Identify),
            6 => Ok(Kind::Leaving),
            _ => Err(UnknownKind(byte)),
        }
    }
}
