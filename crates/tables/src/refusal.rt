// Why a call is refused.

ghost use Rattle.std.specs.Prelude.{◌≡◌};
ghost use Rattle.tables.specs.Numbers.{number};

// Each by the number that document 01 and the requests give it: one number means one thing in every call.
#[derive(Clone, Copy, Debug, PartialEq, Eq)]
pub enum Refusal {
    // A table that the call uses has a size that document 01 does not name.
    WrongSize = 1,
    // The arriving phy is not below the number of phys.
    NoSuchPhy = 2,
    // There is no room for what the call writes.
    NoRoom = 3,
    // A frame or a request has another length.
    WrongLength = 4,
    // A byte or a number that was handed in is none that the call takes.
    WrongField = 5,
    // A broadcast frame arrived on a phy that is not participating.
    NotParticipating = 6,
    // The arriving phy is not ready; for IDENTIFY, it is ready already.
    WrongState = 7,
    // A response's length field would pass 255.
    TooLong = 8,
    // Why a saved file is not loaded, in the order of checking.
    TooShort = 31,
    IsVersion2 = 32,
    VersionUnknown = 33,
    LengthsDisagree = 34,
    OffsetDisagrees = 35,
    PhyCountDisagrees = 36,
    BadPair = 37,
    BadPhy = 38,
    BadZone = 39,
    // Why a table is not saved.
    PermissionsNotAsDescribed = 40,
    PhysNotAsDescribed = 41,
}

impl From<Refusal> for u8 {
    ghost from_gives = { λ refusal n. n ≡ number refusal };

    fn from(refusal: Refusal) -> u8 {
        refusal as u8
    }
}
