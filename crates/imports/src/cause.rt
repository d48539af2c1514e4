// Why a line of a sheet fails.

ghost use Rattle.std.specs.Prelude.{◌≡◌};
ghost use Rattle.imports.specs.Causes.{number};

#[derive(Clone, Copy, Debug, PartialEq, Eq)]
pub enum Cause {
    // The text is no line, or has no line end.
    BadText = 1,
    // A group that no order may name.
    NoSuchGroup = 2,
    // The caller has not the right.
    NoRight = 3,
}

impl From<Cause> for u8 {
    ghost from_gives = { λ cause n. n ≡ number cause };

    fn from(cause: Cause) -> u8 {
        cause as u8
    }
}
