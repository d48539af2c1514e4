// What every SMP request and response has.
#![tactic(auto)]

ghost use Rattle.std.specs.Prelude.{◌≡◌, List, [], ◌∷◌, ◌++◌, ℕ, ◌≤◌, ◌<◌, length, drop};
ghost use Rattle.permit.specs.Permission.{Table};
ghost use Rattle.tables.specs.Phys.{phy_count};
ghost use Rattle.requests.specs.Results.{number};
ghost use Rattle.requests.specs.Requests.{smp_source, source_reaches, right, turned_down, Leaves};

use wire::{PhyNumber, ZoneGroup};

// What a response says in its byte 2.
#[derive(Clone, Copy, Debug, PartialEq, Eq)]
pub enum FunctionResult {
    Accepted = 0x00,
    // Also what some rules say to a caller that has no right.
    UnknownFunction = 0x01,
    Failed = 0x02,
    InvalidLength = 0x03,
    NoSuchPhy = 0x10,
    NoSuchIndex = 0x11,
    // The phy is there, but the caller does not reach its group.
    Vacant = 0x16,
}

impl From<FunctionResult> for u8 {
    ghost from_gives = { λ said n. n ≡ number said };

    fn from(said: FunctionResult) -> u8 {
        said as u8
    }
}

// What a rule answers: the result, and how many bytes of the response it wrote.
#[derive(Clone, Copy, Debug, PartialEq, Eq)]
pub struct Ruled {
    pub result: FunctionResult,
    pub written: u16,
}

// The group that is speaking. On a phy that is not participating `carried` is not read.
pub fn smp_source(phys: &[u8], phy: PhyNumber, carried: u8) -> Option<ZoneGroup>
    requires { phy.0 < phy_count phys.now }
    ensures { result ≡ smp_source phys.now phy.0 carried }
{
    if tables::is_participating(phys, phy) {
        return wire::outside_group(carried);
    }
    Some(tables::phy_group(phys, phy))
}

// Whether the group that is speaking reaches another.
pub fn source_reaches(
    width: usize,
    phys: &[u8],
    permissions: &[u8],
    phy: PhyNumber,
    carried: u8,
    group: ZoneGroup,
) -> bool
    requires { (phy.0 < phy_count phys.now) × Table width permissions.now }
    ensures { result ≡ source_reaches width permissions.now (smp_source phys.now phy.0 carried) group.0 }
{
    let Some(source) = smp_source(phys, phy, carried) else {
        return false;
    };
    permit::permitted(width, permissions, source, group)
}

// Whether the caller may change zoning.
pub fn has_right(width: usize, phys: &[u8], permissions: &[u8], phy: PhyNumber, carried: u8) -> bool
    requires { (phy.0 < phy_count phys.now) × Table width permissions.now }
    ensures { result ≡ right width phys.now permissions.now phy.0 carried }
{
    source_reaches(width, phys, permissions, phy, carried, ZoneGroup(2))
}

// The first four bytes of a response.
pub fn write_head(response: &mut [u8], function: u8, said: FunctionResult, dwords: u8)
    requires { 4 ≤ length response.old }
    ensures { response.new ≡ (0x41 ∷ function ∷ number said ∷ dwords ∷ []) ++ drop 4 response.old }
{
    response[..4].copy_from_slice(&[0x41, function, u8::from(said), dwords]);
}

// The whole response to a request that is turned down, and what it leaves: no phy is told, whatever the tables are.
pub fn turn_down(function: u8, said: FunctionResult, response: &mut [u8], set: &mut [u8]) -> Ruled
    requires { (4 ≤ length response.old) × (16 ≤ length set.old) }
    ensures { (phys permissions : List ℕ) → Leaves function (turned_down (number said) phys permissions) response.old set.old (number result.result) result.written phys permissions response.new set.new }
{
    write_head(response, function, said, 0);
    tables::write_empty_set(set);
    Ruled {
        result: said,
        written: 4,
    }
}
