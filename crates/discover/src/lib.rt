// 10h DISCOVER: what stands at one phy.
#![tactic(auto)]

ghost use Rattle.std.specs.Prelude.{◌≡◌, ◌≢◌, Err, cond, ◌∷◌, ◌++◌, ◌≤◌, ◌<◌, length, drop};
ghost use Rattle.permit.specs.Permission.{Table};
ghost use Rattle.tables.specs.Refusals.{first_refusal};
ghost use Rattle.tables.specs.Phys.{phy_count, ready};
ghost use Rattle.requests.specs.Results.{number, checked};
ghost use Rattle.requests.specs.Requests.{Lent, Leaves};
ghost use Rattle.discover.specs.Discover.{asked_phy, length_said, shown, discover_checks, description, discover_reply};
ghost use Rattle.discover.specs.Inner.{fields_in, attached_in};

use requests::{FunctionResult, Ruled};
use tables::PHY_RECORD;
use wire::PhyNumber;

// The change counts, which the caller keeps: of the expander, and of the phy that is asked for.
#[derive(Clone, Copy, Debug, PartialEq, Eq)]
pub struct Changes {
    pub expander: u16,
    pub phy: u8,
}

// Whether the length field says two dwords: older members' tools say so with zero.
fn length_said(request: &[u8]) -> bool
    requires { length request.now ≡ 12 }
    ensures { result ≡ length_said request.now }
{
    let said = request[3];
    (said == 0x02) | (said == 0x00)
}

// Whether the caller is shown the phy that it asks for.
fn is_shown(
    width: usize,
    phys: &[u8],
    permissions: &[u8],
    phy: PhyNumber,
    carried: u8,
    request: &[u8],
) -> bool
    requires { (phy.0 < phy_count phys.now) × Table width permissions.now × (length request.now ≡ 12) × (asked_phy request.now < phy_count phys.now) }
    ensures { result ≡ shown width phys.now permissions.now phy.0 carried request.now }
{
    if request[8] % 2 == 1 {
        return true;
    }
    let asked = PhyNumber(request[9]);
    let group = tables::phy_group(phys, asked);
    requests::source_reaches(width, phys, permissions, phy, carried, group)
}

fn check_discover(
    width: usize,
    phys: &[u8],
    permissions: &[u8],
    phy: PhyNumber,
    carried: u8,
    request: &[u8],
) -> Result<(), FunctionResult>
    requires { (phy.0 < phy_count phys.now) × Table width permissions.now }
    ensures number { checked result ≡ first_refusal (discover_checks width phys.now permissions.now phy.0 carried request.now) }
    ensures turned_down { result ≢ Err FunctionResult.Accepted }
{
    if request.len() != 12 {
        return Err(FunctionResult::InvalidLength);
    }
    if !length_said(request) {
        return Err(FunctionResult::InvalidLength);
    }
    if phys.len() / PHY_RECORD <= wire::index(request[9]) {
        return Err(FunctionResult::NoSuchPhy);
    }
    if !is_shown(width, phys, permissions, phy, carried, request) {
        return Err(FunctionResult::Vacant);
    }
    Ok(())
}

// What is attached: of a phy that is ready.
fn show_attached(phys: &[u8], phy: PhyNumber, response: &mut [u8])
    requires { (phy.0 < phy_count phys.now) × (108 ≤ length response.old) }
    ensures { response.new ≡ cond (ready phys.now phy.0) (attached_in phys.now phy.0 response.old) response.old }
{
    if tables::is_ready(phys, phy) {
        let i = phy.0 as usize;
        response[12] = tables::device_type(phys, phy) * 16;
        response[32] = tables::attached_phy(phys, phy);
        wire::copy(response, 24, phys, PHY_RECORD * i + 4, 8);
    }
}

// What is said of every phy, ready or not. In byte 60 zoning is enabled, bit 0, always.
fn write_fields(phys: &[u8], phy: PhyNumber, changes: Changes, response: &mut [u8])
    requires { (phy.0 < phy_count phys.now) × (108 ≤ length response.old) }
    ensures { response.new ≡ fields_in phys.now phy.0 changes response.old }
{
    response[4] = (changes.expander / 256) as u8;
    response[5] = (changes.expander % 256) as u8;
    response[9] = phy.0;
    response[42] = changes.phy;
    response[60] = tables::is_participating(phys, phy) as u8 * 2 + 1;
    response[63] = tables::phy_group(phys, phy).0;
}

// The whole response of an accepted request: zeros, and what is said over them.
fn describe(phys: &[u8], phy: PhyNumber, changes: Changes, response: &mut [u8])
    requires { (phy.0 < phy_count phys.now) × (108 ≤ length response.old) }
    ensures { response.new ≡ (0x41 ∷ 0x10 ∷ 0x00 ∷ 0x1a ∷ description phys.now phy.0 changes) ++ drop 108 response.old }
{
    wire::clear(response, 108);
    requests::write_head(response, 0x10, FunctionResult::Accepted, 0x1a);
    write_fields(phys, phy, changes, response);
    show_attached(phys, phy, response);
}

// Describes one phy.
pub fn discover(
    width: usize,
    phys: &[u8],
    permissions: &[u8],
    phy: PhyNumber,
    carried: u8,
    changes: Changes,
    request: &[u8],
    response: &mut [u8],
    set: &mut [u8],
) -> Ruled
    requires { Lent width phys.now permissions.now phy.0 (length request.now) (length response.old) (length set.old) }
    ensures { Leaves 0x10 (discover_reply width phys.now permissions.now phy.0 carried changes request.now) response.old set.old (number result.result) result.written phys.now permissions.now response.new set.new }
{
    if let Err(said) = check_discover(width, phys, permissions, phy, carried, request) {
        return requests::turn_down(0x10, said, response, set);
    }
    tables::write_empty_set(set);
    describe(phys, PhyNumber(request[9]), changes, response);
    Ruled {
        result: FunctionResult::Accepted,
        written: 108,
    }
}
