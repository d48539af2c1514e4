// OPEN frames: the gate through which a host reaches a disk.
#![tactic(auto)]

ghost use Rattle.std.specs.Prelude.{◌≡◌, [], ◌∷◌, ◌++◌, ◌<◌, ◌≤◌, length, set, drop, Some};
ghost use Rattle.permit.specs.Permission.{Width, Table};
ghost use Rattle.tables.specs.Refusals.{first_refusal};
ghost use Rattle.tables.specs.Phys.{phy_count};
ghost use Rattle.tables.specs.Outcome.{out};
ghost use Rattle.tables.specs.Numbers.{refused};
ghost use Rattle.opens.specs.Open.{opened_as, open_checks, open_source, judge, byte20, sent, open_out};

use searches::Destination;
use tables::READY;
use tables::refusal::Refusal;
use wire::{PhyNumber, ZoneGroup};

// What becomes of a frame that is not refused.
#[derive(Clone, Copy, Debug, PartialEq, Eq)]
pub enum Opened {
    NoDestination,
    BadDestination,
    ZoneViolation,
    Forward(PhyNumber),
}

// The refusals of OPEN, in document 01's order.
fn check_open(
    width: usize,
    phys: &[u8],
    routes: &[u8],
    permissions: &[u8],
    phy: PhyNumber,
    frame: &[u8],
    room: bool,
) -> Result<(), Refusal>
    requires { Width width }
    ensures { refused result ≡ first_refusal (open_checks width phys.now routes.now permissions.now phy.0 frame.now room) }
{
    let sizes = tables::routes_sized(routes) & permit::permissions_sized(width, permissions);
    tables::check_arrival(phys, phy, sizes, room, READY)?;
    if frame.len() != 28 {
        return Err(Refusal::WrongLength);
    }
    if frame[0] % 16 != 1 {
        return Err(Refusal::WrongField);
    }
    Ok(())
}

// The group for which the frame speaks.
fn open_source(phys: &[u8], phy: PhyNumber, frame: &[u8]) -> ZoneGroup
    requires { (phy.0 < phy_count phys.now) × (length frame.now ≡ 28) }
    ensures { result.0 ≡ open_source phys.now phy.0 frame.now }
{
    if !tables::is_participating(phys, phy) {
        return tables::phy_group(phys, phy);
    }
    wire::group_of(frame[20])
}

// Byte 20 towards the phy `to`, for the source group that `open_source` gave.
fn byte20(phys: &[u8], phy: PhyNumber, frame: &[u8], source: ZoneGroup, to: PhyNumber) -> u8
    requires { (phy.0 < phy_count phys.now) × (length frame.now ≡ 28) × (source.0 ≡ open_source phys.now phy.0 frame.now) × (to.0 < phy_count phys.now) }
    ensures { result ≡ byte20 phys.now phy.0 frame.now to.0 }
{
    if !tables::is_participating(phys, to) {
        return 0;
    }
    if tables::is_participating(phys, phy) {
        return frame[20] / 128 * 128 + source.0;
    }
    if 0 < tables::phy_priority(phys, phy) {
        return 128 + source.0;
    }
    source.0
}

// The frame with another byte 20; what the buffer has beyond 28 bytes stays.
fn write_frame(frame: &[u8], byte: u8, buffer: &mut [u8])
    requires { (length frame.now ≡ 28) × (28 ≤ length buffer.old) }
    ensures { buffer.new ≡ set frame.now 20 byte ++ drop 28 buffer.old }
{
    wire::copy(buffer, 0, frame, 0, 28);
    buffer[20] = byte;
}

// What becomes of a frame for a destination that was found.
fn admit(
    width: usize,
    phys: &[u8],
    permissions: &[u8],
    phy: PhyNumber,
    frame: &[u8],
    found: Destination,
    buffer: &mut [u8],
) -> Opened
    requires { (phy.0 < phy_count phys.now) × Table width permissions.now × (length frame.now ≡ 28) × (28 ≤ length buffer.old) × (found.phy.0 < phy_count phys.now) }
    ensures { (result ≡ judge width phys.now permissions.now phy.0 frame.now (Some found)) × (buffer.new ≡ sent phys.now phy.0 frame.now buffer.old result) }
{
    if tables::same_port(phys, phy, found.phy) {
        return Opened::BadDestination;
    }
    let source = open_source(phys, phy, frame);
    if !permit::permitted(width, permissions, source, found.group) {
        return Opened::ZoneViolation;
    }
    let byte = byte20(phys, phy, frame, source, found.phy);
    write_frame(frame, byte, buffer);
    Opened::Forward(found.phy)
}

// An OPEN frame arrives on a phy.
pub fn open_at(
    width: usize,
    phys: &[u8],
    routes: &[u8],
    permissions: &[u8],
    phy: PhyNumber,
    frame: &[u8],
    buffer: &mut [u8],
) -> Result<Opened, Refusal>
    requires { Width width }
    ensures { out (opened_as result) (buffer.new ∷ []) ≡ open_out width phys.now routes.now permissions.now phy.0 frame.now buffer.old }
{
    let room = 28 <= buffer.len();
    check_open(width, phys, routes, permissions, phy, frame, room)?;
    let Some(found) = searches::search(phys, routes, frame) else {
        return Ok(Opened::NoDestination);
    };
    Ok(admit(width, phys, permissions, phy, frame, found, buffer))
}

// Document 01's shelf.
pub fn open(
    phys: &[u8],
    routes: &[u8],
    permissions: &[u8],
    phy: PhyNumber,
    frame: &[u8],
    buffer: &mut [u8],
) -> Result<Opened, Refusal>
    ensures { out (opened_as result) (buffer.new ∷ []) ≡ open_out 16 phys.now routes.now permissions.now phy.0 frame.now buffer.old }
{
    open_at(16, phys, routes, permissions, phy, frame, buffer)
}
