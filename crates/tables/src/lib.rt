// Phy records, route records and the set of all ready phys.
#![tactic(auto)]

pub mod refusal;

ghost use Rattle.std.specs.Prelude.{◌≡◌, ◌++◌, ◌+◌, ◌*◌, ◌%◌, ◌<◌, ◌≤◌, length, drop};
ghost use Rattle.wire.specs.PhySet.{set_byte};
ghost use Rattle.tables.specs.Phys.{phy_record, phy_count, participating, phy_priority, phy_group, phy_address, device_type, attached_phy, ready, known, ready_set, empty_set, zoned, phys_sized};
ghost use Rattle.tables.specs.Ports.{same_port};
ghost use Rattle.tables.specs.Routes.{route_count, route_address, route_phy, route_group, route_priority, routes_sized};
ghost use Rattle.tables.specs.Refusals.{first_refusal};
ghost use Rattle.tables.specs.Arrival.{arrival_checks};
ghost use Rattle.tables.specs.Numbers.{refused};

use refusal::Refusal;
use wire::{PhyNumber, ZoneGroup};

// The bytes of a phy record, and of a route record.
pub const PHY_RECORD: usize = 16;

pub const ROUTE_RECORD: usize = 12;

// What a call says of its other tables and of its room where it uses no other table, and where it writes no buffer.
pub const NO_OTHER_TABLES: bool = true;

pub const NO_BUFFERS: bool = true;

// What a call awaits of the arriving phy: IDENTIFY is for one that is not ready, every other call for one that is.
pub const READY: bool = true;

pub const NOT_READY: bool = false;

pub fn is_participating(phys: &[u8], phy: PhyNumber) -> bool
    requires { phy.0 < phy_count phys.now }
    ensures { result ≡ participating phys.now phy.0 }
{
    let i = phy.0 as usize;
    phys[PHY_RECORD * i] / 16 % 2 == 1
}

pub fn phy_priority(phys: &[u8], phy: PhyNumber) -> u8
    requires { phy.0 < phy_count phys.now }
    ensures { result ≡ phy_priority phys.now phy.0 }
{
    let i = phy.0 as usize;
    phys[PHY_RECORD * i] % 16
}

pub fn phy_group(phys: &[u8], phy: PhyNumber) -> ZoneGroup
    requires { phy.0 < phy_count phys.now }
    ensures { result.0 ≡ phy_group phys.now phy.0 }
{
    let i = phy.0 as usize;
    wire::group_of(phys[PHY_RECORD * i + 1])
}

pub fn is_ready(phys: &[u8], phy: PhyNumber) -> bool
    requires { phy.0 < phy_count phys.now }
    ensures { result ≡ ready phys.now phy.0 }
{
    let i = phy.0 as usize;
    phys[PHY_RECORD * i + 2] % 2 == 1
}

pub fn is_known(phys: &[u8], phy: PhyNumber) -> bool
    requires { phy.0 < phy_count phys.now }
    ensures { result ≡ known phys.now phy.0 }
{
    let i = phy.0 as usize;
    phys[PHY_RECORD * i + 2] / 2 % 2 == 1
}

pub fn phy_address(phys: &[u8], phy: PhyNumber) -> u64
    requires { phy.0 < phy_count phys.now }
    ensures { result ≡ phy_address phys.now phy.0 }
{
    let i = phy.0 as usize;
    wire::address_at(phys, PHY_RECORD * i + 4)
}

// What IDENTIFY told of the attached device: its type, and which of its phys is attached.
pub fn device_type(phys: &[u8], phy: PhyNumber) -> u8
    requires { phy.0 < phy_count phys.now }
    ensures { result ≡ device_type phys.now phy.0 }
{
    let i = phy.0 as usize;
    phys[PHY_RECORD * i + 12] % 8
}

pub fn attached_phy(phys: &[u8], phy: PhyNumber) -> u8
    requires { phy.0 < phy_count phys.now }
    ensures { result ≡ attached_phy phys.now phy.0 }
{
    let i = phy.0 as usize;
    phys[PHY_RECORD * i + 13]
}

// Whether two phys are in one port. A phy is in its own port even where it has no address, or is not ready.
pub fn same_port(phys: &[u8], phy: PhyNumber, other: PhyNumber) -> bool
    requires { (phy.0 < phy_count phys.now) × (other.0 < phy_count phys.now) }
    ensures { result ≡ same_port phys.now phy.0 other.0 }
{
    if phy == other {
        return true;
    }
    let ready = is_ready(phys, phy) & is_ready(phys, other);
    let address = phy_address(phys, phy);
    ready & (address != 0) & (address == phy_address(phys, other))
}

// Bytes 0 and 1 of a record, reserved bits zero.
pub fn write_zone(phys: &mut [u8], phy: PhyNumber, first: u8, group: u8)
    requires { phy.0 < phy_count phys.old }
    ensures { phys.new ≡ zoned phys.old phy.0 first group }
{
    let i = phy.0 as usize;
    phys[PHY_RECORD * i] = first % 32;
    phys[PHY_RECORD * i + 1] = group % 128;
}

pub fn route_address(routes: &[u8], i: usize) -> u64
    requires { i < route_count routes.now }
    ensures { result ≡ route_address routes.now i }
{
    wire::address_at(routes, ROUTE_RECORD * i)
}

pub fn route_phy(routes: &[u8], i: usize) -> PhyNumber
    requires { i < route_count routes.now }
    ensures { result.0 ≡ route_phy routes.now i }
{
    PhyNumber(routes[ROUTE_RECORD * i + 8])
}

pub fn route_group(routes: &[u8], i: usize) -> Option<ZoneGroup>
    requires { i < route_count routes.now }
    ensures { result ≡ route_group routes.now i }
{
    wire::outside_group(routes[ROUTE_RECORD * i + 9])
}

pub fn route_priority(routes: &[u8], i: usize) -> u8
    requires { i < route_count routes.now }
    ensures { result ≡ route_priority routes.now i }
{
    routes[ROUTE_RECORD * i + 10] % 16
}

// Whether the phy table has 1 to 128 records.
pub fn phys_sized(phys: &[u8]) -> bool
    ensures { result ≡ phys_sized phys.now }
{
    let n = phys.len();
    (n % PHY_RECORD == 0) & (PHY_RECORD <= n) & (n <= 128 * PHY_RECORD)
}

// Whether the route table has at most 1,024 records.
pub fn routes_sized(routes: &[u8]) -> bool
    ensures { result ≡ routes_sized routes.now }
{
    let n = routes.len();
    (n % ROUTE_RECORD == 0) & (n <= 1024 * ROUTE_RECORD)
}

// What every call with an arriving phy checks first. The call says whether its other tables have their sizes, whether there is room for
// what it writes, and whether it awaits a phy that is ready.
pub fn check_arrival(
    phys: &[u8],
    phy: PhyNumber,
    sizes: bool,
    room: bool,
    awaited: bool,
) -> Result<(), Refusal>
    ensures { refused result ≡ first_refusal (arrival_checks phys.now phy.0 sizes room awaited) }
{
    if !phys_sized(phys) {
        return Err(Refusal::WrongSize);
    }
    if !sizes {
        return Err(Refusal::WrongSize);
    }
    if phys.len() / PHY_RECORD <= phy.0 as usize {
        return Err(Refusal::NoSuchPhy);
    }
    if !room {
        return Err(Refusal::NoRoom);
    }
    if is_ready(phys, phy) != awaited {
        return Err(Refusal::WrongState);
    }
    Ok(())
}

// Whether there is a phy i and it is ready.
fn ready_at(phys: &[u8], i: usize) -> bool
    requires { length phys.now % phy_record ≡ 0 }
    ensures { result ≡ ready phys.now i }
{
    if phys.len() / PHY_RECORD <= i {
        return false;
    }
    phys[PHY_RECORD * i + 2] % 2 == 1
}

// Byte k of the set, from its highest bit down.
fn ready_byte(phys: &[u8], k: usize) -> u8
    requires { (length phys.now % phy_record ≡ 0) × (k < 16) }
    ensures { result ≡ set_byte (ready phys.now) k }
{
    let mut byte: u8 = 0;
    for j in (0..8).rev() {
        byte = byte * 2 + ready_at(phys, 8 * k + j) as u8;
    }
    byte
}

// The set of all ready phys, in the first sixteen bytes.
pub fn write_ready_set(phys: &[u8], set: &mut [u8])
    requires { (length phys.now % phy_record ≡ 0) × (16 ≤ length set.old) }
    ensures { set.new ≡ ready_set phys.now ++ drop 16 set.old }
{
    for k in 0..16 {
        set[k] = ready_byte(phys, k);
    }
}

// The empty set.
pub fn write_empty_set(set: &mut [u8])
    requires { 16 ≤ length set.old }
    ensures { set.new ≡ empty_set ++ drop 16 set.old }
{
    wire::clear(set, 16);
}
