// OPEN's search: where a frame's destination is, by the phy table and then by the route table.
#![tactic(auto)]

ghost use Rattle.std.specs.Prelude.{◌≡◌, ◌*◌, ◌≤◌, length};
ghost use Rattle.tables.specs.Phys.{phy_record, phy_count};
ghost use Rattle.tables.specs.Routes.{route_count};
ghost use Rattle.searches.specs.Search.{zero_bytes, usable, find_phy, find_route, search};

use tables::{PHY_RECORD, ROUTE_RECORD};
use wire::{PhyNumber, ZoneGroup};

// What a search yields: the phy to go out on, and the destination's group.
#[derive(Clone, Copy, Debug, PartialEq, Eq)]
pub struct Destination {
    pub phy: PhyNumber,
    pub group: ZoneGroup,
}

// The bytes are compared from the last to the first: addresses of one maker differ at the low end, so most records are left at the
// first comparison. Whether the phy is ready is asked last, since few records come so far. Two loops and a label: document 01 names that form.
fn search_phys(phys: &[u8], frame: &[u8]) -> Option<Destination>
    requires { (length phys.now ≤ 128 * phy_record) × (length frame.now ≡ 28) }
    ensures { result ≡ find_phy phys.now frame.now 0 (phy_count phys.now) }
{
    let count = phys.len() / PHY_RECORD;
    let mut i: usize = 0;
    'search: loop {
        if i == count {
            break None;
        }
        let at = PHY_RECORD * i + 4;
        let mut k: usize = 8;
        'bytes: loop {
            k -= 1;
            if phys[at + k] != frame[4 + k] {
                i += 1;
                continue 'search;
            }
            if 0 < k {
                continue 'bytes;
            }
            let phy = PhyNumber(i as u8);
            if !tables::is_ready(phys, phy) {
                i += 1;
                continue 'search;
            }
            let group = tables::phy_group(phys, phy);
            break 'search Some(Destination { phy, group });
        }
    }
}

// Whether a record of the route table can be followed: its phy exists and is ready.
fn is_usable(phys: &[u8], p: PhyNumber) -> bool
    ensures { result ≡ usable phys.now p.0 }
{
    if (p.0 as usize) < phys.len() / PHY_RECORD {
        return tables::is_ready(phys, p);
    }
    false
}

// Bytes first and from the last on, in the form of `search_phys`. A record of no group is skipped.
fn search_routes(phys: &[u8], routes: &[u8], frame: &[u8]) -> Option<Destination>
    requires { length frame.now ≡ 28 }
    ensures { result ≡ find_route phys.now routes.now frame.now 0 (route_count routes.now) }
{
    let count = routes.len() / ROUTE_RECORD;
    let mut i: usize = 0;
    'search: loop {
        if i == count {
            break None;
        }
        let at = ROUTE_RECORD * i;
        let mut k: usize = 8;
        'bytes: loop {
            k -= 1;
            if routes[at + k] != frame[4 + k] {
                i += 1;
                continue 'search;
            }
            if 0 < k {
                continue 'bytes;
            }
            let phy = tables::route_phy(routes, i);
            if !is_usable(phys, phy) {
                i += 1;
                continue 'search;
            }
            let Some(group) = tables::route_group(routes, i) else {
                i += 1;
                continue 'search;
            };
            break 'search Some(Destination { phy, group });
        }
    }
}

// Whether the frame's destination is address zero, which matches nothing. It is asked byte by byte: from one number made of the eight bytes
// the compiler takes each byte out again for the searches, and keeps all eight on the stack.
fn is_zero_address(frame: &[u8]) -> bool
    requires { length frame.now ≡ 28 }
    ensures { result ≡ zero_bytes 8 frame.now 4 }
{
    for k in (0..8).rev() {
        if frame[4 + k] != 0 {
            return false;
        }
    }
    true
}

// Where the frame is to go: by the phy table, failing that by the route table.
pub fn search(phys: &[u8], routes: &[u8], frame: &[u8]) -> Option<Destination>
    requires { (length phys.now ≤ 128 * phy_record) × (length frame.now ≡ 28) }
    ensures { result ≡ search phys.now routes.now frame.now }
{
    if is_zero_address(frame) {
        return None;
    }
    let Some(found) = search_phys(phys, frame) else {
        return search_routes(phys, routes, frame);
    };
    Some(found)
}
