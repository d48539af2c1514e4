// Which phys an incoming broadcast goes to.
#![tactic(auto)]

ghost use Rattle.std.specs.Prelude.{◌≡◌, ◌++◌, ◌+◌, ◌*◌, min, ◌<◌, ◌≤◌, length, drop};
ghost use Rattle.permit.specs.Permission.{Table};
ghost use Rattle.tables.specs.Phys.{phy_count, phy_address};
ghost use Rattle.told_set.specs.ToldSet.{permitted, told_set};
ghost use Rattle.told_set.specs.Inner.{Shelf, slot_of, Chain, Met, Kept, Judged, ByteTold};

use wire::{PhyNumber, ZoneGroup};

// Whether the source may reach phy i's group, and it is ready. Most phys are, so that is asked last.
fn is_permitted(width: usize, phys: &[u8], permissions: &[u8], source: ZoneGroup, i: usize) -> bool
    requires { Table width permissions.now × (i < phy_count phys.now) }
    ensures { result ≡ permitted width phys.now permissions.now source.0 i }
{
    let group = wire::group_of(phys[tables::PHY_RECORD * i + 1]);
    if !permit::permitted(width, permissions, source, group) {
        return false;
    }
    phys[tables::PHY_RECORD * i + 2] % 2 == 1
}

// The slot that an address goes to: its lower half, which tells one maker's addresses apart, spread by a multiplication.
fn slot_of(address: u64) -> usize
    ensures { (result ≡ slot_of address) × (result < 256) }
{
    (address % 4294967296 * 2654435761 / 16777216 % 256) as usize
}

// Whether a phy of the chain has this address. `from` and each element of `next` are one more than a phy's number, or 0 at the end;
// phy i's element is at i + 1. By hand: an `Option` in each place would make both arrays twice as long, and each broadcast fills them.
fn met(phys: &[u8], next: &[u8; 129], address: u64, from: usize) -> bool
    requires { Chain phys.now next.now from }
    ensures { Met phys.now next.now address from result }
{
    let mut k = from;
    while 0 < k {
        if wire::address_at(phys, tables::PHY_RECORD * (k - 1) + 4) == address {
            return true;
        }
        k = wire::index(next[k]);
    }
    false
}

// Whether phy i is told. Without an address it is a port by itself; `own` is the arriving phy's address. Of the permitted phys of other
// ports below it, those whose address goes to one slot are a chain: the slot holds one more than the last of them, `next` for each one
// more than the one before it, 0 ends it. So phy i is compared with few of them. It becomes the last of its slot.
fn is_told(
    width: usize,
    phys: &[u8],
    permissions: &[u8],
    phy: PhyNumber,
    own: u64,
    source: ZoneGroup,
    i: usize,
    slots: &mut [u8; 256],
    next: &mut [u8; 129],
) -> bool
    requires { Shelf width phys.now permissions.now phy.0 × (own ≡ phy_address phys.now phy.0) × (i < phy_count phys.now) × Kept width phys.now permissions.now phy.0 source.0 i slots.old next.old }
    ensures { Judged width phys.now permissions.now phy.0 source.0 i slots.new next.new result }
{
    if !is_permitted(width, phys, permissions, source, i) {
        return false;
    }
    let address = wire::address_at(phys, tables::PHY_RECORD * i + 4);
    if address == 0 {
        return i != phy.0 as usize;
    }
    if address == own {
        return false;
    }
    let slot = slot_of(address);
    let last = slots[slot];
    next[i + 1] = last;
    slots[slot] = i as u8 + 1;
    !met(phys, next, address, wire::index(last))
}

// Byte k of the set, upwards, since a phy is held against the lower ones.
fn told_byte(
    width: usize,
    phys: &[u8],
    permissions: &[u8],
    phy: PhyNumber,
    own: u64,
    source: ZoneGroup,
    k: usize,
    slots: &mut [u8; 256],
    next: &mut [u8; 129],
) -> u8
    requires { Shelf width phys.now permissions.now phy.0 × (own ≡ phy_address phys.now phy.0) × (8 * k < phy_count phys.now) × Kept width phys.now permissions.now phy.0 source.0 (8 * k) slots.old next.old }
    ensures { ByteTold width phys.now permissions.now phy.0 source.0 k slots.new next.new result }
{
    let end = (8 * k + 8).min(phys.len() / tables::PHY_RECORD);
    let mut byte: u16 = 0;
    let mut bit: u16 = 1;
    for i in 8 * k..end {
        let told = is_told(width, phys, permissions, phy, own, source, i, slots, next);
        if told {
            byte += bit;
        }
        bit += bit;
    }
    byte as u8
}

// The set of the phys that are told. Past the byte of the last phy it stays empty.
pub fn write_told_set(
    width: usize,
    phys: &[u8],
    permissions: &[u8],
    phy: PhyNumber,
    source: ZoneGroup,
    set: &mut [u8],
)
    requires { Shelf width phys.now permissions.now phy.0 × (16 ≤ length set.old) }
    ensures { set.new ≡ told_set width phys.now permissions.now phy.0 source.0 ++ drop 16 set.old }
{
    let own = tables::phy_address(phys, phy);
    let count = phys.len() / tables::PHY_RECORD;
    tables::write_empty_set(set);
    let mut slots: [u8; 256] = [0; 256];
    let mut next: [u8; 129] = [0; 129];
    for k in 0..count.div_ceil(8) {
        set[k] = told_byte(
            width,
            phys,
            permissions,
            phy,
            own,
            source,
            k,
            &mut slots,
            &mut next,
        );
    }
}
