// The phys of a saved file, version 2: three bytes for each.
#![tactic(auto)]

ghost use Rattle.std.specs.Prelude.{◌≡◌, ◌+◌, ◌*◌, ◌%◌, ◌≤◌, ◌<◌, length};
ghost use Rattle.permit.specs.Permission.{Width};
ghost use Rattle.tables.specs.Phys.{phy_record, phy_count};
ghost use Rattle.lines.specs.Written.{Wrote};
ghost use Rattle.file_phys.specs.Block.{phy_entry, block_of, numbered, writable, all_writable, rezoned, Below};

use tables::PHY_RECORD;
use wire::PhyNumber;

// A phy's number, and bytes 0 and 1 of its record.
fn put_phy(phys: &[u8], phy: PhyNumber, file: &mut [u8], at: usize) -> usize
    requires { (phy.0 < phy_count phys.now) × (at + 3 ≤ length file.old) }
    ensures { Wrote file.old at (phy_entry phys.now phy.0) result file.new }
{
    let i = phy.0 as usize;
    file[at] = phy.0;
    file[at + 1] = phys[PHY_RECORD * i];
    file[at + 2] = phys[PHY_RECORD * i + 1];
    at + 3
}

// Every phy; answers where they end.
pub fn put_phys(phys: &[u8], file: &mut [u8], at: usize) -> usize
    requires { (length phys.now ≤ 128 * phy_record) × (at + length (block_of phys.now) ≤ length file.old) }
    ensures { Wrote file.old at (block_of phys.now) result file.new }
{
    let count = (phys.len() / PHY_RECORD) as u8;
    let mut end = at;
    for phy in 0..count {
        end = put_phy(phys, PhyNumber(phy), file, end);
    }
    end
}

// Whether 93h could have written these two bytes: no reserved bit, and a descriptor that it does not answer with 02h.
fn is_writable(width: usize, first: u8, group: u8) -> bool
    requires { Width width }
    ensures { result ≡ writable width first group }
{
    if 31 < first {
        return false;
    }
    phy_zone::is_sound(width, first, group)
}

// Whether 93h could have written bytes 0 and 1 of every record.
pub fn are_phys_writable(width: usize, phys: &[u8]) -> bool
    requires { Width width }
    ensures { result ≡ all_writable width (block_of phys.now) }
{
    let count = phys.len() / PHY_RECORD;
    for i in 0..count {
        if !is_writable(width, phys[PHY_RECORD * i], phys[PHY_RECORD * i + 1]) {
            return false;
        }
    }
    true
}

// Whether 93h could have written every entry of a block.
pub fn is_block_writable(width: usize, block: &[u8]) -> bool
    requires { Width width }
    ensures { result ≡ all_writable width block.now }
{
    for i in 0..block.len() / 3 {
        if !is_writable(width, block[3 * i + 1], block[3 * i + 2]) {
            return false;
        }
    }
    true
}

// Whether a block's phys are in range and ascend.
pub fn is_numbered(block: &[u8], count: usize) -> bool
    requires { length block.now % 3 ≡ 0 }
    ensures { result ≡ numbered count 0 block.now }
{
    let mut low: usize = 0;
    for entry in block.chunks_exact(3) {
        let phy = entry[0] as usize;
        if phy < low {
            return false;
        }
        if count <= phy {
            return false;
        }
        low = phy + 1;
    }
    true
}

// Writes bytes 0 and 1 of each phy of a block.
pub fn write_zones(phys: &mut [u8], block: &[u8])
    requires { (length block.now % 3 ≡ 0) × Below (phy_count phys.old) block.now }
    ensures { phys.new ≡ rezoned phys.old block.now }
{
    for entry in block.chunks_exact(3) {
        tables::write_zone(phys, PhyNumber(entry[0]), entry[1], entry[2]);
    }
}
