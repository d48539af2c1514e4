// The bench rack: a fixed table of eight phys.
#![tactic(auto)]

ghost use Rattle.std.specs.Prelude.{◌≡◌, ◌+◌, ◌*◌, ◌≤◌, length};
ghost use Rattle.permit.specs.Permission.{start_table};
ghost use Rattle.tables.specs.Phys.{phy_record};
ghost use Rattle.lines.specs.Written.{written};
ghost use Rattle.rack.specs.Rack.{bytes_of, rack_table};

use tables::PHY_RECORD;

#[derive(Clone, Copy, Debug, PartialEq, Eq)]
pub struct PhyRecord {
    pub first: u8,
    pub group: u8,
    pub flags: u8,
    pub address: [u8; 8],
}

const RACK: [PhyRecord; 8] = [
    PhyRecord {
        first: 15,
        group: 1,
        flags: 3,
        address: [0x50, 0, 0, 0, 0, 0, 0, 0x10],
    },
    PhyRecord {
        first: 0,
        group: 2,
        flags: 3,
        address: [0x50, 0, 0, 0, 0, 0, 0, 0x11],
    },
    PhyRecord {
        first: 0,
        group: 8,
        flags: 3,
        address: [0x50, 0, 0, 0, 0, 0, 0, 0x12],
    },
    PhyRecord {
        first: 0,
        group: 8,
        flags: 3,
        address: [0x50, 0, 0, 0, 0, 0, 0, 0x13],
    },
    PhyRecord {
        first: 0,
        group: 9,
        flags: 3,
        address: [0x50, 0, 0, 0, 0, 0, 0, 0x14],
    },
    PhyRecord {
        first: 0,
        group: 9,
        flags: 3,
        address: [0x50, 0, 0, 0, 0, 0, 0, 0x15],
    },
    PhyRecord {
        first: 0,
        group: 0,
        flags: 3,
        address: [0x50, 0, 0, 0, 0, 0, 0, 0x16],
    },
    PhyRecord {
        first: 0x10,
        group: 1,
        flags: 3,
        address: [0x50, 0, 0, 0, 0, 0, 0, 0x17],
    },
];

// One record at a place of the table.
fn store(phys: &mut [u8], at: usize, r: PhyRecord)
    requires { at + phy_record ≤ length phys.old }
    ensures { phys.new ≡ written phys.old at (bytes_of r) }
{
    let head = [r.first, r.group, r.flags, 0];
    let address = r.address;
    let tail = [0u8; 4];
    let behind = lines::put_bytes(&head, phys, at);
    let end = lines::put_bytes(&address, phys, behind);
    lines::put_bytes(&tail, phys, end);
}

// The phy table that the bench starts from.
fn start_rack(phys: &mut [u8])
    requires { length phys.old ≡ 8 * phy_record }
    ensures { phys.new ≡ rack_table }
{
    for (i, record) in RACK.iter().enumerate() {
        store(phys, i * PHY_RECORD, *record);
    }
}

// The rack as it stands before any event.
pub fn start(phys: &mut [u8], permissions: &mut [u8])
    requires { (length phys.old ≡ 8 * phy_record) × (length permissions.old ≡ 2048) }
    ensures { (phys.new ≡ rack_table) × (permissions.new ≡ start_table 16) }
{
    start_rack(phys);
    permit::start_table(16, permissions);
}
