// Start-up, and link events: which group a disk is in after a cable is moved.
#![tactic(auto)]

ghost use Rattle.std.specs.Prelude.{◌≡◌, [], ◌∷◌, ◌<◌};
ghost use Rattle.permit.specs.Permission.{Width};
ghost use Rattle.tables.specs.Phys.{phy_count};
ghost use Rattle.tables.specs.Refusals.{first_refusal};
ghost use Rattle.tables.specs.Outcome.{out};
ghost use Rattle.tables.specs.Numbers.{refused};
ghost use Rattle.links.specs.Links.{linked_as, start_up_checks, start_up_out, left, leaving_out, identify_checks, moved, unzoned, identified, identify_out};

use tables::refusal::Refusal;
use tables::{NO_BUFFERS, NO_OTHER_TABLES, NOT_READY, PHY_RECORD, READY};
use wire::PhyNumber;

// The refusal of start-up.
fn check_start_up(width: usize, permissions: &[u8]) -> Result<(), Refusal>
    requires { Width width }
    ensures { refused result ≡ first_refusal (start_up_checks width permissions.now) }
{
    if !permit::permissions_sized(width, permissions) {
        return Err(Refusal::WrongSize);
    }
    Ok(())
}

// Start-up: the permission table as it stands before any order.
pub fn start_up_at(width: usize, permissions: &mut [u8]) -> Result<(), Refusal>
    requires { Width width }
    ensures { out (linked_as result) (permissions.new ∷ []) ≡ start_up_out width permissions.old }
{
    check_start_up(width, permissions)?;
    permit::start_table(width, permissions);
    Ok(())
}

// Document 01's shelf.
pub fn start_up(permissions: &mut [u8]) -> Result<(), Refusal>
    ensures { out (linked_as result) (permissions.new ∷ []) ≡ start_up_out 16 permissions.old }
{
    start_up_at(16, permissions)
}

// Byte 2 keeps only that the address is known: the disk may come back.
fn leave(phys: &mut [u8], phy: PhyNumber)
    requires { phy.0 < phy_count phys.old }
    ensures { phys.new ≡ left phys.old phy.0 }
{
    let i = phy.0 as usize;
    let flags = phys[PHY_RECORD * i + 2];
    phys[PHY_RECORD * i + 2] = flags / 2 % 2 * 2;
}

// A phy leaves the ready state.
pub fn leaving(phys: &mut [u8], phy: PhyNumber) -> Result<(), Refusal>
    ensures { out (linked_as result) (phys.new ∷ []) ≡ leaving_out phys.old phy.0 }
{
    tables::check_arrival(phys, phy, NO_OTHER_TABLES, NO_BUFFERS, READY)?;
    leave(phys, phy);
    Ok(())
}

// The refusals of IDENTIFY, in document 01's order.
fn check_identify(phys: &[u8], phy: PhyNumber, address: &[u8; 8]) -> Result<(), Refusal>
    ensures { refused result ≡ first_refusal (identify_checks phys.now phy.0 address.now) }
{
    tables::check_arrival(phys, phy, NO_OTHER_TABLES, NO_BUFFERS, NOT_READY)?;
    if wire::address_at(address, 0) == 0 {
        return Err(Refusal::WrongField);
    }
    Ok(())
}

// Whether an address was known and differs: another disk is attached now.
fn moved(phys: &[u8], phy: PhyNumber, address: &[u8; 8]) -> bool
    requires { phy.0 < phy_count phys.now }
    ensures { result ≡ moved phys.now phy.0 address.now }
{
    if !tables::is_known(phys, phy) {
        return false;
    }
    tables::phy_address(phys, phy) != wire::address_at(address, 0)
}

// Another disk does not inherit the group, the priority or the participation of the one before it.
fn unzone(phys: &mut [u8], phy: PhyNumber, address: &[u8; 8])
    requires { phy.0 < phy_count phys.old }
    ensures { phys.new ≡ unzoned phys.old phy.0 address.now }
{
    if moved(phys, phy, address) {
        tables::write_zone(phys, phy, 0, 0);
    }
}

// Byte 2 says ready, address known; bytes 12 and 13 say what is attached.
fn attach(phys: &mut [u8], phy: PhyNumber, address: &[u8; 8], device: u8, attached: u8)
    requires { phy.0 < phy_count phys.old }
    ensures { phys.new ≡ identified phys.old phy.0 address.now device attached }
{
    let i = phy.0 as usize;
    unzone(phys, phy, address);
    phys[PHY_RECORD * i + 2] = 3;
    phys[PHY_RECORD * i + 12] = device % 8;
    phys[PHY_RECORD * i + 13] = attached;
    wire::copy(phys, PHY_RECORD * i + 4, address, 0, 8);
}

// IDENTIFY arrives on a phy, with the attached SAS address, the attached device's type and which of its phys is attached.
pub fn identify(
    phys: &mut [u8],
    phy: PhyNumber,
    address: &[u8; 8],
    device: u8,
    attached: u8,
) -> Result<(), Refusal>
    ensures { out (linked_as result) (phys.new ∷ []) ≡ identify_out phys.old phy.0 address.now device attached }
{
    check_identify(phys, phy, address)?;
    attach(phys, phy, address, device, attached);
    Ok(())
}
