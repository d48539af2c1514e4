// 93h CONFIGURE PHY ZONE.
#![tactic(auto)]

ghost use Rattle.std.specs.Prelude.{◌≡◌, ◌≢◌, Err, ◌++◌, ◌+◌, ◌*◌, ◌%◌, ◌≤◌, ◌<◌, length, drop};
ghost use Rattle.permit.specs.Permission.{Width, Table};
ghost use Rattle.tables.specs.Refusals.{first_refusal};
ghost use Rattle.tables.specs.Phys.{phy_record, phy_count, ready_set};
ghost use Rattle.requests.specs.Results.{number, checked};
ghost use Rattle.requests.specs.Requests.{Lent, Leaves};
ghost use Rattle.phy_zone.specs.PhyZone.{entries, start_phy, sound, all_sound, phy_zone_checks, configured, phy_zone_reply};
ghost use Rattle.phy_zone.specs.Inner.{Fitting};

use requests::{FunctionResult, Ruled};
use wire::PhyNumber;

// Whether a descriptor may be written: its group is one, and is 1 where it is to participate.
pub fn is_sound(width: usize, b0: u8, b1: u8) -> bool
    requires { Width width }
    ensures { result ≡ sound width b0 b1 }
{
    if 8 * width <= b1 as usize {
        return false;
    }
    if b0 / 16 % 2 != 1 {
        return true;
    }
    b1 == 1
}

// Every one of the k descriptors is judged before a record is written.
fn all_sound(width: usize, request: &[u8], k: usize) -> bool
    requires { Width width × (8 + 2 * k ≤ length request.now) }
    ensures { result ≡ all_sound width request.now 0 k }
{
    for judged in 0..k {
        let at = 8 + 2 * judged;
        if !is_sound(width, request[at], request[at + 1]) {
            return false;
        }
    }
    true
}

fn check_phy_zone(
    width: usize,
    phys: &[u8],
    permissions: &[u8],
    phy: PhyNumber,
    carried: u8,
    request: &[u8],
) -> Result<(), FunctionResult>
    requires { (phy.0 < phy_count phys.now) × Table width permissions.now }
    ensures number { checked result ≡ first_refusal (phy_zone_checks width phys.now permissions.now phy.0 carried request.now) }
    ensures turned_down { result ≢ Err FunctionResult.Accepted }
{
    if !requests::has_right(width, phys, permissions, phy, carried) {
        return Err(FunctionResult::Failed);
    }
    if request.len() < 8 {
        return Err(FunctionResult::InvalidLength);
    }
    if request.len() != 4 + 4 * (request[3] as usize) {
        return Err(FunctionResult::InvalidLength);
    }
    // Byte 7 decides: for an odd k two bytes of fill follow, and are no descriptor.
    let k = request[7] as usize;
    if request.len() != 8 + 2 * k + 2 * (k % 2) {
        return Err(FunctionResult::InvalidLength);
    }
    if phys.len() / tables::PHY_RECORD < (request[6] % 128) as usize + k {
        return Err(FunctionResult::NoSuchPhy);
    }
    if !all_sound(width, request, k) {
        return Err(FunctionResult::Failed);
    }
    Ok(())
}

// Writes the k descriptors to the records from start on.
fn configure(phys: &mut [u8], request: &[u8])
    requires { Fitting phys.old request.now }
    ensures { phys.new ≡ configured phys.old request.now (start_phy request.now) 0 (entries request.now) }
{
    let start = request[6] % 128;
    let k = request[7];
    for written in 0..k {
        let at = 8 + 2 * (written as usize);
        tables::write_zone(
            phys,
            PhyNumber(start + written),
            request[at],
            request[at + 1],
        );
    }
}

// What an accepted request does: all ready phys are told, also where k is 0.
fn carry_out(phys: &mut [u8], request: &[u8], set: &mut [u8])
    requires { Fitting phys.old request.now × (length phys.old % phy_record ≡ 0) × (16 ≤ length set.old) }
    ensures { (phys.new ≡ configured phys.old request.now (start_phy request.now) 0 (entries request.now)) × (set.new ≡ ready_set phys.old ++ drop 16 set.old) }
{
    tables::write_ready_set(phys, set);
    configure(phys, request);
}

// Sets group, participation and priority of a run of phys.
pub fn configure_phy_zone(
    width: usize,
    phys: &mut [u8],
    permissions: &[u8],
    phy: PhyNumber,
    carried: u8,
    request: &[u8],
    response: &mut [u8],
    set: &mut [u8],
) -> Ruled
    requires { Lent width phys.old permissions.now phy.0 (length request.now) (length response.old) (length set.old) }
    ensures { Leaves 0x93 (phy_zone_reply width phys.old permissions.now phy.0 carried request.now) response.old set.old (number result.result) result.written phys.new permissions.now response.new set.new }
{
    if let Err(said) = check_phy_zone(width, phys, permissions, phy, carried, request) {
        return requests::turn_down(0x93, said, response, set);
    }
    requests::write_head(response, 0x93, FunctionResult::Accepted, 0);
    carry_out(phys, request, set);
    Ruled {
        result: FunctionResult::Accepted,
        written: 4,
    }
}
