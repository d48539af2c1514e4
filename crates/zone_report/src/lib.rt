// 51h REPORT ZONE PERMISSION.
#![tactic(auto)]

ghost use Rattle.std.specs.Prelude.{◌≡◌, ◌≢◌, Err, ◌∷◌, ◌++◌, ◌+◌, ◌*◌, ◌/◌, ◌≤◌, ◌<◌, length, drop};
ghost use Rattle.permit.specs.Permission.{Table};
ghost use Rattle.tables.specs.Refusals.{first_refusal};
ghost use Rattle.tables.specs.Phys.{phy_count};
ghost use Rattle.requests.specs.Results.{number, checked};
ghost use Rattle.requests.specs.Requests.{Lent, Leaves};
ghost use Rattle.zone_report.specs.ZoneReport.{start_row, report_checks, row_count, rows, report_reply};

use requests::{FunctionResult, Ruled};
use wire::{PhyNumber, ZoneGroup};

fn check_report(
    width: usize,
    phys: &[u8],
    permissions: &[u8],
    phy: PhyNumber,
    carried: u8,
    request: &[u8],
) -> Result<(), FunctionResult>
    requires { (phy.0 < phy_count phys.now) × Table width permissions.now }
    ensures number { checked result ≡ first_refusal (report_checks width phys.now permissions.now phy.0 carried request.now) }
    ensures turned_down { result ≢ Err FunctionResult.Accepted }
{
    if !requests::has_right(width, phys, permissions, phy, carried) {
        return Err(FunctionResult::UnknownFunction);
    }
    if request.len() != 8 {
        return Err(FunctionResult::InvalidLength);
    }
    if request[3] != 1 {
        return Err(FunctionResult::InvalidLength);
    }
    if 127 < request[6] {
        return Err(FunctionResult::NoSuchIndex);
    }
    Ok(())
}

// How many rows are reported: as many as are asked for, as fit the length field, and as there are from start on.
fn row_count(request: &[u8]) -> u8
    requires { (8 ≤ length request.now) × (start_row request.now ≤ 127) }
    ensures { result ≡ row_count request.now }
{
    request[7].min(63).min(128 - request[6])
}

// The whole response of an accepted request, with its count of rows.
fn write_report(width: usize, permissions: &[u8], request: &[u8], count: u8, response: &mut [u8])
    requires { Table width permissions.now × (8 ≤ length request.now) × (start_row request.now ≤ 127) × (count ≡ row_count request.now) × (1020 ≤ length response.old) }
    ensures { response.new ≡ (0x41 ∷ 0x51 ∷ 0x00 ∷ (2 + 4 * row_count request.now) ∷ rows width permissions.now request.now) ++ drop (12 + 16 * row_count request.now) response.old }
{
    requests::write_head(response, 0x51, FunctionResult::Accepted, 2 + 4 * count);
    response[4..12].copy_from_slice(&[0, 0, request[6], count, 0, 0, 0, 0]);
    shown_rows::report_rows(width, permissions, ZoneGroup(request[6]), count, response);
}

// The length field that the response would have: a caller refuses one above 255 before anything is written.
pub fn report_dwords(
    width: usize,
    phys: &[u8],
    permissions: &[u8],
    phy: PhyNumber,
    carried: u8,
    request: &[u8],
) -> u16
    requires { (phy.0 < phy_count phys.now) × Table width permissions.now }
    ensures { result ≡ length (report_reply width phys.now permissions.now phy.0 carried request.now).rest / 4 }
{
    match check_report(width, phys, permissions, phy, carried, request) {
        Err(_) => 0,
        Ok(()) => 2 + 4 * (row_count(request) as u16),
    }
}

// Reports a run of rows of the permission table.
pub fn report_zone_permission(
    width: usize,
    phys: &[u8],
    permissions: &[u8],
    phy: PhyNumber,
    carried: u8,
    request: &[u8],
    response: &mut [u8],
    set: &mut [u8],
) -> Ruled
    requires { Lent width phys.now permissions.now phy.0 (length request.now) (length response.old) (length set.old) }
    ensures { Leaves 0x51 (report_reply width phys.now permissions.now phy.0 carried request.now) response.old set.old (number result.result) result.written phys.now permissions.now response.new set.new }
{
    if let Err(said) = check_report(width, phys, permissions, phy, carried, request) {
        return requests::turn_down(0x51, said, response, set);
    }
    tables::write_empty_set(set);
    let count = row_count(request);
    write_report(width, permissions, request, count, response);
    Ruled {
        result: FunctionResult::Accepted,
        written: 12 + 16 * (count as u16),
    }
}
