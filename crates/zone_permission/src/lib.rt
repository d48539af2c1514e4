// C1h CONFIGURE ZONE PERMISSION: the orders.
#![tactic(auto)]

ghost use Rattle.std.specs.Prelude.{◌≡◌, ◌≢◌, Err, ◌&&◌, ◌++◌, ◌%◌, ◌≤◌, ◌<◌, ltb, length, drop};
ghost use Rattle.permit.specs.Permission.{groups, set_both, Width, Table};
ghost use Rattle.permit.specs.Orders.{apply, rows_end};
ghost use Rattle.tables.specs.Refusals.{first_refusal};
ghost use Rattle.tables.specs.Phys.{phy_record, phy_count};
ghost use Rattle.requests.specs.Results.{number, checked};
ghost use Rattle.requests.specs.Requests.{Lent, Leaves};
ghost use Rattle.zone_permission.specs.ZonePermission.{source, target, new_value, Accepted, single_checks, batch_checks, operation_checks, permission_checks, orders_of, permission_set, permission_reply};

use requests::{FunctionResult, Ruled};
use wire::{PhyNumber, ZoneGroup};

fn check_single(width: usize, request: &[u8]) -> Result<(), FunctionResult>
    requires { (12 ≤ length request.now) × Width width }
    ensures number { checked result ≡ first_refusal (single_checks width request.now) }
    ensures turned_down { result ≢ Err FunctionResult.Accepted }
{
    if request.len() != 12 {
        return Err(FunctionResult::InvalidLength);
    }
    if request[6] % 128 < 2 {
        return Err(FunctionResult::Failed);
    }
    if request[7] % 128 < 2 {
        return Err(FunctionResult::Failed);
    }
    if 8 * width <= (request[6] % 128) as usize {
        return Err(FunctionResult::Failed);
    }
    if 8 * width <= (request[7] % 128) as usize {
        return Err(FunctionResult::Failed);
    }
    Ok(())
}

// Whether a batch names group 0 or 1: its first row is below 2, and it has one.
fn starts_low(start: u8, count: u8) -> bool
    ensures { result ≡ (ltb start 2 && ltb 0 count) }
{
    (start < 2) & (0 < count)
}

// One past the last group that a batch has a row for, and 0 where it has none.
fn rows_end(start: u8, count: u8) -> usize
    ensures { result ≡ rows_end start count }
{
    if count == 0 {
        return 0;
    }
    start as usize + count as usize
}

fn check_batch(width: usize, request: &[u8]) -> Result<(), FunctionResult>
    requires { (12 ≤ length request.now) × Width width }
    ensures number { checked result ≡ first_refusal (batch_checks width request.now) }
    ensures turned_down { result ≢ Err FunctionResult.Accepted }
{
    let start = request[10];
    let count = request[11];
    if request.len() != 12 + 16 * (count as usize) {
        return Err(FunctionResult::InvalidLength);
    }
    if 128 < (start as usize) + (count as usize) {
        return Err(FunctionResult::NoSuchIndex);
    }
    if starts_low(start, count) {
        return Err(FunctionResult::Failed);
    }
    if 8 * width < rows_end(start, count) {
        return Err(FunctionResult::Failed);
    }
    Ok(())
}

// The operation nibble picks: single, batch, or no such operation.
fn check_operation(width: usize, request: &[u8]) -> Result<(), FunctionResult>
    requires { (12 ≤ length request.now) × Width width }
    ensures number { checked result ≡ first_refusal (operation_checks width request.now) }
    ensures turned_down { result ≢ Err FunctionResult.Accepted }
{
    let operation = request[9] / 16;
    match operation {
        8 => check_single(width, request),
        9 => check_batch(width, request),
        0..=7 | 10..=255 => Err(FunctionResult::Failed),
    }
}

fn check_permission(
    width: usize,
    phys: &[u8],
    permissions: &[u8],
    phy: PhyNumber,
    carried: u8,
    request: &[u8],
) -> Result<(), FunctionResult>
    requires { (phy.0 < phy_count phys.now) × Table width permissions.now × (4 ≤ length request.now) }
    ensures number { checked result ≡ first_refusal (permission_checks width phys.now permissions.now phy.0 carried request.now) }
    ensures turned_down { result ≢ Err FunctionResult.Accepted }
{
    if !requests::has_right(width, phys, permissions, phy, carried) {
        return Err(FunctionResult::UnknownFunction);
    }
    if request.len() != 4 + 4 * (request[3] as usize) {
        return Err(FunctionResult::InvalidLength);
    }
    if request.len() < 12 {
        return Err(FunctionResult::InvalidLength);
    }
    check_operation(width, request)
}

// NEW VALUE, written to both places.
fn obey_single(width: usize, permissions: &mut [u8], request: &[u8])
    requires { Table width permissions.old × (12 ≤ length request.now) × (source request.now < groups width) × (target request.now < groups width) }
    ensures { permissions.new ≡ set_both width permissions.old (source request.now) (target request.now) (new_value request.now) }
{
    let a = ZoneGroup(request[6] % 128);
    let b = ZoneGroup(request[7] % 128);
    permit::write_both(width, permissions, a, b, request[7] / 128 == 1);
}

// What an accepted request orders.
fn obey(width: usize, permissions: &mut [u8], request: &[u8])
    requires { Table width permissions.old × Accepted width request.now }
    ensures { permissions.new ≡ apply width (orders_of width request.now) permissions.old }
{
    let operation = request[9] / 16;
    if operation == 8 {
        obey_single(width, permissions, request);
    } else {
        batches::batch(
            width,
            permissions,
            request,
            ZoneGroup(request[10]),
            request[11],
        );
    }
}

// UPDATE COMPLETE decides the set.
fn write_permission_set(phys: &[u8], request: &[u8], set: &mut [u8])
    requires { (length phys.now % phy_record ≡ 0) × (12 ≤ length request.now) × (16 ≤ length set.old) }
    ensures { set.new ≡ permission_set phys.now request.now ++ drop 16 set.old }
{
    if request[9] % 2 == 1 {
        tables::write_ready_set(phys, set);
    } else {
        tables::write_empty_set(set);
    }
}

// Switches permission between groups on or off: one pair, or whole rows.
pub fn configure_zone_permission(
    width: usize,
    phys: &[u8],
    permissions: &mut [u8],
    phy: PhyNumber,
    carried: u8,
    request: &[u8],
    response: &mut [u8],
    set: &mut [u8],
) -> Ruled
    requires { Lent width phys.now permissions.old phy.0 (length request.now) (length response.old) (length set.old) }
    ensures { Leaves 0xc1 (permission_reply width phys.now permissions.old phy.0 carried request.now) response.old set.old (number result.result) result.written phys.now permissions.new response.new set.new }
{
    if let Err(said) = check_permission(width, phys, permissions, phy, carried, request) {
        return requests::turn_down(0xc1, said, response, set);
    }
    requests::write_head(response, 0xc1, FunctionResult::Accepted, 0);
    obey(width, permissions, request);
    write_permission_set(phys, request, set);
    Ruled {
        result: FunctionResult::Accepted,
        written: 4,
    }
}
