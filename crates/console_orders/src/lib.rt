// The wardens' console: what every request that it builds has, a single order, and a report. Of the library it uses the types alone.
#![tactic(auto)]

ghost use Rattle.std.specs.Prelude.{◌≡◌, [], ◌∷◌, ◌++◌, ◌≤◌, length, drop};
ghost use Rattle.wire.specs.Bits.{num};
ghost use Rattle.tables.specs.Refusals.{first_refusal};
ghost use Rattle.tables.specs.Outcome.{out};
ghost use Rattle.console_orders.specs.Building.{number, refused, built_as, eight, twelve, single_checks, single_out, report_checks, report_out};

use wire::ZoneGroup;

// Why the console builds no request, or reads no response.
#[derive(Clone, Copy, Debug, PartialEq, Eq)]
pub enum Refusal {
    // There is no room for the request, or for the rows.
    NoRoom = 21,
    TooMany = 22,
    TooHigh = 23,
    // A shelf would fail the order.
    WouldFail = 24,
    // No shelf answers so.
    NoResponse = 25,
}

// Request 06's numbers.
impl From<Refusal> for u8 {
    ghost from_gives = { λ refusal n. n ≡ number refusal };

    fn from(refusal: Refusal) -> u8 {
        refusal as u8
    }
}

pub fn flag(v: bool) -> u8
    ensures { (result ≡ num v) × (result ≤ 1) }
{
    v as u8
}

// The first eight bytes of a request.
pub fn write_eight(request: &mut [u8], function: u8, dwords: u8, x: u8, y: u8)
    requires { 8 ≤ length request.old }
    ensures { request.new ≡ eight function dwords x y ++ drop 8 request.old }
{
    request[..8].copy_from_slice(&[0x40, function, 0, dwords, 0, 0, x, y]);
}

// The first twelve bytes of a C1h request.
pub fn write_twelve(request: &mut [u8], dwords: u8, x: u8, y: u8, operation: u8, start: u8, k: u8)
    requires { 12 ≤ length request.old }
    ensures { request.new ≡ twelve dwords x y operation start k ++ drop 12 request.old }
{
    request[..12].copy_from_slice(&[0x40, 0xc1, 0, dwords, 0, 0, x, y, 0, operation, start, k]);
}

#[tactic(auto, unfolding(tables::specs::Refusals::first_refusal))]
fn check_single(room: usize, a: ZoneGroup, b: ZoneGroup) -> Result<(), Refusal>
    ensures { refused result ≡ first_refusal (single_checks room a.0 b.0) }
{
    if room < 1020 {
        return Err(Refusal::NoRoom);
    }
    if 127 < a.0 {
        return Err(Refusal::TooHigh);
    }
    if 127 < b.0 {
        return Err(Refusal::TooHigh);
    }
    if a.0 < 2 {
        return Err(Refusal::WouldFail);
    }
    if b.0 < 2 {
        return Err(Refusal::WouldFail);
    }
    Ok(())
}

// Permission between two groups, on or off; answers the request's length.
pub fn single(
    request: &mut [u8],
    a: ZoneGroup,
    b: ZoneGroup,
    new: bool,
    complete: bool,
) -> Result<u16, Refusal>
    ensures { out (built_as result) (request.new ∷ []) ≡ single_out request.old a.0 b.0 new complete }
{
    check_single(request.len(), a, b)?;
    let y = 128 * flag(new) + b.0;
    write_twelve(request, 2, a.0, y, 0x80 + flag(complete), 0, 0);
    Ok(12)
}

#[tactic(auto, unfolding(tables::specs::Refusals::first_refusal))]
fn check_report(room: usize, start: ZoneGroup, count: u8) -> Result<(), Refusal>
    ensures { refused result ≡ first_refusal (report_checks room start.0 count) }
{
    if room < 1020 {
        return Err(Refusal::NoRoom);
    }
    if 63 < count {
        return Err(Refusal::TooMany);
    }
    if 127 < start.0 {
        return Err(Refusal::TooHigh);
    }
    Ok(())
}

// A report of `count` rows from `start` on; answers the request's length.
pub fn report(request: &mut [u8], start: ZoneGroup, count: u8) -> Result<u16, Refusal>
    ensures { out (built_as result) (request.new ∷ []) ≡ report_out request.old start.0 count }
{
    check_report(request.len(), start, count)?;
    write_eight(request, 0x51, 1, start.0, count);
    Ok(8)
}
