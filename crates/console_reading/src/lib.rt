// The wardens' console: a response read back to a result and rows.
#![tactic(auto)]

ghost use Rattle.std.specs.Prelude.{◌≡◌, [], ◌∷◌, ◌++◌, ◌+◌, ◌*◌, ◌/◌, ◌≤◌, ◌<◌, length, drop, get_or};
ghost use Rattle.wire.specs.Bits.{bit, tab};
ghost use Rattle.tables.specs.Refusals.{first_refusal, Clear};
ghost use Rattle.tables.specs.Outcome.{out};
ghost use Rattle.console_orders.specs.Building.{refused};
ghost use Rattle.console_reading.specs.Reading.{heard_values, heard_as, among, possible, reports, start_of, count_of, rows_checks, short_checks, head_checks, read_checks, unpacked, eight_from, read_out};

use console_orders::Refusal;

// What a response says.
#[derive(Clone, Copy, Debug, PartialEq, Eq)]
pub enum Heard {
    // Function and result.
    Result(u8, u8),
    // An accepted report: first group and rows.
    Rows(u8, u8),
}

fn is_among(r: u8, results: &[u8]) -> bool
    ensures { result ≡ among r results.now }
{
    results.contains(&r)
}

// Whether the function can give the result.
fn is_possible(function: u8, r: u8) -> bool
    ensures { result ≡ possible function r }
{
    match function {
        0x93 => is_among(r, &[0x00, 0x02, 0x03, 0x10]),
        0xc1 => is_among(r, &[0x00, 0x01, 0x02, 0x03, 0x11]),
        0x51 => is_among(r, &[0x00, 0x01, 0x03, 0x11]),
        _ => false,
    }
}

// Whether it is an accepted report.
fn is_report(response: &[u8]) -> bool
    requires { 4 ≤ length response.now }
    ensures { result ≡ reports response.now }
{
    response[1] == 0x51 && response[2] == 0x00
}

#[tactic(auto, unfolding(tables::specs::Refusals::first_refusal))]
fn check_rows(response: &[u8]) -> Result<(), Refusal>
    ensures { refused result ≡ first_refusal (rows_checks response.now) }
{
    if response.len() < 12 {
        return Err(Refusal::NoResponse);
    }
    if response[4] != 0 {
        return Err(Refusal::NoResponse);
    }
    if response[5] != 0 {
        return Err(Refusal::NoResponse);
    }
    if 127 < response[6] {
        return Err(Refusal::NoResponse);
    }
    if 63 < response[7] {
        return Err(Refusal::NoResponse);
    }
    if 128 < response[6] + response[7] {
        return Err(Refusal::NoResponse);
    }
    if response[3] != 2 + 4 * response[7] {
        return Err(Refusal::NoResponse);
    }
    if response.len() != 12 + 16 * (response[7] as usize) {
        return Err(Refusal::NoResponse);
    }
    Ok(())
}

#[tactic(auto, unfolding(tables::specs::Refusals::first_refusal))]
fn check_short(response: &[u8]) -> Result<(), Refusal>
    requires { 4 ≤ length response.now }
    ensures { refused result ≡ first_refusal (short_checks response.now) }
{
    if response.len() != 4 {
        return Err(Refusal::NoResponse);
    }
    if response[3] != 0 {
        return Err(Refusal::NoResponse);
    }
    Ok(())
}

fn check_head(response: &[u8]) -> Result<(), Refusal>
    ensures { refused result ≡ first_refusal (head_checks response.now) }
{
    if response.len() < 4 {
        return Err(Refusal::NoResponse);
    }
    if response[0] != 0x41 {
        return Err(Refusal::NoResponse);
    }
    if !is_possible(response[1], response[2]) {
        return Err(Refusal::NoResponse);
    }
    if is_report(response) {
        return check_rows(response);
    }
    check_short(response)
}

#[tactic(auto, unfolding(tables::specs::Refusals::first_refusal))]
fn check_read(response: &[u8], room: usize) -> Result<(), Refusal>
    ensures { refused result ≡ first_refusal (read_checks response.now room) }
{
    if room < 8064 {
        return Err(Refusal::NoRoom);
    }
    check_head(response)
}

// Bit k of a byte: of a row's byte, whether its group with j mod 8 = k is on.
fn bit_of(x: u8, k: u8) -> u8
    requires { k < 8 }
    ensures { result ≡ bit x k }
{
    x >> k & 1
}

// The eight groups of one byte of a row, a byte each.
fn unpack_eight(x: u8, rows: &mut [u8], at: usize)
    requires { at + 8 ≤ length rows.old }
    ensures { rows.new ≡ eight_from x rows.old at }
{
    rows[at] = bit_of(x, 0);
    rows[at + 1] = bit_of(x, 1);
    rows[at + 2] = bit_of(x, 2);
    rows[at + 3] = bit_of(x, 3);
    rows[at + 4] = bit_of(x, 4);
    rows[at + 5] = bit_of(x, 5);
    rows[at + 6] = bit_of(x, 6);
    rows[at + 7] = bit_of(x, 7);
}

// Byte by byte: of a row the last first, since group j is in byte 15 - j/8.
fn unpack(response: &[u8], rows: &mut [u8], count: u8)
    requires { (12 + 16 * count ≤ length response.now) × (count ≤ 63) × (8064 ≤ length rows.old) }
    ensures { rows.new ≡ tab (unpacked response.now) 0 (128 * count) ++ drop (128 * count) rows.old }
{
    for k in 0..16 * (count as usize) {
        let x = response[12 + (16 * (k / 16) + (15 - k % 16))];
        unpack_eight(x, rows, 8 * k);
    }
}

fn read_report(response: &[u8], rows: &mut [u8]) -> Heard
    requires { Clear (rows_checks response.now) × (8064 ≤ length rows.old) }
    ensures { (heard_values result ≡ (0x51 ∷ 0x00 ∷ start_of response.now ∷ count_of response.now ∷ [])) × (rows.new ≡ tab (unpacked response.now) 0 (128 * count_of response.now) ++ drop (128 * count_of response.now) rows.old) }
{
    unpack(response, rows, response[7]);
    Heard::Rows(response[6], response[7])
}

fn read_result(response: &[u8]) -> Heard
    requires { 4 ≤ length response.now }
    ensures { heard_values result ≡ (get_or response.now 1 0 ∷ get_or response.now 2 0 ∷ []) }
{
    Heard::Result(response[1], response[2])
}

// A response read back: its result, or a report's rows, 128 bytes a row, byte j for group j.
pub fn read(response: &[u8], rows: &mut [u8]) -> Result<Heard, Refusal>
    ensures { out (heard_as result) (rows.new ∷ []) ≡ read_out response.now rows.old }
{
    check_read(response, rows.len())?;
    if is_report(response) {
        return Ok(read_report(response, rows));
    }
    Ok(read_result(response))
}
