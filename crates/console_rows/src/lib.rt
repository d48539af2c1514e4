// The wardens' console: a batch, whole rows of permissions packed into document 01's bits.
#![tactic(auto)]

ghost use Rattle.std.specs.Prelude.{◌≡◌, ◌&&◌, [], ◌∷◌, ◌+◌, ◌*◌, ◌/◌, ◌≤◌, ◌<◌, ltb, length};
ghost use Rattle.std.proofs.Math.Seq.{paste};
ghost use Rattle.wire.specs.Bits.{tab};
ghost use Rattle.tables.specs.Refusals.{first_refusal, Clear};
ghost use Rattle.tables.specs.Outcome.{out};
ghost use Rattle.console_orders.specs.Building.{refused, built_as, at_front};
ghost use Rattle.console_rows.specs.Batches.{choice_rows, chosen, packed, batch_checks, batch_request, batch_out};

use console_orders::{Refusal, flag, write_twelve};
use wire::ZoneGroup;

// Whether a batch names group 0 or 1.
fn starts_low(start: ZoneGroup, k: usize) -> bool
    ensures { result ≡ (ltb start.0 2 && ltb 0 k) }
{
    start.0 < 2 && 0 < k
}

#[tactic(auto, unfolding(tables::specs::Refusals::first_refusal))]
fn check_batch(room: usize, start: ZoneGroup, choices: &[u8]) -> Result<(), Refusal>
    ensures { refused result ≡ first_refusal (batch_checks room start.0 choices.now) }
{
    if room < 1020 {
        return Err(Refusal::NoRoom);
    }
    if 8064 < choices.len() {
        return Err(Refusal::TooMany);
    }
    if choices.len() % 128 != 0 {
        return Err(Refusal::TooMany);
    }
    if 127 < start.0 {
        return Err(Refusal::TooHigh);
    }
    if starts_low(start, choices.len() / 128) {
        return Err(Refusal::WouldFail);
    }
    Ok(())
}

fn is_chosen(choices: &[u8], r: usize, j: usize) -> bool
    requires { (128 * r + 128 ≤ length choices.now) × (j < 128) × (r < 63) }
    ensures { result ≡ chosen choices.now r j }
{
    choices[128 * r + j] != 0
}

// Byte i of the rows, from its highest bit down: group j is bit j mod 8 of byte 15 - j/8.
fn packed_byte(choices: &[u8], i: usize) -> u8
    requires { (i / 16 < length choices.now / 128) × (length choices.now ≤ 8064) }
    ensures { result ≡ packed choices.now i }
{
    let mut byte: u8 = 0;
    for j in (0..8).rev() {
        byte = byte * 2 + is_chosen(choices, i / 16, 8 * (15 - i % 16) + j) as u8;
    }
    byte
}

fn write_rows(request: &mut [u8], choices: &[u8])
    requires { (1020 ≤ length request.old) × (length choices.now ≤ 8064) }
    ensures { request.new ≡ paste request.old 12 (tab (packed choices.now) 0 (16 * choice_rows choices.now)) (16 * choice_rows choices.now) }
{
    let n = 16 * (choices.len() / 128);
    for i in 0..n {
        request[12 + i] = packed_byte(choices, i);
    }
}

fn write_batch(request: &mut [u8], start: ZoneGroup, choices: &[u8], complete: bool) -> u16
    requires { Clear (batch_checks (length request.old) start.0 choices.now) }
    ensures { (result ≡ length (batch_request start.0 choices.now complete)) × (request.new ≡ at_front (batch_request start.0 choices.now complete) request.old) }
{
    let k = (choices.len() / 128) as u8;
    write_twelve(request, 2 + 4 * k, 0, 0, 0x90 + flag(complete), start.0, k);
    write_rows(request, choices);
    12 + 16 * (k as u16)
}

// Whole rows from `start` on: 128 bytes a row, byte j for group j.
pub fn batch(
    request: &mut [u8],
    start: ZoneGroup,
    choices: &[u8],
    complete: bool,
) -> Result<u16, Refusal>
    ensures { out (built_as result) (request.new ∷ []) ≡ batch_out request.old start.0 choices.now complete }
{
    check_batch(request.len(), start, choices)?;
    Ok(write_batch(request, start, choices, complete))
}
