// The wardens' console: the zones of a run of phys.
#![tactic(auto)]

ghost use Rattle.std.specs.Prelude.{◌≡◌, false, not, [], ◌∷◌, ◌%◌, ◌≤◌, ◌<◌, length};
ghost use Rattle.std.proofs.Math.Seq.{paste};
ghost use Rattle.wire.specs.Bits.{tab};
ghost use Rattle.tables.specs.Refusals.{first_refusal, Clear};
ghost use Rattle.tables.specs.Outcome.{out};
ghost use Rattle.console_orders.specs.Building.{refused, built_as, at_front};
ghost use Rattle.wire.specs.Runs.{every};
ghost use Rattle.console_zones.specs.Zones.{entry_count, small, fair, barred, phy_zones_checks, entry_byte, described, phy_zones_request, phy_zones_out};

use console_orders::{Refusal, flag, write_eight};
use wire::PhyNumber;

#[tactic(auto, unfolding(crate::specs::Zones::small))]
fn is_small(entries: &[u8], i: usize) -> bool
    requires { (i < entry_count entries.now) × (length entries.now ≤ 384) }
    ensures { result ≡ small entries.now i }
{
    if 15 < entries[3 * i + 1] {
        return false;
    }
    entries[3 * i + 2] < 128
}

fn all_small(entries: &[u8]) -> bool
    requires { length entries.now ≤ 384 }
    ensures { result ≡ every (small entries.now) 0 (entry_count entries.now) }
{
    for i in 0..entries.len() / 3 {
        if !is_small(entries, i) {
            return false;
        }
    }
    true
}

#[tactic(auto, unfolding(crate::specs::Zones::fair))]
fn is_fair(entries: &[u8], i: usize) -> bool
    requires { (i < entry_count entries.now) × (length entries.now ≤ 384) }
    ensures { result ≡ fair entries.now i }
{
    if entries[3 * i] == 0 {
        return true;
    }
    entries[3 * i + 2] == 1
}

fn all_fair(entries: &[u8]) -> bool
    requires { length entries.now ≤ 384 }
    ensures { result ≡ every (fair entries.now) 0 (entry_count entries.now) }
{
    for i in 0..entries.len() / 3 {
        if !is_fair(entries, i) {
            return false;
        }
    }
    true
}

// An order that some shelf answers 02h; beyond 128 phys every shelf answers 10h.
#[tactic(auto, unfolding(crate::specs::Zones::barred))]
fn is_barred(start: PhyNumber, entries: &[u8]) -> bool
    requires { length entries.now ≤ 384 }
    ensures { result ≡ barred start.0 entries.now }
{
    if 128 < (start.0 as usize) + entries.len() / 3 {
        return false;
    }
    !all_fair(entries)
}

#[tactic(auto, unfolding(tables::specs::Refusals::first_refusal))]
fn check_phy_zones(room: usize, start: PhyNumber, entries: &[u8]) -> Result<(), Refusal>
    ensures { refused result ≡ first_refusal (phy_zones_checks room start.0 entries.now) }
{
    if room < 1020 {
        return Err(Refusal::NoRoom);
    }
    if 384 < entries.len() {
        return Err(Refusal::TooMany);
    }
    if entries.len() % 3 != 0 {
        return Err(Refusal::TooMany);
    }
    if 127 < start.0 {
        return Err(Refusal::TooHigh);
    }
    if !all_small(entries) {
        return Err(Refusal::TooHigh);
    }
    if is_barred(start, entries) {
        return Err(Refusal::WouldFail);
    }
    Ok(())
}

// Byte i of the descriptors; the fill after an odd number of them is zero.
fn entry_byte(entries: &[u8], i: usize) -> u8
    requires { (length entries.now % 3 ≡ 0) × (not (every (small entries.now) 0 (entry_count entries.now)) ≡ false) }
    ensures { result ≡ entry_byte entries.now i }
{
    let e = i / 2;
    if entries.len() / 3 <= e {
        return 0;
    }
    if i % 2 != 0 {
        return entries[3 * e + 2];
    }
    16 * flag(entries[3 * e] != 0) + entries[3 * e + 1]
}

fn write_entries(request: &mut [u8], entries: &[u8])
    requires { (1020 ≤ length request.old) × (length entries.now ≤ 384) × (length entries.now % 3 ≡ 0) × (not (every (small entries.now) 0 (entry_count entries.now)) ≡ false) }
    ensures { request.new ≡ paste request.old 8 (tab (entry_byte entries.now) 0 (described (entry_count entries.now))) (described (entry_count entries.now)) }
{
    let k = entries.len() / 3;
    let n = 2 * (k + k % 2);
    for i in 0..n {
        request[8 + i] = entry_byte(entries, i);
    }
}

fn write_zones(request: &mut [u8], start: PhyNumber, entries: &[u8]) -> u16
    requires { Clear (phy_zones_checks (length request.old) start.0 entries.now) }
    ensures { (result ≡ length (phy_zones_request start.0 entries.now)) × (request.new ≡ at_front (phy_zones_request start.0 entries.now) request.old) }
{
    let k = (entries.len() / 3) as u8;
    write_eight(request, 0x93, 1 + (k + k % 2) / 2, start.0, k);
    write_entries(request, entries);
    8 + 2 * ((k + k % 2) as u16)
}

// The zones of a run of phys from `start` on: three bytes an entry.
pub fn phy_zones(request: &mut [u8], start: PhyNumber, entries: &[u8]) -> Result<u16, Refusal>
    ensures { out (built_as result) (request.new ∷ []) ≡ phy_zones_out request.old start.0 entries.now }
{
    check_phy_zones(request.len(), start, entries)?;
    Ok(write_zones(request, start, entries))
}
