// A warden's line in plain words: which order it is, or which response, and what the console makes of it.
#![tactic(auto)]

ghost use Rattle.std.specs.Prelude.{◌≡◌, ◌+◌, ◌*◌, ◌<◌, ◌≤◌, length, set, IfSome};
ghost use Rattle.wire.specs.Bits.{num};

use warden_words::Read;
use wire::{PhyNumber, ZoneGroup};

// Whether a pair is switched on or off.
#[derive(Clone, Copy, Debug, PartialEq, Eq)]
struct Switch {
    on: bool,
    next: usize,
}

// What the words after a phy's group say.
#[derive(Clone, Copy, Debug, PartialEq, Eq)]
struct Traits {
    participating: bool,
    priority: u8,
    next: usize,
}

// Where a batch's rows have come to; `high`: a group was above 127.
#[derive(Clone, Copy, Debug, PartialEq, Eq)]
struct Spot {
    at: usize,
    row: usize,
    high: bool,
}

// How many rows a batch has; `high`: a group was above 127.
#[derive(Clone, Copy, Debug, PartialEq, Eq)]
struct Rows {
    count: usize,
    high: bool,
}

// ---- orders: each answers None where the line is not of its form

fn switch_at(line: &[u8], at: usize) -> Option<Switch>
    requires { at ≤ length line.now }
    ensures { IfSome result (λ switch. (at ≤ switch.next) × (switch.next ≤ length line.now)) }
{
    if let Some(next) = warden_words::past_word(line, at, b"on") {
        return Some(Switch { on: true, next });
    }
    let next = warden_words::past_word(line, at, b"off")?;
    Some(Switch { on: false, next })
}

fn single_order(line: &[u8], at: usize, number: u64, text: &mut [u8]) -> Option<usize>
    requires { (at ≤ length line.now) × (65536 ≤ length text.old) }
    ensures { IfSome result (λ end. end ≤ length text.new) }
{
    let a = warden_words::number_at(line, at)?;
    let b = warden_words::number_at(line, a.next)?;
    let switch = switch_at(line, b.next)?;
    let complete = warden_words::past_word(line, switch.next, b"complete");
    if complete.unwrap_or(switch.next) < line.len() {
        return None;
    }
    let mut request = [0u8; 1020];
    let built = console_orders::single(
        &mut request,
        ZoneGroup(a.value),
        ZoneGroup(b.value),
        switch.on,
        complete.is_some(),
    );
    Some(warden_text::put_built(built, &request, number, text))
}

fn report_order(line: &[u8], at: usize, number: u64, text: &mut [u8]) -> Option<usize>
    requires { (at ≤ length line.now) × (65536 ≤ length text.old) }
    ensures { IfSome result (λ end. end ≤ length text.new) }
{
    let first = warden_words::number_at(line, at)?;
    let count = warden_words::number_at(line, first.next)?;
    if count.next < line.len() {
        return None;
    }
    let mut request = [0u8; 1020];
    let built = console_orders::report(&mut request, ZoneGroup(first.value), count.value);
    Some(warden_text::put_built(built, &request, number, text))
}

fn priority_at(line: &[u8], at: usize) -> Option<Read>
    requires { at ≤ length line.now }
    ensures { IfSome result (λ read. (at ≤ read.next) × (read.next ≤ length line.now)) }
{
    let after = warden_words::past_word(line, at, b"priority")?;
    warden_words::number_at(line, after)
}

// The words on a phy, each at most once, in either order.
fn traits_at(line: &[u8], at: usize) -> Traits
    requires { at ≤ length line.now }
    ensures { (at ≤ result.next) × (result.next ≤ length line.now) }
{
    let first = warden_words::past_word(line, at, b"participating");
    let from = first.unwrap_or(at);
    let Read {
        value: priority,
        next,
    } = priority_at(line, from).unwrap_or(Read {
        value: 0,
        next: from,
    });
    if first.is_some() {
        return Traits {
            participating: true,
            priority,
            next,
        };
    }
    let last = warden_words::past_word(line, next, b"participating");
    Traits {
        participating: last.is_some(),
        priority,
        next: last.unwrap_or(next),
    }
}

fn put_entry(entries: &mut [u8], k: usize, traits: Traits, group: u8)
    requires { (k < 129) × (387 ≤ length entries.old) }
    ensures { entries.new ≡ set (set (set entries.old (3 * k) (num traits.participating)) (3 * k + 1) traits.priority) (3 * k + 2) group }
{
    entries[3 * k] = traits.participating as u8;
    entries[3 * k + 1] = traits.priority;
    entries[3 * k + 2] = group;
}

fn take_phy(line: &[u8], at: usize, entries: &mut [u8], k: usize) -> Option<usize>
    requires { (at ≤ length line.now) × (k < 129) × (387 ≤ length entries.old) }
    ensures { IfSome result (λ next. (at < next) × (next ≤ length line.now)) }
{
    let group = warden_words::number_at(line, at)?;
    let traits = traits_at(line, group.next);
    put_entry(entries, k, traits, group.value);
    Some(traits.next)
}

// Answers how many entries there are. From the 129th on all go into one place: the console refuses 129.
fn take_phys(line: &[u8], from: usize, entries: &mut [u8]) -> Option<usize>
    requires { (from ≤ length line.now) × (387 ≤ length entries.old) }
    ensures { IfSome result (λ count. count ≤ 129) }
{
    let mut at = from;
    let mut count: usize = 0;
    // By hand: only the word that is taken says where the next one starts.
    while at < line.len() {
        let k = count.min(128);
        at = take_phy(line, at, entries, k)?;
        count = k + 1;
    }
    Some(count)
}

fn phys_order(line: &[u8], at: usize, number: u64, text: &mut [u8]) -> Option<usize>
    requires { (at ≤ length line.now) × (65536 ≤ length text.old) }
    ensures { IfSome result (λ end. end ≤ length text.new) }
{
    let first = warden_words::number_at(line, at)?;
    let mut entries = [0u8; 387];
    let count = take_phys(line, first.next, &mut entries)?;
    let mut request = [0u8; 1020];
    let built = console_zones::phy_zones(
        &mut request,
        PhyNumber(first.value),
        &entries[..3 * count],
    );
    Some(warden_text::put_built(built, &request, number, text))
}

// From the 64th row on all go into one place: the console refuses 64.
fn take_group(line: &[u8], spot: Spot, choices: &mut [u8]) -> Option<Spot>
    requires { (spot.at ≤ length line.now) × (spot.row < 64) × (8192 ≤ length choices.old) }
    ensures { IfSome result (λ then. (spot.at < then.at) × (then.at ≤ length line.now) × (then.row < 64)) }
{
    if let Some(at) = warden_words::past_word(line, spot.at, b"|") {
        let row = (spot.row + 1).min(63);
        return Some(Spot { at, row, ..spot });
    }
    let group = warden_words::number_at(line, spot.at)?;
    if 127 < group.value {
        return Some(Spot {
            at: group.next,
            high: true,
            ..spot
        });
    }
    choices[128 * spot.row + wire::index(group.value)] = 1;
    Some(Spot {
        at: group.next,
        ..spot
    })
}

fn take_rows(line: &[u8], from: usize, choices: &mut [u8]) -> Option<Rows>
    requires { (from ≤ length line.now) × (8192 ≤ length choices.old) }
    ensures { IfSome result (λ rows. rows.count ≤ 64) }
{
    let mut spot = Spot {
        at: from,
        row: 0,
        high: false,
    };
    // By hand: only the word that is taken says where the next one starts.
    while spot.at < line.len() {
        spot = take_group(line, spot, choices)?;
    }
    Some(Rows {
        count: spot.row + 1,
        high: spot.high,
    })
}

// The rows behind a colon; without one there are none.
fn rows_at(line: &[u8], at: usize, choices: &mut [u8]) -> Option<Rows>
    requires { (at ≤ length line.now) × (8192 ≤ length choices.old) }
    ensures { IfSome result (λ rows. rows.count ≤ 64) }
{
    if let Some(from) = warden_words::past_word(line, at, b":") {
        return take_rows(line, from, choices);
    }
    if at < line.len() {
        return None;
    }
    Some(Rows {
        count: 0,
        high: false,
    })
}

// A row has no place for a group above 127. The first group then says so in its place, and the console answers 22 or 23.
fn first_group(value: u8, high: bool) -> ZoneGroup {
    if high {
        ZoneGroup(255)
    } else {
        ZoneGroup(value)
    }
}

fn batch_order(line: &[u8], at: usize, number: u64, text: &mut [u8]) -> Option<usize>
    requires { (at ≤ length line.now) × (65536 ≤ length text.old) }
    ensures { IfSome result (λ end. end ≤ length text.new) }
{
    let first = warden_words::number_at(line, at)?;
    let complete = warden_words::past_word(line, first.next, b"complete");
    let mut choices = [0u8; 8192];
    let rows = rows_at(line, complete.unwrap_or(first.next), &mut choices)?;
    let mut request = [0u8; 1020];
    let built = console_rows::batch(
        &mut request,
        first_group(first.value, rows.high),
        &choices[..128 * rows.count],
        complete.is_some(),
    );
    Some(warden_text::put_built(built, &request, number, text))
}

// Answers how many bytes there are. From byte 1,021 on all go into one place: no response is as long.
fn take_bytes(line: &[u8], from: usize, bytes: &mut [u8]) -> Option<usize>
    requires { (from ≤ length line.now) × (1021 ≤ length bytes.old) }
    ensures { IfSome result (λ count. count ≤ 1021) }
{
    let mut at = from;
    let mut count: usize = 0;
    // By hand: only the word that is taken says where the next one starts.
    while at < line.len() {
        let byte = warden_words::hex_at(line, at)?;
        let k = count.min(1020);
        bytes[k] = byte.value;
        at = byte.next;
        count = k + 1;
    }
    Some(count)
}

fn response_order(line: &[u8], at: usize, number: u64, text: &mut [u8]) -> Option<usize>
    requires { (at ≤ length line.now) × (65536 ≤ length text.old) }
    ensures { IfSome result (λ end. end ≤ length text.new) }
{
    let mut bytes = [0u8; 1021];
    let count = take_bytes(line, at, &mut bytes)?;
    if count == 0 {
        return None;
    }
    let mut rows = [0u8; 8064];
    let heard = console_reading::read(&bytes[..count], &mut rows);
    Some(warden_text::put_heard(heard, &rows, number, text))
}

// ---- lines

// What is expected where no answer was made.
fn or_wrong(answered: Option<usize>, form: &[u8], number: u64, text: &mut [u8]) -> usize
    requires { IfSome answered (λ end. end ≤ length text.old) × (65536 ≤ length text.old) × (length form.now ≤ 128) }
    ensures { result ≤ length text.new }
{
    match answered {
        Some(end) => end,
        None => warden_text::put_wrong(form, number, text),
    }
}

fn answer_order(line: &[u8], at: usize, number: u64, text: &mut [u8]) -> usize
    requires { (at ≤ length line.now) × (65536 ≤ length text.old) }
    ensures { result ≤ length text.new }
{
    if let Some(next) = warden_words::past_word(line, at, b"single") {
        let answered = single_order(line, next, number, text);
        return or_wrong(answered, b"single A B on|off [complete]", number, text);
    }
    if let Some(next) = warden_words::past_word(line, at, b"phys") {
        let answered = phys_order(line, next, number, text);
        return or_wrong(
            answered,
            b"phys FIRST {GROUP [participating] [priority N]}",
            number,
            text,
        );
    }
    if let Some(next) = warden_words::past_word(line, at, b"batch") {
        let answered = batch_order(line, next, number, text);
        return or_wrong(
            answered,
            b"batch FIRST [complete] [: {GROUP} { | {GROUP} }]",
            number,
            text,
        );
    }
    if let Some(next) = warden_words::past_word(line, at, b"report") {
        let answered = report_order(line, next, number, text);
        return or_wrong(answered, b"report FIRST COUNT", number, text);
    }
    if let Some(next) = warden_words::past_word(line, at, b"response") {
        let answered = response_order(line, next, number, text);
        return or_wrong(answered, b"response HEX HEX ..", number, text);
    }
    warden_text::put_wrong(b"single, phys, batch, report or response", number, text)
}

fn answer_words(line: &[u8], number: u64, text: &mut [u8]) -> usize
    requires { 65536 ≤ length text.old }
    ensures { result ≤ length text.new }
{
    let at = warden_words::past_blanks(line, 0);
    if at == line.len() {
        return 0;
    }
    answer_order(line, at, number, text)
}

// Answers a line: its text, none for an empty line, is put at the text's front, and its length is the answer. Some line ends begin with a carriage
// return, which is no word of the line.
pub fn answer_line(line: &[u8], number: u64, text: &mut [u8]) -> usize
    requires { 65536 ≤ length text.old }
    ensures { result ≤ length text.new }
{
    answer_words(line.strip_suffix(b"\r").unwrap_or(line), number, text)
}
