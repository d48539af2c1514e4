// What a warden is answered, as text: a request's bytes, a response in words, a refusal, and what was expected of a line. Each function answers where
// the text then ends.
#![tactic(auto)]

ghost use Rattle.std.specs.Prelude.{◌≡◌, ◌+◌, ◌*◌, ◌<◌, ◌≤◌, length};
ghost use Rattle.lines.specs.Text.{decimal};
ghost use Rattle.lines.specs.Written.{Wrote};
ghost use Rattle.warden_text.specs.Room.{built_length, said_rows, heard_rows};

use console_orders::Refusal;
use console_reading::Heard;

fn put_line_number(number: u64, text: &mut [u8]) -> usize
    requires { 65536 ≤ length text.old }
    ensures { result ≤ 27 }
{
    let a = lines::put_bytes(b"line ", text, 0);
    let b = lines::put_decimal(number, text, a);
    lines::put_bytes(b": ", text, b)
}

pub fn put_wrong(form: &[u8], number: u64, text: &mut [u8]) -> usize
    requires { (65536 ≤ length text.old) × (length form.now ≤ 128) }
    ensures { result ≤ length text.new }
{
    let a = put_line_number(number, text);
    let b = lines::put_bytes(b"expected ", text, a);
    let c = lines::put_bytes(form, text, b);
    lines::put_byte(b'\n', text, c)
}

// What a line of more bytes than the window has is answered.
pub fn put_too_long(number: u64, text: &mut [u8]) -> usize
    requires { 65536 ≤ length text.old }
    ensures { result ≤ length text.new }
{
    put_wrong(b"at most 65535 bytes before the line's end", number, text)
}

// Too little room cannot be: the buffers that are lent here are as large as the console asks.
fn reason(refusal: Refusal) -> &'static [u8]
    ensures { length result.now ≤ 128 }
{
    match refusal {
        Refusal::TooMany =>
            b"too many: give at most 128 phys in one order, or 63 rows in one batch or report\n",
        Refusal::TooHigh => b"too high: groups and phys end at 127, priorities at 15\n",
        Refusal::WouldFail =>
            b"a shelf would fail it: leave groups 0 and 1 out, and let a phy participate only in group 1\n",
        Refusal::NoRoom | Refusal::NoResponse =>
            b"no shelf answers so: copy the response whole, from its 41 to its last byte\n",
    }
}

#[cold]
fn put_refusal(refusal: Refusal, number: u64, text: &mut [u8]) -> usize
    requires { 65536 ≤ length text.old }
    ensures { result ≤ length text.new }
{
    let a = put_line_number(number, text);
    let b = lines::put_decimal(u8::from(refusal) as u64, text, a);
    let c = lines::put_bytes(b", ", text, b);
    lines::put_bytes(reason(refusal), text, c)
}

// The space behind the last item of a list becomes the line's end.
fn end_list(text: &mut [u8], at: usize) -> usize
    requires { at ≤ length text.old }
    ensures { result ≡ at }
{
    if at == 0 {
        return 0;
    }
    text[at - 1] = b'\n';
    at
}

fn put_item(byte: u8, text: &mut [u8], at: usize) -> usize
    requires { at + 3 ≤ length text.old }
    ensures { result ≡ at + 3 }
{
    let a = lines::put_hex(byte, text, at);
    lines::put_byte(b' ', text, a)
}

fn put_request(request: &[u8], text: &mut [u8]) -> usize
    requires { 3 * length request.now ≤ length text.old }
    ensures { result ≤ length text.new }
{
    let mut at: usize = 0;
    for byte in request {
        at = put_item(*byte, text, at);
    }
    end_list(text, at)
}

// Inline, so that the length of an order that was just built is known where its bytes are put: a short order takes two thirds of the instructions.
#[inline]
pub fn put_built(built: Result<u16, Refusal>, request: &[u8], number: u64, text: &mut [u8]) -> usize
    requires { (built_length built ≤ length request.now) × (length request.now ≤ 1020) × (65536 ≤ length text.old) }
    ensures { result ≤ length text.new }
{
    match built {
        Err(refusal) => put_refusal(refusal, number, text),
        Ok(n) => put_request(&request[..n as usize], text),
    }
}

fn put_function(function: u8, res: u8, text: &mut [u8], at: usize) -> usize
    requires { at + 10 ≤ length text.old }
    ensures { result ≡ at + 10 }
{
    let a = lines::put_hex(function, text, at);
    let b = lines::put_bytes(b"h: ", text, a);
    let c = lines::put_hex(res, text, b);
    lines::put_bytes(b"h, ", text, c)
}

// To 93h a caller without the right gets 02h, to the others 01h.
fn meaning(function: u8, res: u8) -> &'static [u8]
    ensures { length result.now ≤ 64 }
{
    match (function, res) {
        (_, 0x00) => b"done\n",
        (_, 0x01) => b"no right to change zoning\n",
        (0x93, 0x02) => b"no right, or a group that the shelf does not take\n",
        (_, 0x02) => b"failed: a group that the shelf does not take\n",
        (_, 0x03) => b"invalid request length\n",
        (_, 0x10) => b"no such phy\n",
        _ => b"no such group\n",
    }
}

// A number that has five digits at most.
fn put_digits(n: usize, text: &mut [u8], at: usize) -> usize
    requires { (n < 1000) × (at + 20 ≤ length text.old) }
    ensures { Wrote text.old at (decimal n) result text.new × (result ≤ at + 5) }
{
    lines::put_decimal(n as u64, text, at)
}

fn put_group(rows: &[u8], i: usize, group: usize, text: &mut [u8], at: usize) -> usize
    requires { (i < length rows.now) × (group < 128) × (at + 21 ≤ length text.old) }
    ensures { (at ≤ result) × (result ≤ at + 6) }
{
    if rows[i] == 0 {
        return at;
    }
    let a = put_digits(group, text, at);
    lines::put_byte(b' ', text, a)
}

fn put_groups(rows: &[u8], row: usize, text: &mut [u8], from: usize) -> usize
    requires { (row < 63) × (128 * row + 128 ≤ length rows.now) × (from + 789 ≤ length text.old) }
    ensures { (from ≤ result) × (result ≤ from + 768) }
{
    let mut at = from;
    for group in 0..128 {
        at = put_group(rows, 128 * row + group, group, text, at);
    }
    at
}

fn put_row(start: u8, rows: &[u8], row: usize, text: &mut [u8], at: usize) -> usize
    requires { (row < 63) × (128 * row + 128 ≤ length rows.now) × (at + 796 ≤ length text.old) }
    ensures { result ≤ at + 775 }
{
    let a = put_digits(wire::index(start) + row, text, at);
    let b = lines::put_bytes(b": ", text, a);
    let c = put_groups(rows, row, text, b);
    if c == b {
        return lines::put_bytes(b"none\n", text, c);
    }
    end_list(text, c)
}

fn put_row_count(start: u8, count: u8, text: &mut [u8]) -> usize
    requires { 65536 ≤ length text.old }
    ensures { result ≤ 64 }
{
    let a = put_function(0x51, 0x00, text, 0);
    let b = put_digits(wire::index(count), text, a);
    let c = lines::put_bytes(b" row", text, b);
    let d = put_plural(count, text, c);
    let e = lines::put_bytes(b" from group ", text, d);
    let f = put_digits(wire::index(start), text, e);
    lines::put_byte(b'\n', text, f)
}

fn put_plural(count: u8, text: &mut [u8], at: usize) -> usize
    requires { at < length text.old }
    ensures { result ≤ at + 1 }
{
    if count == 1 {
        return at;
    }
    lines::put_byte(b's', text, at)
}

fn put_rows(start: u8, count: u8, rows: &[u8], text: &mut [u8]) -> usize
    requires { (128 * count ≤ length rows.now) × (length rows.now ≤ 8064) × (65536 ≤ length text.old) }
    ensures { result ≤ length text.new }
{
    let mut at = put_row_count(start, count, text);
    for row in 0..wire::index(count) {
        at = put_row(start, rows, row, text, at);
    }
    at
}

// What a response says.
fn put_said(heard: Heard, rows: &[u8], text: &mut [u8]) -> usize
    requires { (128 * said_rows heard ≤ length rows.now) × (length rows.now ≤ 8064) × (65536 ≤ length text.old) }
    ensures { result ≤ length text.new }
{
    match heard {
        Heard::Result(function, result) => put_result(function, result, text),
        Heard::Rows(start, count) => put_rows(start, count, rows, text),
    }
}

pub fn put_heard(heard: Result<Heard, Refusal>, rows: &[u8], number: u64, text: &mut [u8]) -> usize
    requires { (128 * heard_rows heard ≤ length rows.now) × (length rows.now ≤ 8064) × (65536 ≤ length text.old) }
    ensures { result ≤ length text.new }
{
    match heard {
        Err(refusal) => put_refusal(refusal, number, text),
        Ok(said) => put_said(said, rows, text),
    }
}

fn put_result(function: u8, res: u8, text: &mut [u8]) -> usize
    requires { 65536 ≤ length text.old }
    ensures { result ≤ length text.new }
{
    let a = put_function(function, res, text, 0);
    lines::put_bytes(meaning(function, res), text, a)
}
