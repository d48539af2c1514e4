// What the program `orders` answers to a sheet of orders: the pairs that they permit, as a sheet, or the line that failed and why. Each `put_`
// answers where the text then ends.
#![tactic(auto)]

ghost use Rattle.std.specs.Prelude.{◌≡◌, ◌+◌, ◌≤◌, length};
ghost use Rattle.permit.specs.Permission.{start_table};
ghost use Rattle.lines.specs.Written.{Wrote};
ghost use Rattle.imports.specs.Causes as causes;
ghost use Rattle.imports.specs.Steps.{Leaves};
ghost use Rattle.exports.specs.Export.{sheet_text};
ghost use Rattle.orders_text.specs.OrdersText.{cause_words, stop_text, too_long_text, given, orders_text};

use imports::Imported;
use imports::cause::Cause;
use sheet_lines::SHEET_MOST;
use tables::PHY_RECORD;
use tables::refusal::Refusal;
use wire::PhyNumber;

// What is wrong with a line, in words.
#[tactic(auto, unfolding(crate::specs::OrdersText::cause_words, crate::specs::OrdersText::form_words, crate::specs::OrdersText::group_words, crate::specs::OrdersText::right_words))]
fn cause_said(cause: Cause) -> &'static [u8]
    ensures { (result.now ≡ cause_words (causes.number cause)) × (length result.now ≤ 64) }
{
    match cause {
        Cause::BadText => b"expected GROUP,GROUP,1 or GROUP,GROUP,0 and the line's end",
        Cause::NoSuchGroup => b"a group is not from 2 to 127",
        Cause::NoRight => b"the caller has not the right to change zoning",
    }
}

// The line at which an import stopped.
pub fn put_stop(number: u32, cause: Cause, text: &mut [u8]) -> usize
    requires { 128 ≤ length text.old }
    ensures { Wrote text.old 0 (stop_text number (causes.number cause)) result text.new × (result ≤ 128) }
{
    let a = lines::put_bytes(b"line ", text, 0);
    let b = lines::put_decimal(number as u64, text, a);
    let c = lines::put_bytes(b": ", text, b);
    let d = lines::put_bytes(cause_said(cause), text, c);
    lines::put_byte(b'\n', text, d)
}

pub fn put_too_long(text: &mut [u8]) -> usize
    requires { 128 ≤ length text.old }
    ensures { Wrote text.old 0 too_long_text result text.new × (result ≤ 128) }
{
    lines::put_bytes(b"a sheet has at most 88,011 bytes\n", text, 0)
}

// The permitted pairs. The buffers are as large as an export asks, so it is not refused.
pub fn put_pairs(permissions: &[u8], text: &mut [u8]) -> usize
    requires { (length permissions.now ≡ 2048) × (88011 ≤ length text.old) }
    ensures { Wrote text.old 0 (sheet_text 16 permissions.now) result text.new × (result ≤ 88011) }
{
    match exports::export_sheet(permissions, text) {
        Ok(end) => end as usize,
        Err(_) => 0,
    }
}

// The sheet's orders, into a fresh table, as from phy 0 of the bench rack.
pub fn give_orders(sheet: &[u8], permissions: &mut [u8]) -> Result<Imported, Refusal>
    requires { (length sheet.now ≤ 88011) × (length permissions.old ≡ 2048) }
    ensures { Leaves 16 (given sheet.now) (start_table 16) result permissions.new }
{
    let mut phys = [0u8; 8 * PHY_RECORD];
    rack::start(&mut phys, permissions);
    imports::import_sheet(&phys, permissions, PhyNumber(0), 0, sheet)
}

// Such an import is not refused: phy 0 is ready, and not participating.
fn put_answer(sheet: &[u8], permissions: &mut [u8], text: &mut [u8]) -> usize
    requires { (length sheet.now ≤ 88011) × (length permissions.old ≡ 2048) × (88011 ≤ length text.old) }
    ensures { Wrote text.old 0 (orders_text sheet.now) result text.new × (result ≤ 88011) }
{
    match give_orders(sheet, permissions) {
        Ok(Imported::Whole(_)) => put_pairs(permissions, text),
        Ok(Imported::Stopped(number, cause)) => put_stop(number, cause, text),
        Err(_) => 0,
    }
}

// The answer to a sheet, at the front of the text.
pub fn orders_text(sheet: &[u8], text: &mut [u8]) -> usize
    requires { 88011 ≤ length text.old }
    ensures { Wrote text.old 0 (orders_text sheet.now) result text.new × (result ≤ 88011) }
{
    if SHEET_MOST < sheet.len() {
        return put_too_long(text);
    }
    let mut permissions = [0u8; 2048];
    put_answer(sheet, &mut permissions, text)
}
