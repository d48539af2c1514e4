// What the program `zonefile` answers: to a sheet of orders the version 1 file of the table that they make, to such a file the sheet of its pairs, and
// where there is none the words why. Each `put_` answers where the text then ends.
#![tactic(auto)]

ghost use Rattle.std.specs.Prelude.{◌≡◌, true, ◌||◌, ◌≤◌, length};
ghost use Rattle.permit.specs.Permission.{start_table};
ghost use Rattle.tables.specs.Refusals.{first_refusal};
ghost use Rattle.tables.specs.Numbers.{number};
ghost use Rattle.lines.specs.Written.{Wrote};
ghost use Rattle.file_pairs.specs.Described.{described};
ghost use Rattle.version_1.specs.Version1.{file_of, load_checks};
ghost use Rattle.orders_text.specs.OrdersText.{given};
ghost use Rattle.warden_words.specs.Words as words;
ghost use Rattle.zonefile_text.specs.ZonefileText.{save_word, load_word, usage_text, long_file_text, short_file_text, version2_text, version_text, lengths_text, offset_text, pair_text, refusal_text, file_said, save_said, sheet_said, load_said, zone_said, SaidBy};

use file_trailer::FILE_ROOM;
use imports::Imported;
use sheet_lines::SHEET_MOST;
use tables::refusal::Refusal;

// Where a text ends, and for which output it is. The words of a refusal are for standard error, as standard output may be a file, and an empty one
// tells that there is none.
#[derive(Clone, Copy, Debug, PartialEq, Eq)]
pub enum Text {
    Output(usize),
    Errors(usize),
}

// Whether a word is one that the program knows, so that no input is waited for where it is not.
pub fn is_way(word: &[u8]) -> bool
    ensures { result ≡ (words.same word.now save_word || words.same word.now load_word) }
{
    if warden_words::same(word, b"save") {
        return true;
    }
    warden_words::same(word, b"load")
}

fn put_usage(text: &mut [u8]) -> usize
    requires { 128 ≤ length text.old }
    ensures { Wrote text.old 0 usage_text result text.new × (result ≤ 128) }
{
    lines::put_bytes(
        b"usage: zonefile save <sheet >file, or zonefile load <file >sheet\n",
        text,
        0,
    )
}

fn put_long_file(text: &mut [u8]) -> usize
    requires { 128 ≤ length text.old }
    ensures { Wrote text.old 0 long_file_text result text.new × (result ≤ 128) }
{
    lines::put_bytes(
        b"a file has at most 16,400 bytes, and one of version 1 at most 16,014\n",
        text,
        0,
    )
}

// Why a file is refused, in words.
fn refusal_said(refusal: Refusal) -> &'static [u8]
    ensures { (result.now ≡ refusal_text (number refusal)) × (length result.now ≤ 128) }
{
    match refusal {
        Refusal::TooShort => b"a file has at least 12 bytes\n",
        Refusal::IsVersion2 =>
            b"this is a file of version 2, and only one of version 1 can be a sheet\n",
        Refusal::VersionUnknown => b"the file is of a version that is neither 1 nor 2\n",
        Refusal::LengthsDisagree =>
            b"the file's trailer says another length, or another number of pairs, than the file has\n",
        Refusal::OffsetDisagrees =>
            b"the file's trailer says another offset of the first pair than 0\n",
        _ =>
            b"a pair in the file is not of groups from 2 to 127, the lower first, or not behind the pair before it\n",
    }
}

fn put_refusal(refusal: Refusal, text: &mut [u8]) -> usize
    requires { 128 ≤ length text.old }
    ensures { Wrote text.old 0 (refusal_text (number refusal)) result text.new × (result ≤ 128) }
{
    lines::put_bytes(refusal_said(refusal), text, 0)
}

// The table's file. There is room, and a table that orders made is as a save asks, so it is not refused.
fn put_file(permissions: &[u8], text: &mut [u8]) -> usize
    requires { (length permissions.now ≡ 2048) × (described 16 permissions.now ≡ true) × (88011 ≤ length text.old) }
    ensures { Wrote text.old 0 (file_of 16 permissions.now) result text.new × (result ≤ 88011) }
{
    match version_1::save_version_1(permissions, text) {
        Ok(end) => end as usize,
        Err(_) => 0,
    }
}

// Nothing of the file is written before the last line was accepted.
fn put_saved(sheet: &[u8], permissions: &mut [u8], text: &mut [u8]) -> Text
    requires { (length sheet.now ≤ 88011) × (length permissions.old ≡ 2048) × (88011 ≤ length text.old) }
    ensures { SaidBy (file_said (given sheet.now)) text.old result text.new }
{
    match orders_text::give_orders(sheet, permissions) {
        Ok(Imported::Whole(_)) => Text::Output(put_file(permissions, text)),
        Ok(Imported::Stopped(number, cause)) => {
            Text::Errors(orders_text::put_stop(number, cause, text))
        }
        Err(_) => Text::Errors(0),
    }
}

fn save_text(sheet: &[u8], text: &mut [u8]) -> Text
    requires { 88011 ≤ length text.old }
    ensures { SaidBy (save_said sheet.now) text.old result text.new }
{
    if SHEET_MOST < sheet.len() {
        return Text::Errors(orders_text::put_too_long(text));
    }
    let mut permissions = [0u8; 2048];
    put_saved(sheet, &mut permissions, text)
}

fn put_loaded(file: &[u8], permissions: &mut [u8], text: &mut [u8]) -> Text
    requires { (length permissions.old ≡ 2048) × (88011 ≤ length text.old) }
    ensures { SaidBy (sheet_said (first_refusal (load_checks 16 (start_table 16) file.now)) file.now) text.old result text.new }
{
    permit::start_table(16, permissions);
    match version_1::load_version_1(permissions, file) {
        Ok(_) => Text::Output(orders_text::put_pairs(permissions, text)),
        Err(refusal) => Text::Errors(put_refusal(refusal, text)),
    }
}

fn load_text(file: &[u8], text: &mut [u8]) -> Text
    requires { 88011 ≤ length text.old }
    ensures { SaidBy (load_said file.now) text.old result text.new }
{
    if FILE_ROOM < file.len() {
        return Text::Errors(put_long_file(text));
    }
    let mut permissions = [0u8; 2048];
    put_loaded(file, &mut permissions, text)
}

// The answer to an input, at the front of the text, the way that the word says.
pub fn zone_text(word: &[u8], input: &[u8], text: &mut [u8]) -> Text
    requires { 88011 ≤ length text.old }
    ensures { SaidBy (zone_said word.now input.now) text.old result text.new }
{
    if warden_words::same(word, b"save") {
        return save_text(input, text);
    }
    if warden_words::same(word, b"load") {
        return load_text(input, text);
    }
    Text::Errors(put_usage(text))
}
