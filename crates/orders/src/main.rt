// A regulator's program: a sheet of orders on standard input, in the order in which they were given, and on standard output the pairs that they permit,
// as a sheet, or the line that failed and why. It reads one byte more than a sheet may have, so that the first bytes of a longer input are not taken for a
// whole sheet.
#![tactic(auto)]

use std::io;
use std::io::Write;

fn main(rt: HostRuntime) -> io::Result<()> {
    let mut sheet = [0u8; 88012];
    let mut text = [0u8; 88011];
    let Ok(have) = whole_input::take_input(&mut rt.stdin(), &mut sheet) else {
        whole_input::say_unreadable(&mut rt.stdout());
        return Ok(());
    };
    let end = orders_text::orders_text(&sheet[..have], &mut text);
    rt.stdout().write_all(&text[..end])
}
