// The wardens' program: orders and responses in plain words on standard input, a line each, and their answers on standard output. A window
// over the input is refilled, so that there is no limit on the input's length.
#![tactic(auto)]

ghost use Rattle.std.specs.Prelude.{◌≡◌, ◌+◌, ◌<◌, ◌≤◌, length};
ghost use Rattle.std.specs.ControlFlow.{MatchControlFlow};

use std::io::{Read, Write};
use std::ops::ControlFlow;

// The unread bytes of the window are those from `at` up to `have`; `number` is the next line's. While `skipping`, what comes up to the
// next line end belongs to a line that was answered as too long.
#[derive(Clone, Copy, Debug, PartialEq, Eq)]
struct Unread {
    at: usize,
    have: usize,
    number: u64,
    skipping: bool,
    ghost ordered: { at ≤ have },
}

// A write that fails is passed over, here and below: the lines behind it are answered all the same.
fn answer<W: Write>(writer: &mut W, line: &[u8], number: u64, skipping: bool, text: &mut [u8])
    requires { 65536 ≤ length text.old }
{
    if skipping {
        return;
    }
    let n = warden_lines::answer_line(line, number, text);
    let _ = writer.write_all(&text[..n]);
}

fn too_long<W: Write>(writer: &mut W, number: u64, skipping: bool, text: &mut [u8])
    requires { 65536 ≤ length text.old }
{
    if skipping {
        return;
    }
    let n = warden_text::put_too_long(number, text);
    let _ = writer.write_all(&text[..n]);
}

// No line ends in the window: more is read, or, where it is full, its line is too long. The input ends with a refill that brings nothing: what is
// then unread is the last line.
fn more<R: Read, W: Write>(
    reader: &mut R,
    writer: &mut W,
    window: &mut [u8],
    text: &mut [u8],
    unread: Unread,
) -> ControlFlow<Unread, Unread>
    requires { (unread.have ≤ length window.old) × (65536 ≤ length text.old) }
    ensures { MatchControlFlow result (λ next. (next.have ≤ length window.new) × (next.number ≡ unread.number)) (λ last. (last.have ≤ length window.new) × (last.number ≡ unread.number)) }
{
    let left = unread.have - unread.at;
    if left == window.len() {
        too_long(writer, unread.number, unread.skipping, text);
        return ControlFlow::Continue(Unread {
            at: 0,
            have: 0,
            number: unread.number,
            skipping: true,
        });
    }
    let have = window::refill(reader, window, unread.at, unread.have);
    let refilled = Unread {
        at: 0,
        have,
        number: unread.number,
        skipping: unread.skipping,
    };
    if left < have {
        ControlFlow::Continue(refilled)
    } else {
        ControlFlow::Break(refilled)
    }
}

fn turn<R: Read, W: Write>(
    reader: &mut R,
    writer: &mut W,
    window: &mut [u8],
    text: &mut [u8],
    unread: Unread,
) -> ControlFlow<Unread, Unread>
    requires { (unread.have ≤ length window.old) × (65536 ≤ length text.old) × (unread.number + 1 < 18446744073709551616) }
    ensures { MatchControlFlow result (λ next. (next.have ≤ length window.new) × (next.number ≤ unread.number + 1)) (λ last. (last.have ≤ length window.new) × (last.number ≤ unread.number + 1)) }
{
    let end = warden_words::line_end(&window[..unread.have], unread.at);
    if end < unread.have {
        answer(
            writer,
            &window[unread.at..end],
            unread.number,
            unread.skipping,
            text,
        );
        return ControlFlow::Continue(Unread {
            at: end + 1,
            have: unread.have,
            number: unread.number + 1,
            skipping: false,
        });
    }
    more(reader, writer, window, text, unread)
}

// Answers all lines that end, and gives what is unread then. The turns are counted so that the loop ends and the numbers fit: no input has as many lines.
fn answer_ended<R: Read, W: Write>(
    reader: &mut R,
    writer: &mut W,
    window: &mut [u8],
    text: &mut [u8],
) -> Unread
    requires { 65536 ≤ length text.old }
    ensures { result.have ≤ length window.new }
{
    let mut unread = Unread {
        at: 0,
        have: 0,
        number: 1,
        skipping: false,
    };
    for _turn in 1..u64::MAX {
        match turn(reader, writer, window, text, unread) {
            ControlFlow::Continue(next) => unread = next,
            ControlFlow::Break(last) => return last,
        }
    }
    unread
}

fn run<R: Read, W: Write>(reader: &mut R, writer: &mut W, window: &mut [u8], text: &mut [u8])
    requires { 65536 ≤ length text.old }
{
    let last = answer_ended(reader, writer, window, text);
    answer(
        writer,
        &window[last.at..last.have],
        last.number,
        last.skipping,
        text,
    );
}

fn main(rt: HostRuntime) {
    let mut window = [0u8; 65536];
    let mut text = [0u8; 65536];
    run(&mut rt.stdin(), &mut rt.stdout(), &mut window, &mut text);
}
