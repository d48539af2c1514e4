// Runs the bench rack on a stream of events: a window over the input is refilled and run, and what a run wrote is handed on, so that a call of
// the system's serves many events: no limit on the length of the input. What is written is `bench_text`'s.
// By hand: the tables, the window and the text are no fields of one struct, since a method that lends two fields behind its `&mut self` gets no proof ("the
// borrow checker does not cover this function yet"), and copies of them would cost more than the runs.
#![tactic(auto)]

ghost use Rattle.std.specs.Prelude.{◌≡◌, ◌+◌, ◌<◌, ◌≤◌, length};

use std::io::{Read, Write};
use tables::PHY_RECORD;

// Where the runs stand: the unread bytes of the window are those from `at` up to `have`; `number` is the next event's.
#[derive(Clone, Copy, Debug, PartialEq, Eq)]
struct Place {
    at: usize,
    have: usize,
    number: u64,
    ghost unread: { at ≤ have },
}

// Runs the unread events and writes their lines, or refills the window where none is whole; answers whether there may be more. The input's end is a refill
// that brings nothing. A write that fails is passed over.
fn turn<R: Read, W: Write>(
    reader: &mut R,
    writer: &mut W,
    phys: &mut [u8],
    permissions: &mut [u8],
    window: &mut [u8],
    text: &mut [u8],
    place: &mut Place,
) -> bool
    requires { (place.old.have ≤ length window.old) × (place.old.number + length window.old < 18446744073709551616) }
    ensures { (place.new.have ≤ length window.new) × (place.old.number ≤ place.new.number) × (place.new.number ≤ place.old.number + length window.new) }
{
    let Place { at, have, number } = *place;
    let p = bench_text::run_events(phys, permissions, &window[at..have], number, text);
    if 0 < p.taken {
        let _ = writer.write_all(&text[..p.used]);
        *place = Place {
            at: at + p.taken,
            have,
            number: p.number,
        };
        return true;
    }
    let now_have = window::refill(reader, window, at, have);
    *place = Place {
        at: 0,
        have: now_have,
        number,
    };
    have - at < now_have
}

// Runs all events of the reader, and writes the end's line. Both bounds show that the loop ends and that the numbers fit: no input has as many bytes.
fn events<R: Read, W: Write>(
    reader: &mut R,
    writer: &mut W,
    phys: &mut [u8],
    permissions: &mut [u8],
    window: &mut [u8],
    text: &mut [u8],
    first: u64,
)
    requires { (length window.old ≡ 131072) × (64 ≤ length text.old) }
{
    let mut place = Place {
        at: 0,
        have: 0,
        number: first,
    };
    for _ in 0..u64::MAX {
        let full = u64::MAX - 131072 <= place.number;
        if full || !turn(reader, writer, phys, permissions, window, text, &mut place) {
            break;
        }
    }
    let n = bench_text::end_line(&window[place.at..place.have], place.number, text);
    let _ = writer.write_all(&text[..n]);
}

// Runs the bench rack, from its start, on the events of the reader, and writes their lines.
pub fn run<R: Read, W: Write>(reader: &mut R, writer: &mut W) {
    let mut phys = [0u8; 8 * PHY_RECORD];
    let mut permissions = [0u8; 2048];
    let mut window = [0u8; 131072];
    let mut text = [0u8; 65536];
    let p = bench_text::begin(&mut phys, &mut permissions, &mut text);
    let _ = writer.write_all(&text[..p.used]);
    events(
        reader,
        writer,
        &mut phys,
        &mut permissions,
        &mut window,
        &mut text,
        p.number,
    );
}
