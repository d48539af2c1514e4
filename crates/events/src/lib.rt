// Events at the bench rack: the call that an event makes, and its line of text.
#![tactic(auto)]

ghost use Rattle.std.specs.Prelude.{◌≡◌, [], ◌∷◌, ◌+◌, ◌<◌, ◌≤◌, length, MatchOption};
ghost use Rattle.lines.specs.Text.{line};
ghost use Rattle.lines.specs.Words.{T, first_line};
ghost use Rattle.lines.specs.Written.{Wrote};
ghost use Rattle.call_words.specs.Inner.{Gave};
ghost use Rattle.events.specs.Events.{event_gives, event_length};
ghost use Rattle.events.specs.Inner.{Lined};

pub mod kind;

use kind::{Kind, UnknownKind};
use wire::PhyNumber;

// The event's kind picks the call.
fn event_words(
    phys: &mut [u8],
    permissions: &mut [u8],
    event: &[u8],
    text: &mut [u8],
    at: usize,
) -> usize
    requires { (5 ≤ length event.now) × (at + 31 ≤ length text.old) }
    ensures { Gave (event_gives event.now phys.old permissions.old) text.old at result text.new phys.new permissions.new }
{
    let phy = PhyNumber(event[1]);
    let carried = event[2];
    let payload = &event[5..];
    match Kind::try_from(event[0]) {
        Ok(Kind::Smp) => call_words::smp_words(phys, permissions, phy, carried, payload, text, at),
        Ok(Kind::Open) => call_words::open_words(phys, permissions, phy, payload, text, at),
        Ok(Kind::Primitive) => call_words::primitive_words(
            phys,
            permissions,
            phy,
            payload,
            text,
            at,
        ),
        Ok(Kind::Frame) => call_words::frame_words(phys, permissions, phy, payload, text, at),
        Ok(Kind::Identify) => call_words::identify_words(phys, phy, payload, text, at),
        Ok(Kind::Leaving) => call_words::leaving_words(phys, phy, payload, text, at),
        Err(UnknownKind(_)) => lines::put_byte(b'K', text, at),
    }
}

// An event's line at the front of the text; answers the line's length.
pub fn event_line(
    phys: &mut [u8],
    permissions: &mut [u8],
    event: &[u8],
    number: u64,
    text: &mut [u8],
) -> usize
    requires { (5 ≤ length event.now) × (64 ≤ length text.old) }
    ensures { Lined number (event_gives event.now phys.old permissions.old) text.old result text.new phys.new permissions.new }
{
    let a = lines::put_decimal(number, text, 0);
    let b = lines::put_byte(b' ', text, a);
    let c = event_words(phys, permissions, event, text, b);
    lines::put_byte(b'\n', text, c)
}

// The line of an event that is cut off.
pub fn cut_line(number: u64, text: &mut [u8]) -> usize
    requires { 64 ≤ length text.old }
    ensures { Wrote text.old 0 (line number (T ∷ [])) result text.new × (result ≤ 64) }
{
    let a = lines::put_decimal(number, text, 0);
    lines::put_bytes(b" T\n", text, a)
}

// How many bytes the event at the front of `bytes` has; none where it is cut off.
pub fn event_length(bytes: &[u8]) -> Option<usize>
    ensures { MatchOption result (event_length bytes.now ≡ 0) (λ n. (n ≡ event_length bytes.now) × (0 < n) × (n ≤ length bytes.now)) }
{
    let [_, _, _, high, low, payload @ ..] = bytes else {
        return None;
    };
    let length = u16::from_be_bytes([*high, *low]) as usize;
    if payload.len() < length {
        return None;
    }
    Some(5 + length)
}

// The first line of every run.
pub fn first_line(text: &mut [u8]) -> usize
    requires { 64 ≤ length text.old }
    ensures { Wrote text.old 0 first_line result text.new × (result ≤ 64) }
{
    lines::put_bytes(b"rack 1\n", text, 0)
}
