// A window over an input: what is unread in it is kept at its front, and more is read behind that. The programs stream, so that no input is too long.
#![tactic(auto)]

ghost use Rattle.std.specs.Prelude.{◌≡◌, ◌+◌, ◌-◌, ◌≤◌, length, take, drop, slice_range};
ghost use Rattle.std.specs.Io.KnownBytes.{Consumes};
ghost use Rattle.lines.specs.Written.{written};

use std::io::Read;

// Moves the n bytes from `from` on to the window's front, so that there is room to read behind them.
pub fn keep(window: &mut [u8], from: usize, n: usize)
    requires { from + n ≤ length window.old }
    ensures { window.new ≡ written window.old 0 (take n (drop from window.old)) }
{
    window.copy_within(from..from + n, 0);
}

// Moves the unread bytes to the front and reads once behind them. Answers how many bytes the window then has: the unread ones, and behind them what the reader
// gave. A read that fails gives nothing.
pub fn refill<R: Read>(reader: &mut R, window: &mut [u8], at: usize, have: usize) -> usize
    requires { (at ≤ have) × (have ≤ length window.old) }
    ensures within { result ≤ length window.new }
    ensures more { have - at ≤ result }
    ensures kept { take (have - at) window.new ≡ take (have - at) (drop at window.old) }
    ensures read { Consumes (R.remaining reader.old) (R.remaining reader.new) (slice_range window.new (have - at) result) }
{
    let n = have - at;
    keep(window, at, n);
    n + reader.read(&mut window[n..]).unwrap_or(0)
}
