// A warden's program: `zonefile save` turns a sheet of orders on standard input into a version 1 file on standard output, `zonefile load` such a file into
// the sheet of its pairs. Why there is none stands on standard error, and then nothing on standard output.
#![tactic(auto)]

ghost use Rattle.std.specs.Prelude.{◌≤◌, length};

use std::env::{Env, FillError};
use std::io;
use std::io::Write;
use zonefile_text::Text;

// The word that the program was started with; an empty one where it was not one, or is longer than any that is known.
fn take_word<'a>(env: &impl Env, word: &'a mut [u8]) -> &'a [u8]
    ensures { length result.now ≤ length word.old }
{
    if has_more_words(env) {
        return &[];
    }
    let n = env.arg(1, word).unwrap_or(0);
    &word[..n]
}

// Whether there is a word behind the first.
fn has_more_words(env: &impl Env) -> bool {
    let mut second = [0u8; 1];
    !matches!(env.arg(2, &mut second), Err(FillError::NotPresent))
}

fn main(rt: HostRuntime) -> io::Result<()> {
    let mut room = [0u8; 16];
    let mut input = [0u8; 88012];
    let mut text = [0u8; 88011];
    let word = take_word(&rt, &mut room);
    let taken = if zonefile_text::is_way(word) {
        whole_input::take_input(&mut rt.stdin(), &mut input)
    } else {
        Ok(0)
    };
    let Ok(have) = taken else {
        whole_input::say_unreadable(&mut rt.stderr());
        return Ok(());
    };
    match zonefile_text::zone_text(word, &input[..have], &mut text) {
        Text::Output(end) => rt.stdout().write_all(&text[..end]),
        Text::Errors(end) => rt.stderr().write_all(&text[..end]),
    }
}
