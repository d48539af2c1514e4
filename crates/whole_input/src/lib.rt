// Standard input, read to its end, for the programs that answer one text to one input. What a caller lends is one byte longer than the longest input that it
// takes, so that the first bytes of a longer one are not taken for a whole input.
#![tactic(auto)]

ghost use Rattle.std.specs.Prelude.{◌<◌, ◌≤◌, length, take, IfOk};
ghost use Rattle.std.specs.Io.KnownBytes.{Consumes, IsAtEnd};
ghost use Rattle.whole_input.specs.Taken.{had};

use std::io::{Read, Write};

// A read failed, and what is there, so many bytes, is not the input.
#[derive(Clone, Copy, Debug, PartialEq, Eq)]
pub struct Unreadable {
    pub have: usize,
}

// Reads behind what is there, until a read brings nothing: answers how many bytes were read, to the input's end or to the array's.
pub fn take_input<R: Read>(reader: &mut R, input: &mut [u8]) -> Result<usize, Unreadable>
    ensures within { had result ≤ length input.new }
    ensures read { Consumes (R.remaining reader.old) (R.remaining reader.new) (take (had result) input.new) }
    ensures end { IfOk result (λ have. have < length input.new → IsAtEnd (R.remaining reader.new)) }
{
    let mut have: usize = 0;
    // By hand: the library's `read_to_end` wants a `Vec`, and `read_exact` does not say how much it read.
    while have < input.len() {
        match reader.read(&mut input[have..]) {
            Ok(0) => return Ok(have),
            Ok(more) => have += more,
            Err(_) => return Err(Unreadable { have }),
        }
    }
    Ok(have)
}

// Says that a read failed; where that cannot be written either, nothing is left to say it on.
pub fn say_unreadable<W: Write>(to: &mut W) {
    let _ = to.write_all(b"the input cannot be read\n");
}
