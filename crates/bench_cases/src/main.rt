// Runs the events of each file that an argument names, each on a fresh bench rack, and writes the name before its lines.
#![tactic(auto)]

use std::env::Env;
use std::fmt::InlineText;
use std::fs::File;
use std::io;
use std::io::{Error, ErrorKind, Write};
use std::str::from_utf8;

// A path of the library is text.
fn open(rt: &HostRuntime, path: &[u8]) -> io::Result<File> {
    let text = from_utf8(path).map_err(|_| Error::from(ErrorKind::InvalidFilename))?;
    File::open(rt, text)
}

// The system's words for why a call failed, without the number that the library puts behind them.
fn without_number(said: &str) -> &str {
    match said.split_once(" (os error ") {
        Some((words, _)) => words,
        None => said,
    }
}

// Says why a file can't be opened.
fn fail<W: Write>(path: &[u8], error: Error, errors: &mut W) {
    let said = InlineText::<256>::of(error);
    let _ = errors.write_all(path);
    let _ = errors.write_all(b": ");
    let _ = errors.write_all(without_number(said.as_str()).as_bytes());
    let _ = errors.write_all(b"\n");
}

// Runs the events of one file. A write that fails is passed over, as the bench does.
fn one_file(rt: &HostRuntime, i: usize) -> bool {
    let mut name = [0u8; 4096];
    let n = rt.arg(i, &mut name).unwrap_or(0);
    let path = &name[..n];
    if path.is_empty() {
        return false;
    }
    let mut file = match open(rt, path) {
        Ok(file) => file,
        Err(error) => {
            fail(path, error, &mut rt.stderr());
            return false;
        }
    };
    let mut output = rt.stdout();
    let _ = output.write_all(b"== ");
    let _ = output.write_all(path);
    let _ = output.write_all(b"\n");
    bench_run::run(&mut file, &mut output);
    true
}

fn main(rt: HostRuntime) {
    for i in 1..1000 {
        if !one_file(&rt, i) {
            break;
        }
    }
}
