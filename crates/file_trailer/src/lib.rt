// The trailer of a saved file, and the version that a load answers.
#![tactic(auto)]

ghost use Rattle.std.specs.Prelude.{◌≡◌, ◌+◌, ◌*◌, ◌≤◌, ◌<◌, length};
ghost use Rattle.tables.specs.Refusals.{first_refusal};
ghost use Rattle.tables.specs.Numbers.{refused};
ghost use Rattle.lines.specs.Written.{Wrote};
ghost use Rattle.file_trailer.specs.Answers.{version_number};
ghost use Rattle.file_trailer.specs.Trailer.{two, four, trailer, version_of, count_of, offset_of, size_of, lengths_checks};

use tables::refusal::Refusal;

// The version of a file that was read.
#[derive(Clone, Copy, Debug, PartialEq, Eq)]
pub enum Version {
    One,
    Two,
}

impl From<Version> for u16 {
    ghost from_gives = { λ version n. n ≡ version_number version };

    fn from(version: Version) -> u16 {
        match version {
            Version::One => 1,
            Version::Two => 2,
        }
    }
}

// The bytes of the trailer that both versions have, and the room that both saves ask for.
pub const TRAILER: usize = 12;

pub const FILE_ROOM: usize = 16400;

// The higher byte first.
pub fn put_two(x: u16, file: &mut [u8], at: usize) -> usize
    requires { at + 2 ≤ length file.old }
    ensures { Wrote file.old at (two x) result file.new }
{
    lines::put_bytes(&x.to_be_bytes(), file, at)
}

fn put_four(number: u32, file: &mut [u8], at: usize) -> usize
    requires { at + 4 ≤ length file.old }
    ensures { Wrote file.old at (four number) result file.new }
{
    lines::put_bytes(&number.to_be_bytes(), file, at)
}

// The offset of the first record is 0.
pub fn put_trailer(version: u16, records: u16, size: u32, file: &mut [u8], at: usize) -> usize
    requires { at + 12 ≤ length file.old }
    ensures { Wrote file.old at (trailer version records 0 size) result file.new }
{
    let count = put_two(version, file, at);
    let offset = put_two(records, file, count);
    let length = put_four(0, file, offset);
    put_four(size, file, length)
}

pub fn version_of(file: &[u8]) -> u64
    requires { 12 ≤ length file.now }
    ensures { result ≡ version_of file.now }
{
    wire::two_at(file, file.len() - TRAILER)
}

pub fn count_of(file: &[u8]) -> u64
    requires { 12 ≤ length file.now }
    ensures { (result ≡ count_of file.now) × (result < 65536) }
{
    wire::two_at(file, file.len() - TRAILER + 2)
}

fn offset_of(file: &[u8]) -> u64
    requires { 12 ≤ length file.now }
    ensures { result ≡ offset_of file.now }
{
    wire::four_at(file, file.len() - TRAILER + 4)
}

fn size_of(file: &[u8]) -> u64
    requires { 12 ≤ length file.now }
    ensures { result ≡ size_of file.now }
{
    wire::four_at(file, file.len() - TRAILER + 8)
}

// Whether what the trailer says of the file's length, and of where the records begin, is so; `beside` bytes stand beside the records.
pub fn check_lengths(file: &[u8], beside: u64) -> Result<(), Refusal>
    requires { (12 ≤ length file.now) × (beside < 1000000) }
    ensures { refused result ≡ first_refusal (lengths_checks file.now beside) }
{
    if size_of(file) != file.len() as u64 {
        return Err(Refusal::LengthsDisagree);
    }
    if 2 * count_of(file) + beside != file.len() as u64 {
        return Err(Refusal::LengthsDisagree);
    }
    if offset_of(file) != 0 {
        return Err(Refusal::OffsetDisagrees);
    }
    Ok(())
}
