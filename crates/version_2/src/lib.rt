// Saved zoning, version 2: the permission table and the phys' zones as a file, and back.
#![tactic(auto)]

ghost use Rattle.std.specs.Prelude.{◌≡◌, true, [], ◌∷◌, ◌+◌, ◌*◌, ◌≤◌, ◌<◌, length};
ghost use Rattle.permit.specs.Permission.{Width, Table};
ghost use Rattle.tables.specs.Refusals.{first_refusal};
ghost use Rattle.tables.specs.Outcome.{out};
ghost use Rattle.tables.specs.Numbers.{refused};
ghost use Rattle.tables.specs.Phys.{phy_record, phy_count};
ghost use Rattle.lines.specs.Written.{Wrote};
ghost use Rattle.file_phys.specs.Block.{numbered, all_writable, rezoned};
ghost use Rattle.file_trailer.specs.Trailer.{count_of};
ghost use Rattle.file_trailer.specs.Answers.{saved_as, loaded_as};
ghost use Rattle.version_2.specs.Version2.{whole_file_of, save_whole_checks, save_whole_out, phys_of, block_in, block_checks, whole_checks, version_checks, load_whole_checks, load_whole_out, Measured};

use file_trailer::{FILE_ROOM, TRAILER, Version};
use tables::PHY_RECORD;
use tables::refusal::Refusal;

// The bytes of the trailer, with the count of phys at its front.
const WHOLE_TRAILER: usize = 14;

fn check_save(width: usize, phys: &[u8], permissions: &[u8], room: usize) -> Result<(), Refusal>
    requires { Width width }
    ensures { refused result ≡ first_refusal (save_whole_checks width phys.now permissions.now room) }
{
    if !tables::phys_sized(phys) {
        return Err(Refusal::WrongSize);
    }
    if !permit::permissions_sized(width, permissions) {
        return Err(Refusal::WrongSize);
    }
    if room < FILE_ROOM {
        return Err(Refusal::NoRoom);
    }
    if !file_pairs::is_described(width, permissions) {
        return Err(Refusal::PermissionsNotAsDescribed);
    }
    if !file_phys::are_phys_writable(width, phys) {
        return Err(Refusal::PhysNotAsDescribed);
    }
    Ok(())
}

fn write_file(width: usize, phys: &[u8], permissions: &[u8], file: &mut [u8]) -> usize
    requires { Table width permissions.now × (length phys.now ≤ 128 * phy_record) × (16400 ≤ length file.old) }
    ensures { Wrote file.old 0 (whole_file_of width phys.now permissions.now) result file.new }
{
    let count = phys.len() / PHY_RECORD;
    let pairs = file_pairs::put_pairs(width, permissions, file);
    let block = file_phys::put_phys(phys, file, pairs);
    let counted = file_trailer::put_two(count as u16, file, block);
    file_trailer::put_trailer(
        2,
        (pairs / 2) as u16,
        (pairs + (3 * count + WHOLE_TRAILER)) as u32,
        file,
        counted,
    )
}

// Writes the file of both tables and answers its length.
pub fn save_version_2_at(
    width: usize,
    phys: &[u8],
    permissions: &[u8],
    file: &mut [u8],
) -> Result<u32, Refusal>
    requires { Width width }
    ensures { out (saved_as result) (file.new ∷ []) ≡ save_whole_out width phys.now permissions.now file.old }
{
    check_save(width, phys, permissions, file.len())?;
    let end = write_file(width, phys, permissions, file);
    Ok(end as u32)
}

// The count at the front of the trailer.
fn phys_of(file: &[u8]) -> u64
    requires { 14 ≤ length file.now }
    ensures { (result ≡ phys_of file.now) × (result < 65536) }
{
    wire::two_at(file, file.len() - WHOLE_TRAILER)
}

// Where the block of phys ends.
fn block_end(file: &[u8]) -> usize
    requires { Measured file.now }
    ensures { (result ≡ 2 * count_of file.now + 3 * phys_of file.now) × (result ≤ length file.now) }
{
    file.len() - WHOLE_TRAILER
}

fn is_block_numbered(file: &[u8], count: usize) -> bool
    requires { Measured file.now }
    ensures { result ≡ numbered count 0 (block_in file.now) }
{
    let start = version_1::pairs_end(file);
    let end = block_end(file);
    file_phys::is_numbered(&file[start..end], count)
}

fn is_block_writable(width: usize, file: &[u8]) -> bool
    requires { Width width × Measured file.now }
    ensures { result ≡ all_writable width (block_in file.now) }
{
    let start = version_1::pairs_end(file);
    let end = block_end(file);
    file_phys::is_block_writable(width, &file[start..end])
}

// Each cause is looked for in the whole file before the next.
fn check_block(width: usize, phys: &[u8], file: &[u8]) -> Result<(), Refusal>
    requires { Width width × Measured file.now }
    ensures { refused result ≡ first_refusal (block_checks width phys.now file.now) }
{
    let count = phys.len() / PHY_RECORD;
    if phys_of(file) != count as u64 {
        return Err(Refusal::PhyCountDisagrees);
    }
    if !version_1::are_pairs_ascending(width, file) {
        return Err(Refusal::BadPair);
    }
    if !is_block_numbered(file, count) {
        return Err(Refusal::BadPhy);
    }
    if !is_block_writable(width, file) {
        return Err(Refusal::BadZone);
    }
    Ok(())
}

fn check_whole(width: usize, phys: &[u8], file: &[u8]) -> Result<(), Refusal>
    requires { Width width × (12 ≤ length file.now) }
    ensures { refused result ≡ first_refusal (whole_checks width phys.now file.now) }
{
    if file.len() < WHOLE_TRAILER {
        return Err(Refusal::LengthsDisagree);
    }
    file_trailer::check_lengths(file, 3 * phys_of(file) + WHOLE_TRAILER as u64)?;
    check_block(width, phys, file)
}

// A file of version 1 is judged as by its own reader.
fn check_version(width: usize, phys: &[u8], file: &[u8]) -> Result<(), Refusal>
    requires { Width width × (12 ≤ length file.now) }
    ensures { refused result ≡ first_refusal (version_checks width phys.now file.now) }
{
    let version = file_trailer::version_of(file);
    if version == 1 {
        return version_1::check_pairs(width, file);
    }
    if version != 2 {
        return Err(Refusal::VersionUnknown);
    }
    check_whole(width, phys, file)
}

fn check_load(width: usize, phys: &[u8], permissions: &[u8], file: &[u8]) -> Result<(), Refusal>
    requires { Width width }
    ensures { refused result ≡ first_refusal (load_whole_checks width phys.now permissions.now file.now) }
{
    if !tables::phys_sized(phys) {
        return Err(Refusal::WrongSize);
    }
    if !permit::permissions_sized(width, permissions) {
        return Err(Refusal::WrongSize);
    }
    if file.len() < TRAILER {
        return Err(Refusal::TooShort);
    }
    check_version(width, phys, file)
}

fn restore_phys(phys: &mut [u8], file: &[u8])
    requires { Measured file.now × (numbered (phy_count phys.old) 0 (block_in file.now) ≡ true) }
    ensures { phys.new ≡ rezoned phys.old (block_in file.now) }
{
    let start = version_1::pairs_end(file);
    let end = block_end(file);
    file_phys::write_zones(phys, &file[start..end]);
}

// Reads both tables back from a file; from one of version 1 the permission table alone.
pub fn load_version_2_at(
    width: usize,
    phys: &mut [u8],
    permissions: &mut [u8],
    file: &[u8],
) -> Result<Version, Refusal>
    requires { Width width }
    ensures { out (loaded_as result) (phys.new ∷ permissions.new ∷ []) ≡ load_whole_out width phys.old permissions.old file.now }
{
    check_load(width, phys, permissions, file)?;
    version_1::restore_pairs(width, permissions, file);
    if file_trailer::version_of(file) == 1 {
        return Ok(Version::One);
    }
    restore_phys(phys, file);
    Ok(Version::Two)
}

// Document 01's shelf.
pub fn save_version_2(phys: &[u8], permissions: &[u8], file: &mut [u8]) -> Result<u32, Refusal>
    ensures { out (saved_as result) (file.new ∷ []) ≡ save_whole_out 16 phys.now permissions.now file.old }
{
    save_version_2_at(16, phys, permissions, file)
}

pub fn load_version_2(
    phys: &mut [u8],
    permissions: &mut [u8],
    file: &[u8],
) -> Result<Version, Refusal>
    ensures { out (loaded_as result) (phys.new ∷ permissions.new ∷ []) ≡ load_whole_out 16 phys.old permissions.old file.now }
{
    load_version_2_at(16, phys, permissions, file)
}
