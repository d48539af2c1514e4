// Saved zoning, version 1: the permission table as a file, and back.
#![tactic(auto)]

ghost use Rattle.std.specs.Prelude.{◌≡◌, true, [], ◌∷◌, ◌*◌, ◌≤◌, length};
ghost use Rattle.permit.specs.Permission.{Width, Table};
ghost use Rattle.tables.specs.Refusals.{first_refusal};
ghost use Rattle.tables.specs.Outcome.{out};
ghost use Rattle.tables.specs.Numbers.{refused};
ghost use Rattle.lines.specs.Written.{Wrote};
ghost use Rattle.file_pairs.specs.Pairs.{ascending, loaded};
ghost use Rattle.file_trailer.specs.Trailer.{count_of, pairs_in};
ghost use Rattle.file_trailer.specs.Answers.{saved_as, loaded_as};
ghost use Rattle.version_1.specs.Version1.{file_of, save_checks, save_out, pairs_checks, load_checks, load_out, Holding};

use file_trailer::{FILE_ROOM, TRAILER, Version};
use tables::refusal::Refusal;

fn check_save(width: usize, permissions: &[u8], room: usize) -> Result<(), Refusal>
    requires { Width width }
    ensures { refused result ≡ first_refusal (save_checks width permissions.now room) }
{
    if !permit::permissions_sized(width, permissions) {
        return Err(Refusal::WrongSize);
    }
    if room < FILE_ROOM {
        return Err(Refusal::NoRoom);
    }
    if !file_pairs::is_described(width, permissions) {
        return Err(Refusal::PermissionsNotAsDescribed);
    }
    Ok(())
}

fn write_file(width: usize, permissions: &[u8], file: &mut [u8]) -> usize
    requires { Table width permissions.now × (16400 ≤ length file.old) }
    ensures { Wrote file.old 0 (file_of width permissions.now) result file.new }
{
    let end = file_pairs::put_pairs(width, permissions, file);
    file_trailer::put_trailer(1, (end / 2) as u16, (end + TRAILER) as u32, file, end)
}

// Writes the permission table's file and answers its length.
pub fn save_version_1_at(width: usize, permissions: &[u8], file: &mut [u8]) -> Result<u32, Refusal>
    requires { Width width }
    ensures { out (saved_as result) (file.new ∷ []) ≡ save_out width permissions.now file.old }
{
    check_save(width, permissions, file.len())?;
    let end = write_file(width, permissions, file);
    Ok(end as u32)
}

// Where the records end.
pub fn pairs_end(file: &[u8]) -> usize
    requires { Holding file.now }
    ensures { (result ≡ 2 * count_of file.now) × (result ≤ length file.now) }
{
    (2 * file_trailer::count_of(file)) as usize
}

// Every record is judged before any is carried out.
pub fn are_pairs_ascending(width: usize, file: &[u8]) -> bool
    requires { Width width × Holding file.now }
    ensures { result ≡ ascending width 0 (pairs_in file.now) }
{
    let end = pairs_end(file);
    file_pairs::is_ascending(width, &file[0..end])
}

// What a file of version 1 is refused for, by either reader.
pub fn check_pairs(width: usize, file: &[u8]) -> Result<(), Refusal>
    requires { Width width × (12 ≤ length file.now) }
    ensures { refused result ≡ first_refusal (pairs_checks width file.now) }
{
    file_trailer::check_lengths(file, TRAILER as u64)?;
    if !are_pairs_ascending(width, file) {
        return Err(Refusal::BadPair);
    }
    Ok(())
}

fn check_load(width: usize, permissions: &[u8], file: &[u8]) -> Result<(), Refusal>
    requires { Width width }
    ensures { refused result ≡ first_refusal (load_checks width permissions.now file.now) }
{
    if !permit::permissions_sized(width, permissions) {
        return Err(Refusal::WrongSize);
    }
    if file.len() < TRAILER {
        return Err(Refusal::TooShort);
    }
    let version = file_trailer::version_of(file);
    if version == 2 {
        return Err(Refusal::IsVersion2);
    }
    if version != 1 {
        return Err(Refusal::VersionUnknown);
    }
    check_pairs(width, file)
}

// Start-up, and then a switch-on of each listed pair.
pub fn restore_pairs(width: usize, permissions: &mut [u8], file: &[u8])
    requires { Table width permissions.old × Holding file.now × (ascending width 0 (pairs_in file.now) ≡ true) }
    ensures { permissions.new ≡ loaded width (pairs_in file.now) }
{
    let end = pairs_end(file);
    permit::start_table(width, permissions);
    file_pairs::switch_on(width, permissions, &file[0..end]);
}

// Reads the permission table back from a file.
pub fn load_version_1_at(
    width: usize,
    permissions: &mut [u8],
    file: &[u8],
) -> Result<Version, Refusal>
    requires { Width width }
    ensures { out (loaded_as result) (permissions.new ∷ []) ≡ load_out width permissions.old file.now }
{
    check_load(width, permissions, file)?;
    restore_pairs(width, permissions, file);
    Ok(Version::One)
}

// Document 01's shelf.
pub fn save_version_1(permissions: &[u8], file: &mut [u8]) -> Result<u32, Refusal>
    ensures { out (saved_as result) (file.new ∷ []) ≡ save_out 16 permissions.now file.old }
{
    save_version_1_at(16, permissions, file)
}

pub fn load_version_1(permissions: &mut [u8], file: &[u8]) -> Result<Version, Refusal>
    ensures { out (loaded_as result) (permissions.new ∷ []) ≡ load_out 16 permissions.old file.now }
{
    load_version_1_at(16, permissions, file)
}
