// The small shelf: groups 0 to 7, a permission table of 8 bytes. Every public call of the profile, in one place. The calls that are lent the
// permission table are document 01's at a row width of one byte; the others are document 01's own. What is promised of them is promised for
// every row width, in shelf/specs/Promises.antt; specs/Promises.antt says it in this shelf's numbers.
#![tactic(auto)]

ghost use Rattle.std.specs.Prelude.{◌≡◌, [], ◌∷◌};
ghost use Rattle.tables.specs.Outcome.{out};
ghost use Rattle.links.specs.Links.{linked_as, start_up_out};
ghost use Rattle.opens.specs.Open.{opened_as, open_out};
ghost use Rattle.broadcasts.specs.Broadcasts.{told_as, primitive_out, broadcast_out};
ghost use Rattle.smp.specs.Smp.{answered_as, smp_out};
ghost use Rattle.imports.specs.Import.{imported_as, import_out};
ghost use Rattle.exports.specs.Export.{exported_as, export_out};
ghost use Rattle.file_trailer.specs.Answers.{saved_as, loaded_as};
ghost use Rattle.version_1.specs.Version1.{save_out, load_out};
ghost use Rattle.version_2.specs.Version2.{save_whole_out, load_whole_out};

use discover::Changes;
use wire::PhyNumber;

// The answers, and why a call is refused.
pub use election::Supervisor;
pub use file_trailer::Version;
pub use imports::Imported;
pub use imports::cause::Cause;
pub use opens::Opened;
pub use requests::FunctionResult;
pub use smp::Answered;
pub use tables::refusal::Refusal;

// A phy leaves the ready state; IDENTIFY arrives on one; the elected supervisor.
pub use election::elect;
pub use links::{identify, leaving};

// The row width in bytes.
const WIDTH: usize = 1;

// Start-up writes the permission table.
pub fn start_up(permissions: &mut [u8]) -> Result<(), Refusal>
    ensures { out (linked_as result) (permissions.new ∷ []) ≡ start_up_out 1 permissions.old }
{
    links::start_up_at(WIDTH, permissions)
}

// An OPEN frame arrives.
pub fn open(
    phys: &[u8],
    routes: &[u8],
    permissions: &[u8],
    phy: PhyNumber,
    frame: &[u8],
    buffer: &mut [u8],
) -> Result<Opened, Refusal>
    ensures { out (opened_as result) (buffer.new ∷ []) ≡ open_out 1 phys.now routes.now permissions.now phy.0 frame.now buffer.old }
{
    opens::open_at(WIDTH, phys, routes, permissions, phy, frame, buffer)
}

// A broadcast arrives, as a primitive or as a frame.
pub fn primitive(
    phys: &[u8],
    permissions: &[u8],
    phy: PhyNumber,
    number: u8,
    set: &mut [u8],
    frame: &mut [u8],
) -> Result<u8, Refusal>
    ensures { out (told_as result) (set.new ∷ frame.new ∷ []) ≡ primitive_out 1 phys.now permissions.now phy.0 number set.old frame.old }
{
    broadcasts::primitive_at(WIDTH, phys, permissions, phy, number, set, frame)
}

pub fn broadcast_frame(
    phys: &[u8],
    permissions: &[u8],
    phy: PhyNumber,
    arrived: &[u8],
    set: &mut [u8],
    frame: &mut [u8],
) -> Result<u8, Refusal>
    ensures { out (told_as result) (set.new ∷ frame.new ∷ []) ≡ broadcast_out 1 phys.now permissions.now phy.0 arrived.now set.old frame.old }
{
    broadcasts::broadcast_frame_at(WIDTH, phys, permissions, phy, arrived, set, frame)
}

// An SMP request arrives.
pub fn smp(
    phys: &mut [u8],
    permissions: &mut [u8],
    phy: PhyNumber,
    carried: u8,
    changes: Changes,
    request: &[u8],
    response: &mut [u8],
    set: &mut [u8],
) -> Result<Answered, Refusal>
    ensures { out (answered_as result) (phys.new ∷ permissions.new ∷ response.new ∷ set.new ∷ []) ≡ smp_out 1 phys.old permissions.old phy.0 carried changes request.now response.old set.old }
{
    smp::smp_at(
        WIDTH,
        phys,
        permissions,
        phy,
        carried,
        changes,
        request,
        response,
        set,
    )
}

// A sheet of orders is imported; the permission table is exported as one.
pub fn import_sheet(
    phys: &[u8],
    permissions: &mut [u8],
    phy: PhyNumber,
    carried: u8,
    sheet: &[u8],
) -> Result<Imported, Refusal>
    ensures { out (imported_as result) (permissions.new ∷ []) ≡ import_out 1 phys.now permissions.old phy.0 carried sheet.now }
{
    imports::import_sheet_at(WIDTH, phys, permissions, phy, carried, sheet)
}

pub fn export_sheet(permissions: &[u8], sheet: &mut [u8]) -> Result<u32, Refusal>
    ensures { out (exported_as result) (sheet.new ∷ []) ≡ export_out 1 permissions.now sheet.old }
{
    exports::export_sheet_at(WIDTH, permissions, sheet)
}

// The tables are saved as a file, of version 1 or 2, and loaded from one.
pub fn save_version_1(permissions: &[u8], file: &mut [u8]) -> Result<u32, Refusal>
    ensures { out (saved_as result) (file.new ∷ []) ≡ save_out 1 permissions.now file.old }
{
    version_1::save_version_1_at(WIDTH, permissions, file)
}

pub fn save_version_2(phys: &[u8], permissions: &[u8], file: &mut [u8]) -> Result<u32, Refusal>
    ensures { out (saved_as result) (file.new ∷ []) ≡ save_whole_out 1 phys.now permissions.now file.old }
{
    version_2::save_version_2_at(WIDTH, phys, permissions, file)
}

pub fn load_version_1(permissions: &mut [u8], file: &[u8]) -> Result<Version, Refusal>
    ensures { out (loaded_as result) (permissions.new ∷ []) ≡ load_out 1 permissions.old file.now }
{
    version_1::load_version_1_at(WIDTH, permissions, file)
}

pub fn load_version_2(
    phys: &mut [u8],
    permissions: &mut [u8],
    file: &[u8],
) -> Result<Version, Refusal>
    ensures { out (loaded_as result) (phys.new ∷ permissions.new ∷ []) ≡ load_whole_out 1 phys.old permissions.old file.now }
{
    version_2::load_version_2_at(WIDTH, phys, permissions, file)
}
