// The shelf for C: include/shelf.h. All that is here is the row width, which is a constant of the archive.
#![tactic(auto)]

ghost use Rattle.std.specs.Prelude.{◌≡◌, [], ◌∷◌};
ghost use Rattle.links.specs.Links.{start_up_out, leaving_out};
ghost use Rattle.election.specs.Election.{elect_out};
ghost use Rattle.opens.specs.Open.{open_out};
ghost use Rattle.broadcasts.specs.Broadcasts.{primitive_out, broadcast_out};
ghost use Rattle.exports.specs.Export.{export_out};
ghost use Rattle.version_1.specs.Version1.{save_out, load_out};
ghost use Rattle.version_2.specs.Version2.{save_whole_out, load_whole_out};
ghost use Rattle.boundary.specs.C.{given, in_c, elected_fields, opened_fields, told_fields, answered_fields, identify_out_c, counted, smp_out_c};
ghost use Rattle.boundary_files.specs.FilesC.{saved_fields, loaded_fields};
ghost use Rattle.boundary_sheets.specs.SheetsC.{imported_fields, exported_fields, import_out_c};

use boundary::{AnsweredC, ElectedC, OpenedC, ToldC};
use boundary_files::{LoadedC, SavedC};
use boundary_sheets::{ExportedC, ImportedC};

#[unsafe(no_mangle)]
pub extern "C" fn shelf_start_up(permissions: &mut [u8]) -> u32
    ensures { given (result ∷ []) (permissions.new ∷ []) ≡ in_c 0 (start_up_out 16 permissions.old) }
{
    boundary::start_up_c(16, permissions)
}

#[unsafe(no_mangle)]
pub extern "C" fn shelf_leaving(phys: &mut [u8], phy: u32) -> u32
    ensures { given (result ∷ []) (phys.new ∷ []) ≡ in_c 0 (leaving_out phys.old phy) }
{
    boundary::leaving_c(phys, phy)
}

#[unsafe(no_mangle)]
pub extern "C" fn shelf_identify(
    phys: &mut [u8],
    phy: u32,
    address: &[u8],
    device: u32,
    attached: u32,
) -> u32
    ensures { given (result ∷ []) (phys.new ∷ []) ≡ in_c 0 (identify_out_c phys.old phy address.now device attached) }
{
    boundary::identify_c(phys, phy, address, device, attached)
}

#[unsafe(no_mangle)]
pub extern "C" fn shelf_elect(phys: &[u8], routes: &[u8]) -> ElectedC
    ensures { given (elected_fields result) [] ≡ in_c 2 (elect_out phys.now routes.now) }
{
    boundary::elect_c(phys, routes)
}

#[unsafe(no_mangle)]
pub extern "C" fn shelf_open(
    phys: &[u8],
    routes: &[u8],
    permissions: &[u8],
    phy: u32,
    frame: &[u8],
    buffer: &mut [u8],
) -> OpenedC
    ensures { given (opened_fields result) (buffer.new ∷ []) ≡ in_c 2 (open_out 16 phys.now routes.now permissions.now phy frame.now buffer.old) }
{
    boundary::open_c(16, phys, routes, permissions, phy, frame, buffer)
}

#[unsafe(no_mangle)]
pub extern "C" fn shelf_primitive(
    phys: &[u8],
    permissions: &[u8],
    phy: u32,
    number: u32,
    set: &mut [u8],
    frame: &mut [u8],
) -> ToldC
    ensures { given (told_fields result) (set.new ∷ frame.new ∷ []) ≡ in_c 1 (primitive_out 16 phys.now permissions.now phy number set.old frame.old) }
{
    boundary::primitive_c(16, phys, permissions, phy, number, set, frame)
}

#[unsafe(no_mangle)]
pub extern "C" fn shelf_broadcast_frame(
    phys: &[u8],
    permissions: &[u8],
    phy: u32,
    arrived: &[u8],
    set: &mut [u8],
    frame: &mut [u8],
) -> ToldC
    ensures { given (told_fields result) (set.new ∷ frame.new ∷ []) ≡ in_c 1 (broadcast_out 16 phys.now permissions.now phy arrived.now set.old frame.old) }
{
    boundary::broadcast_frame_c(16, phys, permissions, phy, arrived, set, frame)
}

#[unsafe(no_mangle)]
pub extern "C" fn shelf_smp(
    phys: &mut [u8],
    permissions: &mut [u8],
    phy: u32,
    carried: u32,
    expander: u32,
    count: u32,
    request: &[u8],
    response: &mut [u8],
    set: &mut [u8],
) -> AnsweredC
    ensures { given (answered_fields result) (phys.new ∷ permissions.new ∷ response.new ∷ set.new ∷ []) ≡ in_c 3 (smp_out_c 16 phys.old permissions.old phy carried (counted expander count) request.now response.old set.old) }
{
    boundary::smp_c(
        16,
        phys,
        permissions,
        phy,
        carried,
        expander,
        count,
        request,
        response,
        set,
    )
}

#[unsafe(no_mangle)]
pub extern "C" fn shelf_import(
    phys: &[u8],
    permissions: &mut [u8],
    phy: u32,
    carried: u32,
    sheet: &[u8],
) -> ImportedC
    ensures { given (imported_fields result) (permissions.new ∷ []) ≡ in_c 2 (import_out_c 16 phys.now permissions.old phy carried sheet.now) }
{
    boundary_sheets::import_c(16, phys, permissions, phy, carried, sheet)
}

#[unsafe(no_mangle)]
pub extern "C" fn shelf_export(permissions: &[u8], sheet: &mut [u8]) -> ExportedC
    ensures { given (exported_fields result) (sheet.new ∷ []) ≡ in_c 1 (export_out 16 permissions.now sheet.old) }
{
    boundary_sheets::export_c(16, permissions, sheet)
}

#[unsafe(no_mangle)]
pub extern "C" fn shelf_save_version_1(permissions: &[u8], file: &mut [u8]) -> SavedC
    ensures { given (saved_fields result) (file.new ∷ []) ≡ in_c 1 (save_out 16 permissions.now file.old) }
{
    boundary_files::save_version_1_c(16, permissions, file)
}

#[unsafe(no_mangle)]
pub extern "C" fn shelf_save_version_2(phys: &[u8], permissions: &[u8], file: &mut [u8]) -> SavedC
    ensures { given (saved_fields result) (file.new ∷ []) ≡ in_c 1 (save_whole_out 16 phys.now permissions.now file.old) }
{
    boundary_files::save_version_2_c(16, phys, permissions, file)
}

#[unsafe(no_mangle)]
pub extern "C" fn shelf_load_version_1(permissions: &mut [u8], file: &[u8]) -> LoadedC
    ensures { given (loaded_fields result) (permissions.new ∷ []) ≡ in_c 1 (load_out 16 permissions.old file.now) }
{
    boundary_files::load_version_1_c(16, permissions, file)
}

#[unsafe(no_mangle)]
pub extern "C" fn shelf_load_version_2(
    phys: &mut [u8],
    permissions: &mut [u8],
    file: &[u8],
) -> LoadedC
    ensures { given (loaded_fields result) (phys.new ∷ permissions.new ∷ []) ≡ in_c 1 (load_whole_out 16 phys.old permissions.old file.now) }
{
    boundary_files::load_version_2_c(16, phys, permissions, file)
}
