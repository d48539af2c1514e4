// What both C boundaries share of sheets: each call over the row width, with its numbers and answers as the headers have them.
#![tactic(auto)]

ghost use Rattle.std.specs.Prelude.{◌≡◌, [], ◌∷◌};
ghost use Rattle.permit.specs.Permission.{Width};
ghost use Rattle.imports.specs.Import.{imported_as};
ghost use Rattle.exports.specs.Export.{exported_as, export_out};
ghost use Rattle.boundary.specs.C.{given, fields, in_c};
ghost use Rattle.boundary_sheets.specs.SheetsC.{imported_fields, exported_fields, import_out_c};

use imports::Imported;
use tables::refusal::Refusal;

// The answers' fields stand in the headers' order: C reads them by place.
#[repr(C)]
#[derive(Clone, Copy)]
pub struct ImportedC {
    pub refusal: u32,
    pub lines: u32,
    pub cause: u32,
}

#[repr(C)]
#[derive(Clone, Copy)]
pub struct ExportedC {
    pub refusal: u32,
    pub length: u32,
}

fn imported_c(imported: Result<Imported, Refusal>) -> ImportedC
    ensures { imported_fields result ≡ fields 2 (imported_as imported) }
{
    match imported {
        Ok(Imported::Stopped(number, cause)) => ImportedC {
            refusal: 0,
            lines: number,
            cause: u8::from(cause) as u32,
        },
        Ok(Imported::Whole(lines)) => ImportedC {
            refusal: 0,
            lines,
            cause: 0,
        },
        Err(refusal) => ImportedC {
            refusal: boundary::number_of(refusal) as u32,
            lines: 0,
            cause: 0,
        },
    }
}

fn exported_c(exported: Result<u32, Refusal>) -> ExportedC
    ensures { exported_fields result ≡ fields 1 (exported_as exported) }
{
    match exported {
        Ok(bytes) => ExportedC {
            refusal: 0,
            length: bytes,
        },
        Err(refusal) => ExportedC {
            refusal: u8::from(refusal) as u32,
            length: 0,
        },
    }
}

// `carried` is not clamped: on a phy that is not participating 255 is answered. A wider number is refused as 5 after every other cause; the
// byte that the checks get in its place can only add another 5.
pub fn import_c(
    width: usize,
    phys: &[u8],
    permissions: &mut [u8],
    phy: u32,
    carried: u32,
    sheet: &[u8],
) -> ImportedC
    requires { Width width }
    ensures { given (imported_fields result) (permissions.new ∷ []) ≡ in_c 2 (import_out_c width phys.now permissions.old phy carried sheet.now) }
{
    let p = boundary::phy_of(phy);
    if 255 < carried {
        let checked = imports::check_import(width, phys, permissions, p, 255, sheet.len());
        return imported_c(checked.and(Err(Refusal::WrongField)));
    }
    imported_c(imports::import_sheet_at(
        width,
        phys,
        permissions,
        p,
        boundary::byte_of(carried),
        sheet,
    ))
}

pub fn export_c(width: usize, permissions: &[u8], sheet: &mut [u8]) -> ExportedC
    requires { Width width }
    ensures { given (exported_fields result) (sheet.new ∷ []) ≡ in_c 1 (export_out width permissions.now sheet.old) }
{
    exported_c(exports::export_sheet_at(width, permissions, sheet))
}
