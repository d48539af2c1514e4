// What both C boundaries share of saved files: each call over the row width, with its answers as the headers have them. No number is handed in, so
// nothing is narrowed.
#![tactic(auto)]

ghost use Rattle.std.specs.Prelude.{◌≡◌, [], ◌∷◌};
ghost use Rattle.permit.specs.Permission.{Width};
ghost use Rattle.file_trailer.specs.Answers.{saved_as, loaded_as};
ghost use Rattle.version_1.specs.Version1.{save_out, load_out};
ghost use Rattle.version_2.specs.Version2.{save_whole_out, load_whole_out};
ghost use Rattle.boundary.specs.C.{given, fields, in_c};
ghost use Rattle.boundary_files.specs.FilesC.{saved_fields, loaded_fields};

use file_trailer::Version;
use tables::refusal::Refusal;

// The answers' fields stand in the headers' order: C reads them by place.
#[repr(C)]
#[derive(Clone, Copy)]
pub struct SavedC {
    pub refusal: u32,
    pub length: u32,
}

#[repr(C)]
#[derive(Clone, Copy)]
pub struct LoadedC {
    pub refusal: u32,
    pub version: u32,
}

fn saved_c(saved: Result<u32, Refusal>) -> SavedC
    ensures { saved_fields result ≡ fields 1 (saved_as saved) }
{
    match saved {
        Ok(bytes) => SavedC {
            refusal: 0,
            length: bytes,
        },
        Err(refusal) => SavedC {
            refusal: u8::from(refusal) as u32,
            length: 0,
        },
    }
}

fn loaded_c(loaded: Result<Version, Refusal>) -> LoadedC
    ensures { loaded_fields result ≡ fields 1 (loaded_as loaded) }
{
    match loaded {
        Ok(version) => LoadedC {
            refusal: 0,
            version: u16::from(version) as u32,
        },
        Err(refusal) => LoadedC {
            refusal: boundary::number_of(refusal) as u32,
            version: 0,
        },
    }
}

pub fn save_version_1_c(width: usize, permissions: &[u8], file: &mut [u8]) -> SavedC
    requires { Width width }
    ensures { given (saved_fields result) (file.new ∷ []) ≡ in_c 1 (save_out width permissions.now file.old) }
{
    saved_c(version_1::save_version_1_at(width, permissions, file))
}

pub fn save_version_2_c(width: usize, phys: &[u8], permissions: &[u8], file: &mut [u8]) -> SavedC
    requires { Width width }
    ensures { given (saved_fields result) (file.new ∷ []) ≡ in_c 1 (save_whole_out width phys.now permissions.now file.old) }
{
    saved_c(version_2::save_version_2_at(width, phys, permissions, file))
}

pub fn load_version_1_c(width: usize, permissions: &mut [u8], file: &[u8]) -> LoadedC
    requires { Width width }
    ensures { given (loaded_fields result) (permissions.new ∷ []) ≡ in_c 1 (load_out width permissions.old file.now) }
{
    loaded_c(version_1::load_version_1_at(width, permissions, file))
}

pub fn load_version_2_c(
    width: usize,
    phys: &mut [u8],
    permissions: &mut [u8],
    file: &[u8],
) -> LoadedC
    requires { Width width }
    ensures { given (loaded_fields result) (phys.new ∷ permissions.new ∷ []) ≡ in_c 1 (load_whole_out width phys.old permissions.old file.now) }
{
    loaded_c(version_2::load_version_2_at(width, phys, permissions, file))
}
