// Saved zoning: the calls of both versions in one place, and what is promised of them, specs/Promises.antt.
#![tactic(auto)]

pub use file_trailer::Version;
pub use version_1::{load_version_1, load_version_1_at, save_version_1, save_version_1_at};
pub use version_2::{load_version_2, load_version_2_at, save_version_2, save_version_2_at};
