// Zone sheets: both calls in one place, and what is promised of them, specs/Promises.antt.
#![tactic(auto)]

pub use exports::{export_sheet, export_sheet_at};
pub use imports::cause::Cause;
pub use imports::{Imported, import_sheet, import_sheet_at};
