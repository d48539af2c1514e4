// Every public call of the zoning part, in one place. Each takes any bytes and any numbers, asks nothing of its caller, and answers a Result:
// a refusal, which changes no lent byte, or its values. The promises about them are in specs/Promises.antt.
#![tactic(auto)]

// Why a call is refused.
pub use tables::refusal::Refusal;

// Start-up writes the permission table.
pub use links::start_up;

// A phy leaves the ready state; IDENTIFY arrives on one.
pub use links::{identify, leaving};

// The elected supervisor.
pub use election::{Supervisor, elect};

// An OPEN frame arrives.
pub use opens::{Opened, open};

// A broadcast arrives, as a primitive or as a frame.
pub use broadcasts::{broadcast_frame, primitive};

// An SMP request arrives.
pub use requests::FunctionResult;
pub use smp::{Answered, smp};

// A sheet of orders is imported; the permission table is exported as one.
pub use exports::export_sheet;
pub use imports::cause::Cause;
pub use imports::{Imported, import_sheet};

// The tables are saved as a file, of version 1 or 2, and loaded from one.
pub use file_trailer::Version;
pub use version_1::{load_version_1, save_version_1};
pub use version_2::{load_version_2, save_version_2};
