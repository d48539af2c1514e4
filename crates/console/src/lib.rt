// The wardens' console, every call in one place: requests built from plain choices, and responses read back. It stands above the library and knows
// only its contracts: of the library its code uses the types of `wire` alone. Each call takes any bytes and any numbers and answers: a refusal, which
// changes no lent byte, or what was built or read. What the console and the library agree on is in specs/Promises.antt.
#![tactic(auto)]

// Why no request is built, or no response read.
pub use console_orders::Refusal;

// 93h: the zones of a run of phys.
pub use console_zones::phy_zones;

// C1h: permission between two groups, and whole rows.
pub use console_orders::single;
pub use console_rows::batch;

// 51h: a report.
pub use console_orders::report;

// A response.
pub use console_reading::{Heard, read};
