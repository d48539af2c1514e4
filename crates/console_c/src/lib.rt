// The console for C: include/console.h. Every number that C could narrow silently comes as 32 bits and is clamped, never truncated: 255 is above
// 127 as a group or a phy, and above 63 as a count.
#![tactic(auto)]

ghost use Rattle.std.specs.Prelude.{◌≡◌, [], ◌∷◌, min};
ghost use Rattle.boundary.specs.C.{given, fields, in_c};
ghost use Rattle.console_orders.specs.Building.{built_as, single_out, report_out};
ghost use Rattle.console_rows.specs.Batches.{batch_out};
ghost use Rattle.console_zones.specs.Zones.{phy_zones_out};
ghost use Rattle.console_reading.specs.Reading.{heard_as, read_out};
ghost use Rattle.console_c.specs.ConsoleC.{built_fields, heard_fields, yes};

use boundary::{byte_of, phy_of};
use console_orders::Refusal;
use console_reading::Heard;
use wire::ZoneGroup;

// The answers' fields stand in the header's order: C reads them by place.
#[repr(C)]
#[derive(Clone, Copy)]
pub struct BuiltC {
    pub refusal: u32,
    pub length: u32,
}

#[repr(C)]
#[derive(Clone, Copy)]
pub struct HeardC {
    pub refusal: u32,
    pub function: u32,
    pub result: u32,
    pub start: u32,
    pub count: u32,
}

fn built_c(built: Result<u16, Refusal>) -> BuiltC
    ensures { built_fields result ≡ fields 1 (built_as built) }
{
    match built {
        Err(refusal) => BuiltC {
            refusal: u8::from(refusal) as u32,
            length: 0,
        },
        Ok(length) => BuiltC {
            refusal: 0,
            length: length as u32,
        },
    }
}

fn heard_c(heard: Result<Heard, Refusal>) -> HeardC
    ensures { heard_fields result ≡ fields 4 (heard_as heard) }
{
    match heard {
        Err(refusal) => HeardC {
            refusal: u8::from(refusal) as u32,
            function: 0,
            result: 0,
            start: 0,
            count: 0,
        },
        Ok(Heard::Result(function, result)) => HeardC {
            refusal: 0,
            function: function as u32,
            result: result as u32,
            start: 0,
            count: 0,
        },
        Ok(Heard::Rows(start, count)) => HeardC {
            refusal: 0,
            function: 0x51,
            result: 0x00,
            start: start as u32,
            count: count as u32,
        },
    }
}

fn group_c(n: u32) -> ZoneGroup
    ensures { result.0 ≡ min n 255 }
{
    ZoneGroup(byte_of(n))
}

#[unsafe(no_mangle)]
pub extern "C" fn console_phy_zones(request: &mut [u8], first: u32, entries: &[u8]) -> BuiltC
    ensures { given (built_fields result) (request.new ∷ []) ≡ in_c 1 (phy_zones_out request.old first entries.now) }
{
    built_c(console_zones::phy_zones(request, phy_of(first), entries))
}

#[unsafe(no_mangle)]
pub extern "C" fn console_single(
    request: &mut [u8],
    a: u32,
    b: u32,
    on: u32,
    complete: u32,
) -> BuiltC
    ensures { given (built_fields result) (request.new ∷ []) ≡ in_c 1 (single_out request.old a b (yes on) (yes complete)) }
{
    built_c(console_orders::single(request, group_c(a), group_c(b), on != 0, complete != 0))
}

#[unsafe(no_mangle)]
pub extern "C" fn console_batch(
    request: &mut [u8],
    first: u32,
    choices: &[u8],
    complete: u32,
) -> BuiltC
    ensures { given (built_fields result) (request.new ∷ []) ≡ in_c 1 (batch_out request.old first choices.now (yes complete)) }
{
    built_c(console_rows::batch(request, group_c(first), choices, complete != 0))
}

#[unsafe(no_mangle)]
pub extern "C" fn console_report(request: &mut [u8], first: u32, count: u32) -> BuiltC
    ensures { given (built_fields result) (request.new ∷ []) ≡ in_c 1 (report_out request.old first count) }
{
    built_c(console_orders::report(request, group_c(first), byte_of(count)))
}

#[unsafe(no_mangle)]
pub extern "C" fn console_read(response: &[u8], rows: &mut [u8]) -> HeardC
    ensures { given (heard_fields result) (rows.new ∷ []) ≡ in_c 4 (read_out response.now rows.old) }
{
    heard_c(console_reading::read(response, rows))
}
