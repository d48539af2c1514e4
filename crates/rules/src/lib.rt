// The function byte picks one of four rules.
#![tactic(auto)]

ghost use Rattle.std.specs.Prelude.{◌≡◌, ◌≤◌, ◌<◌, ltb, length};
ghost use Rattle.permit.specs.Permission.{Table};
ghost use Rattle.tables.specs.Phys.{phy_count};
ghost use Rattle.requests.specs.Results.{number};
ghost use Rattle.requests.specs.Requests.{Lent, Leaves};
ghost use Rattle.rules.specs.Rules.{function_of, smp_reply, length_field};

use discover::{Changes, discover};
use phy_zone::configure_phy_zone;
use requests::{FunctionResult, Ruled};
use wire::PhyNumber;
use zone_permission::configure_zone_permission;
use zone_report::report_zone_permission;

// Whether the response's length field would pass 255. Only a report's could, so no count is asked for.
pub fn too_long(
    width: usize,
    phys: &[u8],
    permissions: &[u8],
    phy: PhyNumber,
    carried: u8,
    request: &[u8],
) -> bool
    requires { (phy.0 < phy_count phys.now) × Table width permissions.now × (4 ≤ length request.now) }
    ensures { (changes : Changes) → result ≡ ltb 255 (length_field width phys.now permissions.now phy.0 carried changes request.now) }
{
    let function = request[1];
    match function {
        0x51 => 255 < zone_report::report_dwords(width, phys, permissions, phy, carried, request),
        _ => false,
    }
}

// One of four rules; any other function byte is unknown. Only DISCOVER shows the change counts.
pub fn rule(
    width: usize,
    phys: &mut [u8],
    permissions: &mut [u8],
    phy: PhyNumber,
    carried: u8,
    changes: Changes,
    request: &[u8],
    response: &mut [u8],
    set: &mut [u8],
) -> Ruled
    requires { Lent width phys.old permissions.old phy.0 (length request.now) (length response.old) (length set.old) }
    ensures { Leaves (function_of request.now) (smp_reply width phys.old permissions.old phy.0 carried changes request.now) response.old set.old (number result.result) result.written phys.new permissions.new response.new set.new }
{
    let function = request[1];
    match function {
        0x93 => configure_phy_zone(
            width,
            phys,
            permissions,
            phy,
            carried,
            request,
            response,
            set,
        ),
        0xc1 => configure_zone_permission(
            width,
            phys,
            permissions,
            phy,
            carried,
            request,
            response,
            set,
        ),
        0x51 => report_zone_permission(
            width,
            phys,
            permissions,
            phy,
            carried,
            request,
            response,
            set,
        ),
        0x10 => discover(
            width,
            phys,
            permissions,
            phy,
            carried,
            changes,
            request,
            response,
            set,
        ),
        _ => requests::turn_down(function, FunctionResult::UnknownFunction, response, set),
    }
}
