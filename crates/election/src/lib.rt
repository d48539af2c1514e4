// The supervisor's election.
#![tactic(auto)]

ghost use Rattle.std.specs.Prelude.{◌≡◌, [], ◌*◌, ◌<◌, ◌≤◌, length};
ghost use Rattle.tables.specs.Refusals.{first_refusal};
ghost use Rattle.tables.specs.Outcome.{out};
ghost use Rattle.tables.specs.Numbers.{refused};
ghost use Rattle.tables.specs.Phys.{phy_record, phy_count};
ghost use Rattle.tables.specs.Routes.{route_count};
ghost use Rattle.election.specs.Election.{elected_as, fit, candidate, phy_candidate, phy_candidates, route_candidate, route_candidates, better, best, elected, elect_checks, elect_out};

use tables::refusal::Refusal;
use tables::{PHY_RECORD, ROUTE_RECORD};
use wire::PhyNumber;

// The best candidate so far. The order is that of the fields: higher priority wins, then the greater address. Two fields of one size: a gap
// between them would be copied at each step.
#[derive(Clone, Copy, Debug, PartialEq, Eq, PartialOrd, Ord)]
pub struct Candidate {
    pub priority: u64,
    pub address: u64,
}

// The elected supervisor; priority 0 and address 0 where nobody stands.
#[derive(Clone, Copy, Debug, PartialEq, Eq)]
pub struct Supervisor {
    pub priority: u8,
    pub address: u64,
}

// The refusals of an election: the sizes of both tables.
fn check_elect(phys: &[u8], routes: &[u8]) -> Result<(), Refusal>
    ensures { refused result ≡ first_refusal (elect_checks phys.now routes.now) }
{
    if !tables::phys_sized(phys) {
        return Err(Refusal::WrongSize);
    }
    if !tables::routes_sized(routes) {
        return Err(Refusal::WrongSize);
    }
    Ok(())
}

// The best candidate so far, lent: it becomes the better of itself and a candidate.
fn update(best: &mut Candidate, priority: u64, address: u64)
    ensures { best.new ≡ better (record { priority = priority; address = address }) best.old }
{
    *best = (*best).max(Candidate { priority, address });
}

// The one step of both loops: the best of b and a record whose priority is above 0.
fn consider(b: Candidate, priority: u64, address: u64) -> Candidate
    requires { 0 < priority }
    ensures { result ≡ best b (candidate (fit priority address) priority address) }
{
    if address == 0 {
        return b;
    }
    let mut best = b;
    update(&mut best, priority, address);
    best
}

// The best of b and a phy. Most phys have a lower priority than b, or 0: their address is not read.
fn with_phy(b: Candidate, phys: &[u8], phy: PhyNumber) -> Candidate
    requires { phy.0 < phy_count phys.now }
    ensures { result ≡ best b (phy_candidate phys.now phy.0) }
{
    if !tables::is_ready(phys, phy) {
        return b;
    }
    let priority = tables::phy_priority(phys, phy) as u64;
    if priority < b.priority {
        return b;
    }
    if priority == 0 {
        return b;
    }
    consider(b, priority, tables::phy_address(phys, phy))
}

// The best of b and a route record, likewise; one of no group is skipped.
fn with_route(b: Candidate, routes: &[u8], i: usize) -> Candidate
    requires { i < route_count routes.now }
    ensures { result ≡ best b (route_candidate routes.now i) }
{
    let priority = tables::route_priority(routes, i) as u64;
    if priority < b.priority {
        return b;
    }
    if priority == 0 {
        return b;
    }
    let Some(_) = tables::route_group(routes, i) else {
        return b;
    };
    consider(b, priority, tables::route_address(routes, i))
}

// The best of b and the phy table.
fn elect_phys(b: Candidate, phys: &[u8]) -> Candidate
    requires { length phys.now ≤ 128 * phy_record }
    ensures { result ≡ best b (phy_candidates phys.now 0 (phy_count phys.now)) }
{
    let count = phys.len() / PHY_RECORD;
    let mut so_far = b;
    for i in 0..count {
        so_far = with_phy(so_far, phys, PhyNumber(i as u8));
    }
    so_far
}

// The best of b and the route table.
fn elect_routes(b: Candidate, routes: &[u8]) -> Candidate
    ensures { result ≡ best b (route_candidates routes.now 0 (route_count routes.now)) }
{
    let count = routes.len() / ROUTE_RECORD;
    let mut so_far = b;
    for i in 0..count {
        so_far = with_route(so_far, routes, i);
    }
    so_far
}

// The phy table's best is carried into the route table.
fn elect_both(phys: &[u8], routes: &[u8]) -> Candidate
    requires { length phys.now ≤ 128 * phy_record }
    ensures { result ≡ elected phys.now routes.now }
{
    let nobody = Candidate {
        priority: 0,
        address: 0,
    };
    let of_phys = elect_phys(nobody, phys);
    elect_routes(of_phys, routes)
}

// The elected supervisor: the greatest candidate of both tables.
pub fn elect(phys: &[u8], routes: &[u8]) -> Result<Supervisor, Refusal>
    ensures { out (elected_as result) [] ≡ elect_out phys.now routes.now }
{
    check_elect(phys, routes)?;
    let best = elect_both(phys, routes);
    Ok(Supervisor {
        priority: best.priority as u8,
        address: best.address,
    })
}
