// What both C boundaries share: each call over the row width, with its numbers and answers as the headers have them. Every number that C
// could narrow silently comes as 32 bits and is clamped, never truncated.
#![tactic(auto)]

ghost use Rattle.std.specs.Prelude.{◌≡◌, [], ◌∷◌, min};
ghost use Rattle.permit.specs.Permission.{Width};
ghost use Rattle.tables.specs.Refusals.{first_refusal};
ghost use Rattle.tables.specs.Outcome.{refusal};
ghost use Rattle.tables.specs.Numbers.{number};
ghost use Rattle.links.specs.Links.{start_up_out, leaving_out, identify_front};
ghost use Rattle.election.specs.Election.{elected_as, elect_out};
ghost use Rattle.opens.specs.Open.{values_of, open_out};
ghost use Rattle.broadcasts.specs.Broadcasts.{primitive_out, broadcast_out};
ghost use Rattle.smp.specs.Smp.{answered_as};
ghost use Rattle.boundary.specs.C.{given, fields, InFields, in_c, or_else, elected_fields, opened_fields, told_fields, answered_fields, bytes_fit, identify_out_c, all_fit, counted, smp_out_c};

use discover::Changes;
use election::Supervisor;
use opens::Opened;
use smp::Answered;
use tables::refusal::Refusal;
use tables::{NO_BUFFERS, NO_OTHER_TABLES, NOT_READY};
use wire::PhyNumber;

// The answers' fields stand in the headers' order: C reads them by place.
#[repr(C)]
#[derive(Clone, Copy, Debug, PartialEq, Eq)]
pub struct ElectedC {
    pub refusal: u32,
    pub priority: u32,
    pub address: u64,
}

#[repr(C)]
#[derive(Clone, Copy, Debug, PartialEq, Eq)]
pub struct OpenedC {
    pub refusal: u32,
    pub outcome: u32,
    pub phy: u32,
}

#[repr(C)]
#[derive(Clone, Copy, Debug, PartialEq, Eq)]
pub struct ToldC {
    pub refusal: u32,
    pub count: u32,
}

#[repr(C)]
#[derive(Clone, Copy, Debug, PartialEq, Eq)]
pub struct AnsweredC {
    pub refusal: u32,
    pub result: u32,
    pub length: u32,
    pub count: u32,
}

// A number over 255 becomes 255: as a phy it is not below the number of phys, as a primitive's number it is over 7.
pub fn byte_of(n: u32) -> u8
    ensures { result ≡ min n 255 }
{
    n.min(255) as u8
}

pub fn phy_of(n: u32) -> PhyNumber
    ensures { result.0 ≡ min n 255 }
{
    PhyNumber(byte_of(n))
}

// A refusal's number, as the answers have it.
fn refusal_c<E: Into<u8>>(refusal: E) -> u32
    ensures { E.converts refusal result }
{
    let number: u8 = refusal.into();
    number as u32
}

// The same of a named refusal, for the answers of SMP, of imports and of loads. It is not inlined, so that the table in which the compiler looks
// the numbers up is in an archive once.
#[inline(never)]
pub fn number_of(why: Refusal) -> u8
    ensures { result ≡ number why }
{
    u8::from(why)
}

// The three that are public take a refusal by name or as a bare number: who calls them from Rattle may have no more than the number.
pub fn linked_c<E: Into<u8>>(linked: Result<(), E>) -> u32
    ensures { InFields 0 E.converts (λ _. []) linked (result ∷ []) }
{
    match linked {
        Ok(()) => 0,
        Err(refusal) => refusal_c(refusal),
    }
}

fn elected_c(elected: Result<Supervisor, Refusal>) -> ElectedC
    ensures { elected_fields result ≡ fields 2 (elected_as elected) }
{
    match elected {
        Ok(elected) => ElectedC {
            refusal: 0,
            priority: elected.priority as u32,
            address: elected.address,
        },
        Err(refusal) => ElectedC {
            refusal: refusal_c(refusal),
            priority: 0,
            address: 0,
        },
    }
}

// The outcomes have document 01's numbers.
pub fn opened_c<E: Into<u8>>(opened: Result<Opened, E>) -> OpenedC
    ensures { InFields 2 E.converts values_of opened (opened_fields result) }
{
    match opened {
        Ok(Opened::NoDestination) => OpenedC {
            refusal: 0,
            outcome: 1,
            phy: 0,
        },
        Ok(Opened::BadDestination) => OpenedC {
            refusal: 0,
            outcome: 2,
            phy: 0,
        },
        Ok(Opened::ZoneViolation) => OpenedC {
            refusal: 0,
            outcome: 3,
            phy: 0,
        },
        Ok(Opened::Forward(p)) => OpenedC {
            refusal: 0,
            outcome: 4,
            phy: p.0 as u32,
        },
        Err(refusal) => OpenedC {
            refusal: refusal_c(refusal),
            outcome: 0,
            phy: 0,
        },
    }
}

pub fn told_c<E: Into<u8>>(told: Result<u8, E>) -> ToldC
    ensures { InFields 1 E.converts (λ n. n ∷ []) told (told_fields result) }
{
    match told {
        Ok(count) => ToldC {
            refusal: 0,
            count: count as u32,
        },
        Err(refusal) => ToldC {
            refusal: refusal_c(refusal),
            count: 0,
        },
    }
}

fn answered_c(answered: Result<Answered, Refusal>) -> AnsweredC
    ensures { answered_fields result ≡ fields 3 (answered_as answered) }
{
    match answered {
        Ok(answered) => AnsweredC {
            refusal: 0,
            result: u8::from(answered.result) as u32,
            length: answered.length as u32,
            count: answered.told as u32,
        },
        Err(refusal) => AnsweredC {
            refusal: number_of(refusal) as u32,
            result: 0,
            length: 0,
            count: 0,
        },
    }
}

pub fn start_up_c(width: usize, permissions: &mut [u8]) -> u32
    requires { Width width }
    ensures { given (result ∷ []) (permissions.new ∷ []) ≡ in_c 0 (start_up_out width permissions.old) }
{
    linked_c(links::start_up_at(width, permissions))
}

pub fn leaving_c(phys: &mut [u8], phy: u32) -> u32
    ensures { given (result ∷ []) (phys.new ∷ []) ≡ in_c 0 (leaving_out phys.old phy) }
{
    linked_c(links::leaving(phys, phy_of(phy)))
}

// What the boundary itself refuses of IDENTIFY, as `own`: but only after what the header puts before it.
fn identify_refused(phys: &[u8], phy: PhyNumber, own: Refusal) -> u32
    ensures { result ∷ [] ≡ fields 0 (refusal (or_else (first_refusal (identify_front phys.now phy.0)) (number own))) }
{
    let front = tables::check_arrival(phys, phy, NO_OTHER_TABLES, NO_BUFFERS, NOT_READY);
    linked_c(front.and(Err(own)))
}

fn bytes_fit(device: u32, attached: u32) -> bool
    ensures { result ≡ bytes_fit device attached }
{
    (device <= 255) & (attached <= 255)
}

// The library takes eight bytes of an address, and bytes for the other two.
pub fn identify_c(phys: &mut [u8], phy: u32, address: &[u8], device: u32, attached: u32) -> u32
    ensures { given (result ∷ []) (phys.new ∷ []) ≡ in_c 0 (identify_out_c phys.old phy address.now device attached) }
{
    let p = phy_of(phy);
    if address.len() != 8 {
        return identify_refused(phys, p, Refusal::WrongLength);
    }
    if !bytes_fit(device, attached) {
        return identify_refused(phys, p, Refusal::WrongField);
    }
    let whole = wire::eight(address);
    linked_c(links::identify(phys, p, &whole, byte_of(device), byte_of(attached)))
}

pub fn elect_c(phys: &[u8], routes: &[u8]) -> ElectedC
    ensures { given (elected_fields result) [] ≡ in_c 2 (elect_out phys.now routes.now) }
{
    elected_c(election::elect(phys, routes))
}

pub fn open_c(
    width: usize,
    phys: &[u8],
    routes: &[u8],
    permissions: &[u8],
    phy: u32,
    frame: &[u8],
    buffer: &mut [u8],
) -> OpenedC
    requires { Width width }
    ensures { given (opened_fields result) (buffer.new ∷ []) ≡ in_c 2 (open_out width phys.now routes.now permissions.now phy frame.now buffer.old) }
{
    opened_c(opens::open_at(width, phys, routes, permissions, phy_of(phy), frame, buffer))
}

pub fn primitive_c(
    width: usize,
    phys: &[u8],
    permissions: &[u8],
    phy: u32,
    number: u32,
    set: &mut [u8],
    frame: &mut [u8],
) -> ToldC
    requires { Width width }
    ensures { given (told_fields result) (set.new ∷ frame.new ∷ []) ≡ in_c 1 (primitive_out width phys.now permissions.now phy number set.old frame.old) }
{
    told_c(broadcasts::primitive_at(
        width,
        phys,
        permissions,
        phy_of(phy),
        byte_of(number),
        set,
        frame,
    ))
}

pub fn broadcast_frame_c(
    width: usize,
    phys: &[u8],
    permissions: &[u8],
    phy: u32,
    arrived: &[u8],
    set: &mut [u8],
    frame: &mut [u8],
) -> ToldC
    requires { Width width }
    ensures { given (told_fields result) (set.new ∷ frame.new ∷ []) ≡ in_c 1 (broadcast_out width phys.now permissions.now phy arrived.now set.old frame.old) }
{
    told_c(broadcasts::broadcast_frame_at(
        width,
        phys,
        permissions,
        phy_of(phy),
        arrived,
        set,
        frame,
    ))
}

fn all_fit(carried: u32, expander: u32, count: u32) -> bool
    ensures { result ≡ all_fit carried (counted expander count) }
{
    (carried <= 255) & ((expander <= 65535) & (count <= 255))
}

// Neither `carried` nor a count is clamped: on a phy that is not participating 255 is answered, and so is every count that fits. A wider number
// is refused as 5 after every other cause; the byte that the checks get in its place can only add another 5.
pub fn smp_c(
    width: usize,
    phys: &mut [u8],
    permissions: &mut [u8],
    phy: u32,
    carried: u32,
    expander: u32,
    count: u32,
    request: &[u8],
    response: &mut [u8],
    set: &mut [u8],
) -> AnsweredC
    requires { Width width }
    ensures { given (answered_fields result) (phys.new ∷ permissions.new ∷ response.new ∷ set.new ∷ []) ≡ in_c 3 (smp_out_c width phys.old permissions.old phy carried (counted expander count) request.now response.old set.old) }
{
    let p = phy_of(phy);
    if !all_fit(carried, expander, count) {
        let room = (1020 <= response.len()) & (16 <= set.len());
        let front = smp::check_smp(width, phys, permissions, p, 255, request, room);
        return answered_c(front.and(Err(Refusal::WrongField)));
    }
    let changes = Changes {
        expander: expander as u16,
        phy: byte_of(count),
    };
    answered_c(smp::smp_at(
        width,
        phys,
        permissions,
        p,
        byte_of(carried),
        changes,
        request,
        response,
        set,
    ))
}
