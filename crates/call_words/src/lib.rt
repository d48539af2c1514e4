// The words that each call gives at the bench, put into a text.
#![tactic(auto)]

ghost use Rattle.std.specs.Prelude.{cond, List, ◌∷◌, ℕ, ◌+◌, ◌≤◌, eqb, length};
ghost use Rattle.tables.specs.Numbers.{number};
ghost use Rattle.links.specs.Links.{linked_as};
ghost use Rattle.opens.specs.Open.{values_of};
ghost use Rattle.broadcasts.specs.Broadcasts.{told_as};
ghost use Rattle.lines.specs.Text.{space, decimal};
ghost use Rattle.lines.specs.Words.{X, words, outcome_words, told_words, link_words};
ghost use Rattle.lines.specs.Written.{Wrote};
ghost use Rattle.call_words.specs.Gives.{smp_gives, open_gives, primitive_gives, broadcast_gives, identify_gives, leaving_gives, unknown};
ghost use Rattle.call_words.specs.Inner.{Gave};

use discover::Changes;
use opens::Opened;
use tables::refusal::Refusal;
use wire::PhyNumber;

// The type of every device that is attached at the bench.
const DEVICE: u8 = 1;

// Which of its phys is attached.
const ATTACHED: u8 = 0;

// The words of any call that is refused.
fn refusal_words(refusal: Refusal, text: &mut [u8], at: usize) -> usize
    requires { at + 31 ≤ length text.old }
    ensures { Wrote text.old at (X ∷ space ∷ decimal (number refusal)) result text.new × (result ≤ at + 31) }
{
    lines::put_count(b'X', u8::from(refusal), text, at)
}

// The words of an SMP request. The bench counts no changes.
pub fn smp_words(
    phys: &mut [u8],
    permissions: &mut [u8],
    phy: PhyNumber,
    carried: u8,
    payload: &[u8],
    text: &mut [u8],
    at: usize,
) -> usize
    requires { at + 31 ≤ length text.old }
    ensures { Gave (smp_gives phys.old permissions.old phy.0 carried payload.now) text.old at result text.new phys.new permissions.new }
{
    let mut response = [0u8; 1020];
    let mut set = [0u8; 16];
    let answered = smp::smp(
        phys,
        permissions,
        phy,
        carried,
        Changes {
            expander: 0,
            phy: 0,
        },
        payload,
        &mut response,
        &mut set,
    );
    match answered {
        Ok(a) => lines::put_reply(u8::from(a.result), a.length, a.told, text, at),
        Err(why) => refusal_words(why, text, at),
    }
}

// The words of what becomes of an OPEN that is not refused.
fn outcome_words(outcome: Opened, text: &mut [u8], at: usize) -> usize
    requires { at + 31 ≤ length text.old }
    ensures { Wrote text.old at (outcome_words (values_of outcome)) result text.new × (result ≤ at + 31) }
{
    match outcome {
        Opened::NoDestination => lines::put_bytes(b"O ND", text, at),
        Opened::BadDestination => lines::put_bytes(b"O BD", text, at),
        Opened::ZoneViolation => lines::put_bytes(b"O ZV", text, at),
        Opened::Forward(phy) => lines::put_forward(phy.0, text, at),
    }
}

// The words of an OPEN. The rack has no routes.
pub fn open_words(
    phys: &[u8],
    permissions: &[u8],
    phy: PhyNumber,
    payload: &[u8],
    text: &mut [u8],
    at: usize,
) -> usize
    requires { at + 31 ≤ length text.old }
    ensures { Gave (open_gives phys.now permissions.now phy.0 payload.now) text.old at result text.new phys.now permissions.now }
{
    let routes = [0u8; 0];
    let mut frame = [0u8; 28];
    let opened = opens::open(phys, &routes, permissions, phy, payload, &mut frame);
    match opened {
        Ok(outcome) => outcome_words(outcome, text, at),
        Err(refusal) => refusal_words(refusal, text, at),
    }
}

// The words of what either broadcast call answers.
fn told_words(told: Result<u8, Refusal>, text: &mut [u8], at: usize) -> usize
    requires { at + 31 ≤ length text.old }
    ensures { Wrote text.old at (words told_words (told_as told)) result text.new × (result ≤ at + 31) }
{
    match told {
        Ok(n) => lines::put_count(b'B', n, text, at),
        Err(refusal) => refusal_words(refusal, text, at),
    }
}

// The words of a primitive.
pub fn primitive_words(
    phys: &[u8],
    permissions: &[u8],
    phy: PhyNumber,
    payload: &[u8],
    text: &mut [u8],
    at: usize,
) -> usize
    requires { at + 31 ≤ length text.old }
    ensures { Gave (cond (eqb (length payload.now) 1) (primitive_gives phys.now permissions.now phy.0 payload.now) (unknown phys.now permissions.now)) text.old at result text.new phys.now permissions.now }
{
    let [number] = payload else {
        return lines::put_byte(b'K', text, at);
    };
    let mut set = [0u8; 16];
    let mut frame = [0u8; 28];
    let told = broadcasts::primitive(phys, permissions, phy, *number, &mut set, &mut frame);
    told_words(told, text, at)
}

// The words of a broadcast frame.
pub fn frame_words(
    phys: &[u8],
    permissions: &[u8],
    phy: PhyNumber,
    payload: &[u8],
    text: &mut [u8],
    at: usize,
) -> usize
    requires { at + 31 ≤ length text.old }
    ensures { Gave (broadcast_gives phys.now permissions.now phy.0 payload.now) text.old at result text.new phys.now permissions.now }
{
    let mut set = [0u8; 16];
    let mut frame = [0u8; 28];
    let told = broadcasts::broadcast_frame(phys, permissions, phy, payload, &mut set, &mut frame);
    told_words(told, text, at)
}

// The words of what either link call answers.
fn linked_words(linked: Result<(), Refusal>, text: &mut [u8], at: usize) -> usize
    requires { at + 31 ≤ length text.old }
    ensures { Wrote text.old at (words link_words (linked_as linked)) result text.new × (result ≤ at + 31) }
{
    match linked {
        Ok(()) => lines::put_byte(b'L', text, at),
        Err(refusal) => refusal_words(refusal, text, at),
    }
}

// The words of a phy that leaves the ready state; whatever the permission table is, it stays.
pub fn leaving_words(
    phys: &mut [u8],
    phy: PhyNumber,
    payload: &[u8],
    text: &mut [u8],
    at: usize,
) -> usize
    requires { at + 31 ≤ length text.old }
    ensures { (permissions : List ℕ) → Gave (cond (eqb (length payload.now) 0) (leaving_gives phys.old permissions phy.0) (unknown phys.old permissions)) text.old at result text.new phys.new permissions }
{
    if !payload.is_empty() {
        return lines::put_byte(b'K', text, at);
    }
    let linked = links::leaving(phys, phy);
    linked_words(linked, text, at)
}

// The words of IDENTIFY, which is handed in as an 8-byte address; whatever the permission table is, it stays.
pub fn identify_words(
    phys: &mut [u8],
    phy: PhyNumber,
    payload: &[u8],
    text: &mut [u8],
    at: usize,
) -> usize
    requires { at + 31 ≤ length text.old }
    ensures { (permissions : List ℕ) → Gave (cond (eqb (length payload.now) 8) (identify_gives phys.old permissions phy.0 payload.now) (unknown phys.old permissions)) text.old at result text.new phys.new permissions }
{
    let Ok(address) = <[u8; 8]>::try_from(payload) else {
        return lines::put_byte(b'K', text, at);
    };
    let linked = links::identify(phys, phy, &address, DEVICE, ATTACHED);
    linked_words(linked, text, at)
}
