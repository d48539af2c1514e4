// Broadcasts: a primitive, or a broadcast frame, arrives on a phy.
#![tactic(auto)]

ghost use Rattle.std.specs.Prelude.{◌≡◌, true, [], ◌∷◌, ◌++◌, ◌<◌, ◌≤◌, length, drop};
ghost use Rattle.permit.specs.Permission.{permissions_sized, Width};
ghost use Rattle.tables.specs.Refusals.{first_refusal};
ghost use Rattle.tables.specs.Arrival.{arrival_checks};
ghost use Rattle.tables.specs.Outcome.{out};
ghost use Rattle.tables.specs.Numbers.{refused};
ghost use Rattle.tables.specs.Phys.{phy_group};
ghost use Rattle.broadcasts.specs.Broadcasts.{told_as, frame_of, primitive_checks, primitive_out, announced, typed_length, type_checks, carried_checks, frame_source, frame_number, broadcast_out};
ghost use Rattle.broadcasts.specs.Inner.{Lent, Announced};

use tables::READY;
use tables::refusal::Refusal;
use wire::{PhyNumber, ZoneGroup};

// The refusals of a primitive, in document 01's order.
fn check_primitive(
    width: usize,
    phys: &[u8],
    permissions: &[u8],
    phy: PhyNumber,
    number: u8,
    room: bool,
) -> Result<(), Refusal>
    requires { Width width }
    ensures { refused result ≡ first_refusal (primitive_checks width phys.now permissions.now phy.0 number room) }
{
    let sizes = permit::permissions_sized(width, permissions);
    tables::check_arrival(phys, phy, sizes, room, READY)?;
    if 7 < number {
        return Err(Refusal::WrongField);
    }
    Ok(())
}

// The length that an arriving frame's type asks for.
fn typed_length(arrived: &[u8]) -> usize
    requires { 0 < length arrived.now }
    ensures { result ≡ typed_length arrived.now }
{
    match arrived[0] % 16 {
        2 => 28,
        3 => 4,
        _ => arrived.len(),
    }
}

// What an arriving frame's length and type are refused for.
fn check_frame(
    width: usize,
    phys: &[u8],
    permissions: &[u8],
    phy: PhyNumber,
    arrived: &[u8],
    room: bool,
) -> Result<(), Refusal>
    requires { Width width }
    ensures { refused result ≡ first_refusal (arrival_checks phys.now phy.0 (permissions_sized width permissions.now) room true ++ type_checks arrived.now) }
{
    let sizes = permit::permissions_sized(width, permissions);
    tables::check_arrival(phys, phy, sizes, room, READY)?;
    if arrived.len() == 0 {
        return Err(Refusal::WrongLength);
    }
    if arrived.len() != typed_length(arrived) {
        return Err(Refusal::WrongLength);
    }
    if arrived[0] % 16 < 2 {
        return Err(Refusal::WrongField);
    }
    if 3 < arrived[0] % 16 {
        return Err(Refusal::WrongField);
    }
    Ok(())
}

// The type 2h frame, written whole.
fn write_frame(number: u8, source: ZoneGroup, frame: &mut [u8])
    requires { (number < 8) × (28 ≤ length frame.old) }
    ensures { frame.new ≡ frame_of number source.0 ++ drop 28 frame.old }
{
    wire::clear(frame, 28);
    frame[0] = number * 16 + 2;
    frame[3] = source.0;
}

// What both calls do where nothing is refused. A group is below 128: said once more to the compiler, it knows that document 01's table holds
// the source, and asks that of no phy.
fn announce(
    width: usize,
    phys: &[u8],
    permissions: &[u8],
    phy: PhyNumber,
    source: ZoneGroup,
    number: u8,
    set: &mut [u8],
    frame: &mut [u8],
) -> u8
    requires { Lent width phys.now permissions.now phy.0 set.old frame.old × (source.0 < 128) × (number < 8) }
    ensures { Announced width phys.now permissions.now phy.0 source.0 number set.old frame.old result set.new frame.new }
{
    let group = wire::group_of(source.0);
    told_set::write_told_set(width, phys, permissions, phy, group, set);
    write_frame(number, group, frame);
    wire::phys_in(set)
}

// A primitive that is not refused: the phy record's group is speaking.
fn relay_primitive(
    width: usize,
    phys: &[u8],
    permissions: &[u8],
    phy: PhyNumber,
    number: u8,
    set: &mut [u8],
    frame: &mut [u8],
) -> u8
    requires { Lent width phys.now permissions.now phy.0 set.old frame.old × (number < 8) }
    ensures { Announced width phys.now permissions.now phy.0 (phy_group phys.now phy.0) number set.old frame.old result set.new frame.new }
{
    let source = tables::phy_group(phys, phy);
    announce(width, phys, permissions, phy, source, number, set, frame)
}

// A frame of the right length and type: on a participating phy the group carried in its byte 3 is speaking.
fn relay_frame(
    width: usize,
    phys: &[u8],
    permissions: &[u8],
    phy: PhyNumber,
    arrived: &[u8],
    set: &mut [u8],
    frame: &mut [u8],
) -> Result<u8, Refusal>
    requires { Lent width phys.now permissions.now phy.0 set.old frame.old × (4 ≤ length arrived.now) }
    ensures { out (told_as result) (set.new ∷ frame.new ∷ []) ≡ announced width (first_refusal (carried_checks phys.now phy.0 arrived.now)) phys.now permissions.now phy.0 (frame_source arrived.now) (frame_number arrived.now) set.old frame.old }
{
    if !tables::is_participating(phys, phy) {
        return Err(Refusal::NotParticipating);
    }
    let source = wire::outside_group(arrived[3]).ok_or(Refusal::WrongField)?;
    let number = arrived[0] / 16 % 8;
    Ok(announce(width, phys, permissions, phy, source, number, set, frame))
}

// A primitive arrives on a phy: how many phys are told. The permission table has rows of `width` bytes.
pub fn primitive_at(
    width: usize,
    phys: &[u8],
    permissions: &[u8],
    phy: PhyNumber,
    number: u8,
    set: &mut [u8],
    frame: &mut [u8],
) -> Result<u8, Refusal>
    requires { Width width }
    ensures { out (told_as result) (set.new ∷ frame.new ∷ []) ≡ primitive_out width phys.now permissions.now phy.0 number set.old frame.old }
{
    let room = (16 <= set.len()) & (28 <= frame.len());
    check_primitive(width, phys, permissions, phy, number, room)?;
    Ok(relay_primitive(width, phys, permissions, phy, number, set, frame))
}

// A primitive arrives on a phy; the table is document 01's.
pub fn primitive(
    phys: &[u8],
    permissions: &[u8],
    phy: PhyNumber,
    number: u8,
    set: &mut [u8],
    frame: &mut [u8],
) -> Result<u8, Refusal>
    ensures { out (told_as result) (set.new ∷ frame.new ∷ []) ≡ primitive_out 16 phys.now permissions.now phy.0 number set.old frame.old }
{
    primitive_at(16, phys, permissions, phy, number, set, frame)
}

// A broadcast frame arrives on a phy: how many phys are told. The permission table has rows of `width` bytes.
pub fn broadcast_frame_at(
    width: usize,
    phys: &[u8],
    permissions: &[u8],
    phy: PhyNumber,
    arrived: &[u8],
    set: &mut [u8],
    frame: &mut [u8],
) -> Result<u8, Refusal>
    requires { Width width }
    ensures { out (told_as result) (set.new ∷ frame.new ∷ []) ≡ broadcast_out width phys.now permissions.now phy.0 arrived.now set.old frame.old }
{
    let room = (16 <= set.len()) & (28 <= frame.len());
    check_frame(width, phys, permissions, phy, arrived, room)?;
    relay_frame(width, phys, permissions, phy, arrived, set, frame)
}

// A broadcast frame arrives on a phy; the table is document 01's.
pub fn broadcast_frame(
    phys: &[u8],
    permissions: &[u8],
    phy: PhyNumber,
    arrived: &[u8],
    set: &mut [u8],
    frame: &mut [u8],
) -> Result<u8, Refusal>
    ensures { out (told_as result) (set.new ∷ frame.new ∷ []) ≡ broadcast_out 16 phys.now permissions.now phy.0 arrived.now set.old frame.old }
{
    broadcast_frame_at(16, phys, permissions, phy, arrived, set, frame)
}
