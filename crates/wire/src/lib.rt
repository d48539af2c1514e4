// What stands on the wire and in every lent table: phy numbers, zone groups, addresses and sets of phys.
#![tactic(auto)]

ghost use Rattle.std.specs.Prelude.{◌≡◌, ◌++◌, ◌+◌, ◌<◌, ◌≤◌, length, take, drop, replicate};
ghost use Rattle.std.proofs.Math.Seq.{paste};
ghost use Rattle.wire.specs.Groups.{group_of, outside_group};
ghost use Rattle.wire.specs.Address.{big_endian, address_at};
ghost use Rattle.wire.specs.PhySet.{phys_in};

// Both are below 128, and neither is accepted in the other's place: so each is a type of its own.
#[derive(Clone, Copy, Debug, PartialEq, Eq)]
pub struct PhyNumber(pub u8);

#[derive(Clone, Copy, Debug, PartialEq, Eq)]
pub struct ZoneGroup(pub u8);

// The group of OPEN byte 20 and of a phy record's byte 1.
pub fn group_of(b: u8) -> ZoneGroup
    ensures { result.0 ≡ group_of b }
{
    ZoneGroup(b % 128)
}

// What a byte from outside names: the group carried for SMP, a broadcast frame's byte 3 and a route record's byte 9. A shelf that is joined may
// number its groups to 255, and above 127 there is none here.
pub fn outside_group(b: u8) -> Option<ZoneGroup>
    ensures { result ≡ outside_group b }
{
    if 127 < b { None } else { Some(ZoneGroup(b)) }
}

// A byte as a number to count or point with. A cast of what is just read from a buffer is a call, since that is how it is proved.
pub fn index(b: u8) -> usize
    ensures { (result ≡ b) × (result < 256) }
{
    b as usize
}

// Two bytes, the higher first.
pub fn two_at(bytes: &[u8], at: usize) -> u64
    requires { at + 2 ≤ length bytes.now }
    ensures { (result ≡ big_endian bytes.now 2 at 0) × (result < 65536) }
{
    u16::from_be_bytes([bytes[at], bytes[at + 1]]) as u64
}

// Four bytes, as two halves.
pub fn four_at(bytes: &[u8], at: usize) -> u64
    requires { at + 4 ≤ length bytes.now }
    ensures { (result ≡ big_endian bytes.now 4 at 0) × (result < 4294967296) }
{
    two_at(bytes, at) * 65536 + two_at(bytes, at + 2)
}

// Copies n bytes of `source` from byte `from` on into `target` at byte `at`.
pub fn copy(target: &mut [u8], at: usize, source: &[u8], from: usize, n: usize)
    requires { (at + n ≤ length target.old) × (from + n ≤ length source.now) }
    ensures { target.new ≡ paste target.old at (drop from source.now) n }
{
    // By hand: of so many bytes as only the call knows the library's copy is a call of C's memmove, which the firmware has not.
    for k in 0..n {
        target[at + k] = source[from + k];
    }
}

// The first n bytes become zero.
pub fn clear(target: &mut [u8], n: usize)
    requires { n ≤ length target.old }
    ensures { target.new ≡ replicate n 0 ++ drop n target.old }
{
    target[..n].fill(0);
}

// The eight bytes from `at` on. Of such a copy a compiler makes one load, where eight bytes read one by one stay eight loads as soon
// as they are used twice.
fn eight_at(bytes: &[u8], at: usize) -> [u8; 8]
    requires { at + 8 ≤ length bytes.now }
    ensures { result ≡ take 8 (drop at bytes.now) }
{
    let mut eight: [u8; 8] = [0; 8];
    copy(&mut eight, 0, bytes, at, 8);
    eight
}

// The address in the eight bytes from `at` on: of their copy, so that it is one load and a byte swap.
pub fn address_at(bytes: &[u8], at: usize) -> u64
    requires { at + 8 ≤ length bytes.now }
    ensures { result ≡ address_at bytes.now at }
{
    u64::from_be_bytes(eight_at(bytes, at))
}

// Eight bytes as the array that IDENTIFY is handed.
pub fn eight(bytes: &[u8]) -> [u8; 8]
    requires { length bytes.now ≡ 8 }
    ensures { result ≡ bytes.now }
{
    eight_at(bytes, 0)
}

// How many phys the set's first sixteen bytes hold.
pub fn phys_in(set: &[u8]) -> u8
    requires { 16 ≤ length set.now }
    ensures { result ≡ phys_in set.now }
{
    let mut count: u32 = 0;
    for byte in &set[..16] {
        count += byte.count_ones();
    }
    count as u8
}
