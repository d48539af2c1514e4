// The pairs of a saved file: its records, and whether a table is one that they can give back.
#![tactic(auto)]

ghost use Rattle.std.specs.Prelude.{◌≡◌, ◌+◌, ◌%◌, ◌≤◌, ◌<◌, length};
ghost use Rattle.permit.specs.Permission.{groups, Width, Table};
ghost use Rattle.permit.specs.History.{Valid};
ghost use Rattle.permit.specs.Orders.{apply};
ghost use Rattle.lines.specs.Written.{Wrote};
ghost use Rattle.file_pairs.specs.Pairs.{pair_record, row_records, pairs_of, code, in_place, ascending, orders_of};
ghost use Rattle.file_pairs.specs.Described.{fair, fair_row, described};

use wire::ZoneGroup;

// A record where the two groups are permitted, else nothing.
fn put_pair(
    width: usize,
    permissions: &[u8],
    a: ZoneGroup,
    b: ZoneGroup,
    file: &mut [u8],
    at: usize,
) -> usize
    requires { Table width permissions.now × (a.0 < groups width) × (b.0 < groups width) × (at + length (pair_record width permissions.now a.0 b.0) ≤ length file.old) }
    ensures { Wrote file.old at (pair_record width permissions.now a.0 b.0) result file.new }
{
    if !permit::permitted(width, permissions, a, b) {
        return at;
    }
    file[at] = a.0;
    file[at + 1] = b.0;
    at + 2
}

// A group with itself and every higher one. The other crate that puts pairs has the like of this loop: one for both would ask of the function that
// it is handed all that put_pair's contract says.
fn put_row(width: usize, permissions: &[u8], a: ZoneGroup, file: &mut [u8], at: usize) -> usize
    requires { Table width permissions.now × (a.0 < groups width) × (at + length (row_records width permissions.now a.0) ≤ length file.old) }
    ensures { Wrote file.old at (row_records width permissions.now a.0) result file.new }
{
    let groups = (8 * width) as u8;
    let mut end = at;
    for b in a.0..groups {
        end = put_pair(width, permissions, a, ZoneGroup(b), file, end);
    }
    end
}

// Every record, from byte 0 on; answers where they end.
pub fn put_pairs(width: usize, permissions: &[u8], file: &mut [u8]) -> usize
    requires { Table width permissions.now × (length (pairs_of width permissions.now) ≤ length file.old) }
    ensures { Wrote file.old 0 (pairs_of width permissions.now) result file.new }
{
    let groups = (8 * width) as u8;
    let mut end: usize = 0;
    for a in 2..groups {
        end = put_row(width, permissions, ZoneGroup(a), file, end);
    }
    end
}

// Whether the table is mutual for a and b, and for groups 0 and 1 as at start-up.
fn is_fair(width: usize, permissions: &[u8], a: ZoneGroup, b: ZoneGroup) -> bool
    requires { Table width permissions.now × (a.0 < groups width) × (b.0 < groups width) }
    ensures { result ≡ fair width permissions.now a.0 b.0 }
{
    let on = permit::permitted(width, permissions, a, b);
    if on != permit::permitted(width, permissions, b, a) {
        return false;
    }
    if 2 <= a.0 {
        return true;
    }
    on == permit::one_is_group_1(a.0 as usize, b.0 as usize)
}

fn is_row_fair(width: usize, permissions: &[u8], a: ZoneGroup) -> bool
    requires { Table width permissions.now × (a.0 < groups width) }
    ensures { result ≡ fair_row width permissions.now a.0 }
{
    let groups = (8 * width) as u8;
    for b in a.0..groups {
        if !is_fair(width, permissions, a, ZoneGroup(b)) {
            return false;
        }
    }
    true
}

// Whether the table is one that a file gives back.
pub fn is_described(width: usize, permissions: &[u8]) -> bool
    requires { Table width permissions.now }
    ensures { result ≡ described width permissions.now }
{
    let groups = (8 * width) as u8;
    for a in 0..groups {
        if !is_row_fair(width, permissions, ZoneGroup(a)) {
            return false;
        }
    }
    true
}

// The number of a pair.
fn code(a: u8, b: u8) -> u16
    ensures { (result ≡ code a b) × (result < 65536) }
{
    128 * (a as u16) + (b as u16)
}

// Whether a record is in range, and not below the number `low`.
fn is_in_place(width: usize, low: u16, a: u8, b: u8) -> bool
    requires { Width width }
    ensures { result ≡ in_place width low a b }
{
    (2 <= a) & ((a <= b) & (((b as usize) < 8 * width) & (low <= code(a, b))))
}

// Every record is judged before any is carried out. It does not stop at the first that is out of place: with a branch less
// in each step it is faster. It is not inlined: its loop's constants are then in an archive once, not in each load.
#[inline(never)]
pub fn is_ascending(width: usize, records: &[u8]) -> bool
    requires { Width width × (length records.now % 2 ≡ 0) }
    ensures { result ≡ ascending width 0 records.now }
{
    let mut good = true;
    let mut low: u16 = 0;
    for record in records.chunks_exact(2) {
        let a = record[0];
        let b = record[1];
        good = good & is_in_place(width, low, a, b);
        low = code(a, b) + 1;
    }
    good
}

// Switches each pair on.
pub fn switch_on(width: usize, permissions: &mut [u8], records: &[u8])
    requires { Table width permissions.old × (length records.now % 2 ≡ 0) × Valid width (orders_of records.now) }
    ensures { permissions.new ≡ apply width (orders_of records.now) permissions.old }
{
    for record in records.chunks_exact(2) {
        permit::write_both(
            width,
            permissions,
            ZoneGroup(record[0]),
            ZoneGroup(record[1]),
            true,
        );
    }
}
