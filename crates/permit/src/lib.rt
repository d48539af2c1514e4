// The permission table: rows of `width` bytes, one for each of 8 * width groups. In a row, group j is bit j mod 8 of byte width - 1 - j/8.
// Document 01's table is that of width 16: 2,048 bytes, row a at byte 16a. The small shelf's is that of width 1: 8 bytes.
#![tactic(auto)]

ghost use Rattle.std.specs.Prelude.{◌≡◌, ◌+◌, ◌*◌, ◌/◌, ◌%◌, ◌^◌, ◌-◌, ◌≤◌, ◌<◌, ◌||◌, eqb, length};
ghost use Rattle.permit.specs.Permission.{groups, table_size, permissions_sized, place, P, reaches, set_P, set_both, start_table, Width, Table, Whole};
ghost use Rattle.permit.specs.Masks.{Masked};
ghost use Rattle.permit.specs.Start.{Between, row_again};

use wire::ZoneGroup;

// The bit of a group within its byte, by itself: bit group mod 8.
pub fn mask(group: usize) -> u8
    ensures { result ≡ 2 ^ (group % 8) }
{
    1 << (group % 8)
}

// How many bytes the table has.
fn table_size(width: usize) -> usize
    requires { Width width }
    ensures { result ≡ table_size width }
{
    8 * width * width
}

// Whether the table has the size of a permission table.
pub fn permissions_sized(width: usize, permissions: &[u8]) -> bool
    requires { Width width }
    ensures { result ≡ permissions_sized width permissions.now }
{
    permissions.len() == table_size(width)
}

// Where a row begins.
pub fn row_at(width: usize, row: usize) -> usize
    requires { (1 ≤ width) × (width ≤ 16) × (row < groups width) }
    ensures { (result ≡ row * width) × (result + width ≤ table_size width) × (result ≤ 2048) }
{
    row * width
}

// The byte of a group in a row, from the row's end, so that a loop over one row's groups reckons the end once.
pub fn byte_at(width: usize, row: usize, group: usize) -> usize
    requires { (1 ≤ width) × (width ≤ 16) × (row < groups width) × (group < groups width) }
    ensures { (result ≡ place width row group) × (result < table_size width) }
{
    row_at(width, row) + width - 1 - group / 8
}

// Group `group` of row `row`: bit group mod 8 of its byte.
fn row_has(width: usize, permissions: &[u8], row: usize, group: usize) -> bool
    requires { Whole width permissions.now row group }
    ensures { result ≡ P width permissions.now row group }
{
    let at = byte_at(width, row, group);
    (permissions[at] >> (group % 8)) % 2 == 1
}

// What is said of two groups of which the table does not hold both.
pub fn one_is_group_1(row: usize, group: usize) -> bool
    ensures { result ≡ (eqb row 1 || eqb group 1) }
{
    (row == 1) | (group == 1)
}

// Whether a may reach b. A group that the table does not hold reaches group 1 alone, and is reached by it alone.
pub fn permitted(width: usize, permissions: &[u8], a: ZoneGroup, b: ZoneGroup) -> bool
    requires { Table width permissions.now }
    ensures { result ≡ reaches width permissions.now a.0 b.0 }
{
    let row = a.0 as usize;
    let group = b.0 as usize;
    if 8 * width <= row {
        return one_is_group_1(row, group);
    }
    if 8 * width <= group {
        return one_is_group_1(row, group);
    }
    row_has(width, permissions, row, group)
}

pub fn with_mask(x: u8, m: u8, on: bool) -> u8
    ensures { Masked x m on result }
{
    if on { x | m } else { x & !m }
}

fn write_one(width: usize, permissions: &mut [u8], a: ZoneGroup, b: ZoneGroup, on: bool)
    requires { Whole width permissions.old a.0 b.0 }
    ensures { permissions.new ≡ set_P width permissions.old a.0 b.0 on }
{
    let group = b.0 as usize;
    let at = byte_at(width, a.0 as usize, group);
    let m = mask(group);
    permissions[at] = with_mask(permissions[at], m, on);
}

// One single order: both places of the pair.
pub fn write_both(width: usize, permissions: &mut [u8], a: ZoneGroup, b: ZoneGroup, on: bool)
    requires { Whole width permissions.old a.0 b.0 }
    ensures { permissions.new ≡ set_both width permissions.old a.0 b.0 on }
{
    write_one(width, permissions, a, b, on);
    write_one(width, permissions, b, a, on);
}

// Writes x into the bytes from `from` to below `to`.
pub fn fill(bytes: &mut [u8], from: usize, to: usize, x: u8)
    requires { (from ≤ to) × (to ≤ length bytes.old) }
    ensures { Between (λ _. x) from bytes.old bytes.new to }
{
    bytes[from..to].fill(x);
}

// Every row becomes row 0. A byte is read one row before it is written, so the compiler moves whole rows at a time.
fn repeat_row(width: usize, permissions: &mut [u8])
    requires { Table width permissions.old }
    ensures { Between (row_again width permissions.old) width permissions.old permissions.new (table_size width) }
{
    for at in width..permissions.len() {
        permissions[at] = permissions[at - width];
    }
}

// Group 1 reaches all groups, group 0 only group 1; no group but 1 reaches itself until ordered to.
pub fn start_table(width: usize, permissions: &mut [u8])
    requires { Table width permissions.old }
    ensures { permissions.new ≡ start_table width }
{
    fill(permissions, 0, width - 1, 0);
    permissions[width - 1] = 2;
    repeat_row(width, permissions);
    fill(permissions, width, width + width, 255);
}
