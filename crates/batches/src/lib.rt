// Batches of orders: a row of the permission table, and its column, by bytes.
#![tactic(auto)]

ghost use Rattle.std.specs.Prelude.{◌≡◌, ◌+◌, ◌*◌, ◌/◌, ◌%◌, ◌^◌, ◌-◌, ◌≤◌, ◌<◌, eqb, length, drop};
ghost use Rattle.wire.specs.Bits.{bit};
ghost use Rattle.permit.specs.Permission.{groups, P, Table};
ghost use Rattle.permit.specs.Orders.{apply, row_orders, batch_orders, rows_end};
ghost use Rattle.batches.specs.Rows.{RowIs, ColumnIs, ColumnTo, byte_has};

use wire::ZoneGroup;

// A row's last byte holds groups 0 and 1 in its two low bits.
fn keep_low(new: u8, old: u8) -> u8
    ensures { result ≡ new / 4 * 4 + old % 4 }
{
    new / 4 * 4 + old % 4
}

// Row r becomes row i of a batch's rows, which are sixteen bytes each, but for groups 0 and 1: the last bytes of that row, as many as
// a row of the table has.
fn put_row(width: usize, permissions: &mut [u8], rows: &[u8], i: usize, r: ZoneGroup)
    requires { Table width permissions.old × (16 * i + 16 ≤ length rows.now) × (r.0 < groups width) }
    ensures { RowIs width (P 16 rows.now i) r.0 permissions.old permissions.new }
{
    let to = permit::row_at(width, r.0 as usize);
    let from = i * 16 + (16 - width);
    let last = width - 1;
    wire::copy(permissions, to, rows, from, last);
    permissions[to + last] = keep_low(rows[from + last], permissions[to + last]);
}

// Bit k of a byte, by a shift: the column reads 126 of them for each row of a batch.
fn bit_of(x: u8, k: usize) -> bool
    requires { k < 8 }
    ensures { result ≡ eqb (bit x k) 1 }
{
    (x >> k) % 2 == 1
}

// Group `group` of the rows from first + low to first + 7 becomes that row's bit of `bits`, a byte that is read once for
// all eight. m is the group's mask.
fn put_bits(
    width: usize,
    permissions: &mut [u8],
    bits: u8,
    first: usize,
    low: usize,
    group: usize,
    m: u8,
)
    requires { Table width permissions.old × (first + 8 ≤ groups width) × (first % 8 ≡ 0) × (low ≤ 8) × (group < groups width) × (m ≡ 2 ^ (group % 8)) }
    ensures { ColumnTo width (byte_has bits) group (first + low) permissions.old permissions.new (first + 8) }
{
    for k in low..8 {
        let on = bit_of(bits, k);
        let at = permit::byte_at(width, first + k, group);
        permissions[at] = permit::with_mask(permissions[at], m, on);
    }
}

// Group r of every row from 2 on becomes that row's group in row i of a batch's rows.
fn put_column(width: usize, permissions: &mut [u8], rows: &[u8], i: usize, r: ZoneGroup)
    requires { Table width permissions.old × (16 * i + 16 ≤ length rows.now) × (r.0 < groups width) }
    ensures { ColumnIs width (P 16 rows.now i) r.0 permissions.old permissions.new }
{
    let group = r.0 as usize;
    let m = permit::mask(group);
    let from = i * 16;
    put_bits(width, permissions, rows[from + 15], 0, 2, group, m);
    for q in 1..width {
        put_bits(
            width,
            permissions,
            rows[from + (15 - q)],
            q * 8,
            0,
            group,
            m,
        );
    }
}

// Row i of a batch's rows, for the group r: each group from 2 on, both ways.
fn batch_row(width: usize, permissions: &mut [u8], rows: &[u8], i: usize, r: ZoneGroup)
    requires { Table width permissions.old × (16 * i + 16 ≤ length rows.now) × (r.0 < groups width) }
    ensures { permissions.new ≡ apply width (row_orders (P 16 rows.now i) r.0 2 (groups width - 2)) permissions.old }
{
    put_row(width, permissions, rows, i, r);
    put_column(width, permissions, rows, i, r);
}

// The count rows of a request from byte 12 on, in order, so that a later row overrides.
pub fn batch(width: usize, permissions: &mut [u8], request: &[u8], start: ZoneGroup, count: u8)
    requires { Table width permissions.old × (12 + 16 * count ≤ length request.now) × (start.0 + count ≤ 128) × (rows_end start.0 count ≤ groups width) }
    ensures { permissions.new ≡ apply width (batch_orders width (drop 12 request.now) start.0 0 count) permissions.old }
{
    let rows = &request[12..];
    for i in 0..count {
        let r = start.0 + i;
        batch_row(width, permissions, rows, i as usize, ZoneGroup(r));
    }
}
