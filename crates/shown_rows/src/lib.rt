// A report's rows: what the permission table says of every two groups, in document 01's rows of sixteen bytes.
#![tactic(auto)]

ghost use Rattle.std.specs.Prelude.{◌≡◌, ◌+◌, ◌*◌, ◌-◌, min, ◌≤◌, length};
ghost use Rattle.std.proofs.Math.Seq.{paste};
ghost use Rattle.permit.specs.Permission.{groups, Width, Table};
ghost use Rattle.permit.specs.Start.{Between};
ghost use Rattle.shown_rows.specs.ShownRows.{shown_rows};
ghost use Rattle.shown_rows.specs.Inner.{start_rows, shown, Started};

use wire::ZoneGroup;

// Document 01's row of a group as it stands at start-up, into a response from byte `at` on.
fn start_row(row: usize, at: usize, response: &mut [u8])
    requires { at + 16 ≤ length response.old }
    ensures { Between (start_rows row at) at response.old response.new (at + 16) }
{
    if row == 1 {
        permit::fill(response, at, at + 16, 255);
        return;
    }
    permit::fill(response, at, at + 15, 0);
    response[at + 15] = 2;
}

// Document 01's rows from start on as they stand at start-up, into a response from byte 12 on.
fn start_rows(start: usize, count: usize, response: &mut [u8])
    requires { (start + count ≤ 128) × (12 + 16 * count ≤ length response.old) }
    ensures { Between (start_rows start 12) 12 response.old response.new (12 + 16 * count) }
{
    for k in 0..count {
        start_row(start + k, 12 + 16 * k, response);
    }
}

// How many of the count rows from start on the table holds.
fn rows_held(width: usize, start: usize, count: usize) -> usize
    requires { Width width }
    ensures { result ≡ min count (groups width - start) }
{
    count.min((8 * width).saturating_sub(start))
}

// The n rows from start on that the table holds, each over the last bytes of its row in a response: of the groups that the table does not
// hold, start-up's bytes stay.
fn own_rows(width: usize, permissions: &[u8], start: usize, n: usize, response: &mut [u8])
    requires { Table width permissions.now × (n ≤ groups width - start) × Started start n response.old }
    ensures { Between (shown width permissions.now start) 12 response.old response.new (12 + 16 * n) }
{
    for k in 0..n {
        let from = permit::row_at(width, start + k);
        wire::copy(
            response,
            12 + 16 * k + (16 - width),
            permissions,
            from,
            width,
        );
    }
}

// The count rows from start on into a response, from byte 12 on: start-up's, and then the table's own over those that it holds.
fn show_rows(width: usize, permissions: &[u8], start: usize, count: usize, response: &mut [u8])
    requires { Table width permissions.now × (start + count ≤ 128) × (12 + 16 * count ≤ length response.old) }
    ensures { response.new ≡ paste response.old 12 (shown_rows width permissions.now start count) (16 * count) }
{
    start_rows(start, count, response);
    let held = rows_held(width, start, count);
    own_rows(width, permissions, start, held, response);
}

// The count rows from start on into a response, from byte 12 on, in document 01's sixteen bytes each: a copy where the table has such rows.
pub fn report_rows(
    width: usize,
    permissions: &[u8],
    start: ZoneGroup,
    count: u8,
    response: &mut [u8],
)
    requires { Table width permissions.now × (start.0 + count ≤ 128) × (12 + 16 * count ≤ length response.old) }
    ensures { response.new ≡ paste response.old 12 (shown_rows width permissions.now start.0 count) (16 * count) }
{
    let first = start.0 as usize;
    let n = count as usize;
    if width == 16 {
        wire::copy(response, 12, permissions, 16 * first, 16 * n);
    } else {
        show_rows(width, permissions, first, n, response);
    }
}
