// Export: the permitted pairs as a sheet.
#![tactic(auto)]

ghost use Rattle.std.specs.Prelude.{◌≡◌, true, [], ◌∷◌, ◌+◌, ◌≤◌, ◌<◌, length};
ghost use Rattle.permit.specs.Permission.{groups, Width, Table};
ghost use Rattle.tables.specs.Refusals.{first_refusal};
ghost use Rattle.tables.specs.Outcome.{out};
ghost use Rattle.tables.specs.Numbers.{refused};
ghost use Rattle.lines.specs.Written.{Wrote};
ghost use Rattle.sheet_lines.specs.Line.{comma, figure, CR, LF, line_text};
ghost use Rattle.exports.specs.Fields.{FieldOf, FieldPut};
ghost use Rattle.exports.specs.Export.{pair_text, row_text, sheet_text, export_checks, exported_as, export_out};

use sheet_lines::{CR, LF, SHEET_MOST};
use tables::refusal::Refusal;
use wire::ZoneGroup;

// A group's number and its comma as the four bytes of one number, lowest first, and how many of them count.
#[derive(Clone, Copy)]
struct Field {
    bytes: u32,
    length: usize,
}

// A field of one, two and three zeros, which a group is added to. With three figures a group begins with 1, and its tens are counted from 10.
const ONE: u32 = 48 + 256 * 44;

const TWO: u32 = 48 + 256 * 48 + 65536 * 44;

const THREE: u32 = 49 + 256 * 38 + 65536 * 48 + 16777216 * 44;

// With two figures n / 10 is added to the first byte and n - 10 * (n / 10) to the second: multiplied out, as that takes the fewest steps.
fn field_of(group: u8) -> Field
    requires { group < 128 }
    ensures { FieldOf group result.bytes result.length × (result.length ≤ 4) }
{
    let n = group as u32;
    if n >= 100 {
        return Field {
            bytes: THREE + 65536 * n - 655104 * (n / 10),
            length: 4,
        };
    }
    if n >= 10 {
        return Field {
            bytes: TWO + 256 * n - 2559 * (n / 10),
            length: 3,
        };
    }
    Field {
        bytes: ONE + n,
        length: 2,
    }
}

// Four bytes at once, of which the next part of the line writes over what is too many: a store for each byte took a third longer.
fn put_field(n: u8, text: &mut [u8], at: usize) -> usize
    requires { (n < 128) × (at + 4 ≤ length text.old) }
    ensures { FieldPut n text.old at result text.new }
{
    let field = field_of(n);
    text[at..at + 4].copy_from_slice(&field.bytes.to_le_bytes());
    at + field.length
}

// The comma, the 1 and the line's end.
fn put_end(text: &mut [u8], at: usize) -> usize
    requires { at + 4 ≤ length text.old }
    ensures { Wrote text.old at (comma ∷ figure 1 ∷ CR ∷ LF ∷ []) result text.new }
{
    text[at..at + 4].copy_from_slice(&[b',', b'1', CR, LF]);
    at + 4
}

fn put_line(a: u8, b: u8, text: &mut [u8], at: usize) -> usize
    requires { (a < 128) × (b < 128) × (at + length (line_text a b true (CR ∷ LF ∷ [])) ≤ length text.old) }
    ensures { Wrote text.old at (line_text a b true (CR ∷ LF ∷ [])) result text.new }
{
    let i = put_field(a, text, at);
    let j = put_field(b, text, i);
    // From the comma on, so that the end is four bytes too.
    put_end(text, j - 1)
}

// A line where the two groups are permitted, else nothing.
fn put_pair(
    width: usize,
    permissions: &[u8],
    a: ZoneGroup,
    b: ZoneGroup,
    text: &mut [u8],
    at: usize,
) -> usize
    requires { Table width permissions.now × (a.0 < groups width) × (b.0 < groups width) × (at + length (pair_text width permissions.now a.0 b.0) ≤ length text.old) }
    ensures { Wrote text.old at (pair_text width permissions.now a.0 b.0) result text.new }
{
    if permit::permitted(width, permissions, a, b) {
        return put_line(a.0, b.0, text, at);
    }
    at
}

// A group with itself and every higher one. The other crate that puts pairs has the like of this loop: one for both would ask of the function that
// it is handed all that put_pair's contract says.
fn put_row(width: usize, permissions: &[u8], a: ZoneGroup, text: &mut [u8], at: usize) -> usize
    requires { Table width permissions.now × (a.0 < groups width) × (at + length (row_text width permissions.now a.0) ≤ length text.old) }
    ensures { Wrote text.old at (row_text width permissions.now a.0) result text.new }
{
    let groups = (8 * width) as u8;
    let mut end = at;
    for b in a.0..groups {
        end = put_pair(width, permissions, a, ZoneGroup(b), text, end);
    }
    end
}

fn put_sheet(width: usize, permissions: &[u8], text: &mut [u8]) -> usize
    requires { Table width permissions.now × (length (sheet_text width permissions.now) ≤ length text.old) }
    ensures { Wrote text.old 0 (sheet_text width permissions.now) result text.new }
{
    let groups = (8 * width) as u8;
    let mut end: usize = 0;
    for a in 2..groups {
        end = put_row(width, permissions, ZoneGroup(a), text, end);
    }
    end
}

fn check_export(width: usize, permissions: &[u8], room: usize) -> Result<(), Refusal>
    requires { Width width }
    ensures { refused result ≡ first_refusal (export_checks width permissions.now room) }
{
    if !permit::permissions_sized(width, permissions) {
        return Err(Refusal::WrongSize);
    }
    if room < SHEET_MOST {
        return Err(Refusal::NoRoom);
    }
    Ok(())
}

// The permission table as a sheet; answers how many bytes it has.
pub fn export_sheet_at(width: usize, permissions: &[u8], sheet: &mut [u8]) -> Result<u32, Refusal>
    requires { Width width }
    ensures { out (exported_as result) (sheet.new ∷ []) ≡ export_out width permissions.now sheet.old }
{
    check_export(width, permissions, sheet.len())?;
    let end = put_sheet(width, permissions, sheet);
    Ok(end as u32)
}

// Document 01's shelf.
pub fn export_sheet(permissions: &[u8], sheet: &mut [u8]) -> Result<u32, Refusal>
    ensures { out (exported_as result) (sheet.new ∷ []) ≡ export_out 16 permissions.now sheet.old }
{
    export_sheet_at(16, permissions, sheet)
}
