// The lines of a zone sheet, read one by one: "group,group,1" or "group,group,0", and CRLF or LF.
#![tactic(auto)]

ghost use Rattle.std.specs.Prelude.{◌≡◌, true, ◌+◌, ◌-◌, ◌*◌, ◌≤◌, ◌<◌, length, drop};
ghost use Rattle.sheet_lines.specs.Line.{is_figure, figures, number, before_comma, before_end, switch};
ghost use Rattle.sheet_lines.specs.Places.{capped, Reads, ReadAs, LineAs};
ghost use Rattle.sheet_lines.specs.Short.{ShortAs, ShortLineAs};

// The most bytes that a sheet may have, and the room that one is written into.
pub const SHEET_MOST: usize = 88011;

// What ends a line.
pub const CR: u8 = 13;

pub const LF: u8 = 10;

// A number, and where the text behind it starts.
#[derive(Clone, Copy)]
struct Scanned {
    value: u8,
    next: usize,
}

// What a line says: two groups, on or off; and where the next line starts.
#[derive(Clone, Copy, Debug, PartialEq, Eq)]
pub struct SheetLine {
    pub a: u8,
    pub b: u8,
    pub on: bool,
    pub next: usize,
}

fn is_figure(c: u8) -> bool
    ensures { result ≡ is_figure c }
{
    if c < 48 {
        return false;
    }
    c < 58
}

fn figure_value(c: u8) -> u8
    requires { is_figure c ≡ true }
    ensures { (result ≡ c - 48) × (result < 10) }
{
    c - 48
}

// One figure more. Any number above 127 is kept as 128, so that a number may have any number of figures.
fn more(value: u8, c: u8) -> u8
    requires { (value ≤ 128) × (is_figure c ≡ true) }
    ensures { result ≡ capped (value * 10 + (c - 48)) }
{
    let x = (value as u16) * 10 + figure_value(c) as u16;
    if x < 128 {
        return x as u8;
    }
    128
}

fn figures_at(sheet: &[u8], at: usize, first: u8) -> Scanned
    requires { (at ≤ length sheet.now) × (first < 10) }
    ensures { Reads (figures first (drop at sheet.now)) sheet.now at result.value result.next }
{
    let mut value = first;
    for i in at..sheet.len() {
        let c = sheet[i];
        if !is_figure(c) {
            return Scanned { value, next: i };
        }
        value = more(value, c);
    }
    Scanned {
        value,
        next: sheet.len(),
    }
}

fn number_at(sheet: &[u8], at: usize) -> Option<Scanned>
    ensures { ReadAs (number (drop at sheet.now)) sheet.now (at + 1) result }
{
    if sheet.len() <= at {
        return None;
    }
    let c = sheet[at];
    if !is_figure(c) {
        return None;
    }
    if c == b'0' {
        return Some(Scanned {
            value: 0,
            next: at + 1,
        });
    }
    Some(figures_at(sheet, at + 1, figure_value(c)))
}

// A number and the comma behind it.
fn field_at(sheet: &[u8], at: usize) -> Option<Scanned>
    ensures { ReadAs (before_comma (number (drop at sheet.now))) sheet.now (at + 1) result }
{
    let number = number_at(sheet, at)?;
    if sheet.len() <= number.next {
        return None;
    }
    if sheet[number.next] != b',' {
        return None;
    }
    Some(Scanned {
        value: number.value,
        next: number.next + 1,
    })
}

// The line's end, behind the last field's value.
fn end_at(sheet: &[u8], at: usize, value: u8) -> Option<Scanned>
    requires { value < 2 }
    ensures { ReadAs (before_end value (drop at sheet.now)) sheet.now at result }
{
    if sheet.len() <= at {
        return None;
    }
    if sheet[at] == LF {
        return Some(Scanned {
            value,
            next: at + 1,
        });
    }
    if sheet[at] != CR {
        return None;
    }
    let after = at + 1;
    if sheet.len() <= after {
        return None;
    }
    if sheet[after] != LF {
        return None;
    }
    Some(Scanned {
        value,
        next: after + 1,
    })
}

// The last field: 1 or 0, and the line's end.
fn switch_at(sheet: &[u8], at: usize) -> Option<Scanned>
    ensures { ReadAs (switch (drop at sheet.now)) sheet.now at result }
{
    if sheet.len() <= at {
        return None;
    }
    if sheet[at] == b'0' {
        return end_at(sheet, at + 1, 0);
    }
    if sheet[at] == b'1' {
        return end_at(sheet, at + 1, 1);
    }
    None
}

// The line that starts at `at`, whatever stands there and however near the sheet's end is.
fn any_line_at(sheet: &[u8], at: usize) -> Option<SheetLine>
    ensures { LineAs sheet.now at result }
{
    let first = field_at(sheet, at)?;
    let second = field_at(sheet, first.next)?;
    let on = switch_at(sheet, second.next)?;
    Some(SheetLine {
        a: first.value,
        b: second.value,
        on: on.value == 1,
        next: on.next,
    })
}

// The short way: a number of up to three figures, as each group is, and its comma, where four bytes are left. So the sheet's end is
// not asked for at each byte, and there is no loop. `None` says nothing of the text: the line is then read the other way.
fn short_at(sheet: &[u8], at: usize) -> Option<Scanned>
    requires { at + 4 ≤ length sheet.now }
    ensures { ShortAs (before_comma (number (drop at sheet.now))) sheet.now (at + 1) (at + 4) result }
{
    let c = sheet[at];
    if !is_figure(c) {
        return None;
    }
    if c < 49 {
        return None;
    }
    let one = figure_value(c);
    let second = at + 1;
    let d = sheet[second];
    if d == b',' {
        return Some(Scanned {
            value: one,
            next: second + 1,
        });
    }
    if !is_figure(d) {
        return None;
    }
    let two = more(one, d);
    let third = second + 1;
    let e = sheet[third];
    if e == b',' {
        return Some(Scanned {
            value: two,
            next: third + 1,
        });
    }
    if !is_figure(e) {
        return None;
    }
    let three = more(two, e);
    let fourth = third + 1;
    if sheet[fourth] != b',' {
        return None;
    }
    Some(Scanned {
        value: three,
        next: fourth + 1,
    })
}

// The short way for the last field and the line's end, where three bytes are left.
#[tactic(auto, using(crate::proofs::LineLaws::short_lf))]
fn short_switch_at(sheet: &[u8], at: usize) -> Option<Scanned>
    requires { at + 3 ≤ length sheet.now }
    ensures { ShortAs (switch (drop at sheet.now)) sheet.now at (at + 3) result }
{
    let c = sheet[at];
    if c < 48 {
        return None;
    }
    if 49 < c {
        return None;
    }
    let after = at + 1;
    if sheet[after] == LF {
        return Some(Scanned {
            value: c - 48,
            next: after + 1,
        });
    }
    if sheet[after] != CR {
        return None;
    }
    let last = after + 1;
    if sheet[last] != LF {
        return None;
    }
    Some(Scanned {
        value: c - 48,
        next: last + 1,
    })
}

// The short way for a line. Two numbers of up to three figures, their commas, 1 or 0 and CRLF are 11 bytes at most, so one test of
// the sheet's end does for it.
fn short_line_at(sheet: &[u8], at: usize) -> Option<SheetLine>
    requires { at + 11 ≤ length sheet.now }
    ensures { ShortLineAs sheet.now at result }
{
    let a = short_at(sheet, at)?;
    let b = short_at(sheet, a.next)?;
    let on = short_switch_at(sheet, b.next)?;
    Some(SheetLine {
        a: a.value,
        b: b.value,
        on: on.value == 1,
        next: on.next,
    })
}

// The line that starts at `at`: the work of the line reader.
fn line_at(sheet: &[u8], at: usize) -> Option<SheetLine>
    ensures { LineAs sheet.now at result }
{
    if sheet.len() <= at {
        return None;
    }
    if 11 <= sheet.len() - at {
        if let Some(line) = short_line_at(sheet, at) {
            return Some(line);
        }
    }
    any_line_at(sheet, at)
}

// A line reader: the sheet, and where the next line starts. Its methods are thin; `read_line` serves every other caller.
#[derive(Clone, Copy, Debug, PartialEq, Eq)]
pub struct LineReader<'a> {
    pub sheet: &'a [u8],
    pub at: usize,
}

impl<'a> LineReader<'a> {
    pub fn new(sheet: &'a [u8], at: usize) -> LineReader<'a>
        ensures { (result.sheet ≡ sheet.entry) × (result.at ≡ at) }
    {
        LineReader { sheet, at }
    }

    pub fn next_line(self) -> Option<SheetLine>
        ensures { LineAs self.entry.sheet.now self.entry.at result }
    {
        line_at(self.sheet, self.at)
    }
}

pub fn read_line(sheet: &[u8], at: usize) -> Option<SheetLine>
    ensures { LineAs sheet.now at result }
{
    LineReader::new(sheet, at).next_line()
}
