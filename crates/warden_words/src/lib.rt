// A line's words and numbers. A position in a line is where a word starts, or the line's end: whatever takes a word answers where the next one
// starts, if the word there is the one that it takes.
#![tactic(auto)]

ghost use Rattle.std.specs.Prelude.{◌≡◌, cond, ◌+◌, ◌*◌, ◌-◌, ◌<◌, ◌≤◌, length, IfSome, Some, None};
ghost use Rattle.warden_words.specs.Words.{of_kind, run, run_end, word_end, word_at, next_word};
ghost use Rattle.warden_words.specs.Words as words;
ghost use Rattle.warden_words.specs.Numbers.{numeric, at_most, held, hex_value, hex_at, number_at};
ghost use Rattle.warden_words.specs.declared.Kind.TheVariants.{Blank, InLine};

// What a run of bytes is made of.
#[derive(Clone, Copy, Debug, PartialEq, Eq)]
enum Kind {
    Blank,
    Digit,
    LetterOrDigit,
    // All but a line end.
    InLine,
}

// A number that was read, and where the next word starts.
#[derive(Clone, Copy, Debug, PartialEq, Eq)]
pub struct Read {
    pub value: u8,
    pub next: usize,
}

fn is_of(b: u8, kind: Kind) -> bool
    ensures { result ≡ of_kind kind b }
{
    match kind {
        Kind::Blank => matches!(b, b' ' | b'\t'),
        Kind::Digit => b.is_ascii_digit(),
        Kind::LetterOrDigit => b.is_ascii_alphanumeric(),
        Kind::InLine => b != b'\n',
    }
}

// How many bytes at the front are such.
fn run(bytes: &[u8], kind: Kind) -> usize
    ensures { (result ≡ run kind bytes.now) × (result ≤ length bytes.now) }
{
    bytes.iter().take_while(|b| is_of(**b, kind)).count()
}

// Where the run of such bytes ends that starts at `at`.
fn run_end(bytes: &[u8], at: usize, kind: Kind) -> usize
    requires { at ≤ length bytes.now }
    ensures { (result ≡ run_end kind bytes.now at) × (at ≤ result) × (result ≤ length bytes.now) }
{
    at + run(&bytes[at..], kind)
}

// Where the line that starts at `at` ends: at its line end, or where the bytes end.
pub fn line_end(bytes: &[u8], at: usize) -> usize
    requires { at ≤ length bytes.now }
    ensures { (result ≡ run_end InLine bytes.now at) × (at ≤ result) × (result ≤ length bytes.now) }
{
    run_end(bytes, at, Kind::InLine)
}

pub fn past_blanks(line: &[u8], at: usize) -> usize
    requires { at ≤ length line.now }
    ensures { (result ≡ run_end Blank line.now at) × (at ≤ result) × (result ≤ length line.now) }
{
    run_end(line, at, Kind::Blank)
}

// Where the word ends that starts at `at`: a mark is a word by itself.
fn word_end(line: &[u8], at: usize) -> usize
    requires { at ≤ length line.now }
    ensures { (result ≡ word_end line.now at) × (at ≤ result) × (result ≤ length line.now) }
{
    let end = run_end(line, at, Kind::LetterOrDigit);
    if at < end {
        return end;
    }
    if at < line.len() {
        return at + 1;
    }
    at
}

pub fn same(a: &[u8], b: &[u8]) -> bool
    ensures { result ≡ words.same a.now b.now }
{
    a == b
}

// Inline, since each line asks for several words that are known where they are asked for.
#[inline]
pub fn past_word(line: &[u8], at: usize, word: &[u8]) -> Option<usize>
    requires { at ≤ length line.now }
    ensures { (result ≡ cond (words.same (word_at line.now at) word.now) (Some (next_word line.now at)) None) × IfSome result (λ next. (at + length word.now ≤ next) × (next ≤ length line.now)) }
{
    let end = word_end(line, at);
    if same(&line[at..end], word) {
        Some(past_blanks(line, end))
    } else {
        None
    }
}

fn is_number(word: &[u8]) -> bool
    ensures { result ≡ numeric word.now }
{
    !word.is_empty() && run(word, Kind::Digit) == word.len()
}

// One digit more. Beyond 255 it stays at 255, which no count, group or priority reaches: a number never wraps to one that is meant.
fn with_digit(value: u8, digit: u8) -> u8
    ensures { result ≡ at_most 255 (10 * value + (digit - 48)) }
{
    value
        .saturating_mul(10)
        .saturating_add(digit.saturating_sub(b'0'))
}

fn decimal_value(word: &[u8]) -> u8
    ensures { result ≡ held word.now }
{
    let mut value: u8 = 0;
    for digit in word {
        value = with_digit(value, *digit);
    }
    value
}

pub fn number_at(line: &[u8], at: usize) -> Option<Read>
    requires { at ≤ length line.now }
    ensures { (result ≡ number_at line.now at) × IfSome result (λ read. (at < read.next) × (read.next ≤ length line.now)) }
{
    let end = word_end(line, at);
    if !is_number(&line[at..end]) {
        return None;
    }
    Some(Read {
        value: decimal_value(&line[at..end]),
        next: past_blanks(line, end),
    })
}

fn hex_value(b: u8) -> Option<u8>
    ensures { (result ≡ hex_value b) × IfSome result (λ value. value < 16) }
{
    match b {
        b'0'..=b'9' => Some(b - 48),
        b'a'..=b'f' => Some(b - 87),
        b'A'..=b'F' => Some(b - 55),
        _ => None,
    }
}

pub fn hex_at(line: &[u8], at: usize) -> Option<Read>
    requires { at ≤ length line.now }
    ensures { (result ≡ hex_at line.now at) × IfSome result (λ read. (at < read.next) × (read.next ≤ length line.now)) }
{
    let end = word_end(line, at);
    if end - at != 2 {
        return None;
    }
    let high = hex_value(line[at])?;
    let low = hex_value(line[at + 1])?;
    Some(Read {
        value: 16 * high + low,
        next: past_blanks(line, end),
    })
}
