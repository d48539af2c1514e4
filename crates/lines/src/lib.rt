// Bytes, numbers and words put into a text: each function answers where the text then ends.
#![tactic(auto)]

ghost use Rattle.std.specs.Prelude.{◌≡◌, [], ◌∷◌, ◌+◌, ◌<◌, ◌≤◌, length, drop};
ghost use Rattle.lines.specs.Text.{space, decimal, hex_digit, hex};
ghost use Rattle.lines.specs.Words.{reply_words, outcome_words};
ghost use Rattle.lines.specs.Written.{Wrote};

pub fn put_bytes(bytes: &[u8], text: &mut [u8], at: usize) -> usize
    requires { at + length bytes.now ≤ length text.old }
    ensures { Wrote text.old at bytes.now result text.new }
{
    let n = bytes.len();
    wire::copy(text, at, bytes, 0, n);
    at + n
}

pub fn put_byte(byte: u8, text: &mut [u8], at: usize) -> usize
    requires { at < length text.old }
    ensures { Wrote text.old at (byte ∷ []) result text.new }
{
    text[at] = byte;
    at + 1
}

// The digits come lowest first, so they are put from the array's end down; answers where they start.
fn decimal_digits(n: u64, figures: &mut [u8]) -> usize
    requires { length figures.old ≡ 20 }
    ensures { (result < 20) × (drop result figures.new ≡ decimal n) }
{
    let mut start: usize = 19;
    let mut rest = n;
    // By hand: it ends at the last digit, where a `for` over the places would need a return behind its end that no number reaches.
    while 9 < rest {
        figures[start] = 48 + (rest % 10) as u8;
        rest /= 10;
        start -= 1;
    }
    figures[start] = 48 + rest as u8;
    start
}

pub fn put_decimal(n: u64, text: &mut [u8], at: usize) -> usize
    requires { at + 20 ≤ length text.old }
    ensures { Wrote text.old at (decimal n) result text.new × (result ≤ at + 20) }
{
    let mut figures = [0u8; 20];
    let start = decimal_digits(n, &mut figures);
    put_bytes(&figures[start..20], text, at)
}

fn hex_digit(n: u8) -> u8
    requires { n < 16 }
    ensures { result ≡ hex_digit n }
{
    if n < 10 {
        return 48 + n;
    }
    87 + n
}

pub fn put_hex(n: u8, text: &mut [u8], at: usize) -> usize
    requires { at + 2 ≤ length text.old }
    ensures { Wrote text.old at (hex n) result text.new }
{
    text[at] = hex_digit(n / 16 % 16);
    text[at + 1] = hex_digit(n % 16);
    at + 2
}

// A number of 16 bits has five digits at most.
fn put_short(n: u16, text: &mut [u8], at: usize) -> usize
    requires { at + 20 ≤ length text.old }
    ensures { Wrote text.old at (decimal n) result text.new × (result ≤ at + 5) }
{
    put_decimal(n as u64, text, at)
}

// A letter and a number.
pub fn put_count(letter: u8, n: u8, text: &mut [u8], at: usize) -> usize
    requires { at + 22 ≤ length text.old }
    ensures { Wrote text.old at (letter ∷ space ∷ decimal n) result text.new × (result ≤ at + 22) }
{
    let a = put_byte(letter, text, at);
    let b = put_byte(b' ', text, a);
    put_decimal(n as u64, text, b)
}

// An SMP answer: the letter, its result, response bytes and phys told.
pub fn put_reply(res: u8, bytes: u16, told: u8, text: &mut [u8], at: usize) -> usize
    requires { at + 31 ≤ length text.old }
    ensures { Wrote text.old at (reply_words (res ∷ bytes ∷ told ∷ [])) result text.new × (result ≤ at + 31) }
{
    let a = put_bytes(b"S ", text, at);
    let b = put_hex(res, text, a);
    let c = put_byte(b' ', text, b);
    let d = put_short(bytes, text, c);
    let e = put_byte(b' ', text, d);
    put_decimal(told as u64, text, e)
}

// An OPEN that is forwarded, and the phy that it goes out on.
pub fn put_forward(phy: u8, text: &mut [u8], at: usize) -> usize
    requires { at + 31 ≤ length text.old }
    ensures { Wrote text.old at (outcome_words (4 ∷ phy ∷ [])) result text.new × (result ≤ at + 31) }
{
    let a = put_bytes(b"O FWD ", text, at);
    put_decimal(phy as u64, text, a)
}
