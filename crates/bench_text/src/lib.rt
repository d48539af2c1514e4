// The bench's text below the program: a run over the whole events of a window, and the end of the input.
#![tactic(auto)]

ghost use Rattle.std.specs.Prelude.{◌≡◌, ◌+◌, ◌*◌, ◌<◌, ◌≤◌, length, MatchOption};
ghost use Rattle.tables.specs.Phys.{phy_record};
ghost use Rattle.events.specs.Events.{event_gives};
ghost use Rattle.lines.specs.Written.{Wrote};
ghost use Rattle.bench_text.specs.Stream.{ending};
ghost use Rattle.bench_text.specs.Run.{begun, ready, run_over, Told, Within, Put};

// How far a run came: the bytes that it took, the next event's number, and the bytes of text that it wrote.
#[derive(Clone, Copy, Debug, PartialEq, Eq)]
pub struct Progress {
    pub taken: usize,
    pub number: u64,
    pub used: usize,
}

// The rack as it stands before any event, and the first line.
pub fn begin(phys: &mut [u8], permissions: &mut [u8], text: &mut [u8]) -> Progress
    requires { (length phys.old ≡ 8 * phy_record) × (length permissions.old ≡ 2048) × (64 ≤ length text.old) }
    ensures { Told begun text.old result.taken result.number result.used text.new phys.new permissions.new × (result.used ≤ length text.old) }
{
    rack::start(phys, permissions);
    let n = events::first_line(text);
    Progress {
        taken: 0,
        number: 1,
        used: n,
    }
}

// How many bytes the event has that is run next; none where there is no such event, or no room for its line.
fn next_event(bytes: &[u8], room: usize) -> Option<usize>
    ensures { MatchOption result (ready room bytes.now ≡ 0) (λ n. (n ≡ ready room bytes.now) × (0 < n) × (n ≤ length bytes.now)) }
{
    if room < 64 {
        return None;
    }
    events::event_length(bytes)
}

// Runs one event and puts its line into the text from `used` on; answers where the text then ends.
fn put_event(
    phys: &mut [u8],
    permissions: &mut [u8],
    event: &[u8],
    number: u64,
    text: &mut [u8],
    used: usize,
) -> usize
    requires { (5 ≤ length event.now) × (used + 64 ≤ length text.old) }
    ensures { Put number (event_gives event.now phys.old permissions.old) text.old used result text.new phys.new permissions.new }
{
    let n = events::event_line(phys, permissions, event, number, &mut text[used..]);
    used + n
}

// Runs the whole events at the window's front, as many as the text has room for.
pub fn run_events(
    phys: &mut [u8],
    permissions: &mut [u8],
    window: &[u8],
    number: u64,
    text: &mut [u8],
) -> Progress
    requires { number + length window.now < 18446744073709551616 }
    ensures { Told (run_over window.now number (length text.old) phys.old permissions.old) text.old result.taken result.number result.used text.new phys.new permissions.new × Within window.now text.old number result.taken result.number result.used }
{
    let mut at: usize = 0;
    let mut next = number;
    let mut used: usize = 0;
    // By hand: how long an event is, and whether its line has room, is known only once the one before it is run.
    while let Some(n) = next_event(&window[at..], text.len() - used) {
        let stop = at + n;
        used = put_event(phys, permissions, &window[at..stop], next, text, used);
        at = stop;
        next += 1;
    }
    Progress {
        taken: at,
        number: next,
        used,
    }
}

// The text of what is left where no whole event is at its front: a line for an event that is cut off, or nothing.
pub fn end_line(rest: &[u8], number: u64, text: &mut [u8]) -> usize
    requires { 64 ≤ length text.old }
    ensures { Wrote text.old 0 (ending number rest.now) result text.new × (result ≤ length text.old) }
{
    if rest.is_empty() {
        return 0;
    }
    events::cut_line(number, text)
}
