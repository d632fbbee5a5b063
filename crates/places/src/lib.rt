// The first places of the fixed texts that may stand anywhere in buf (all but NA, which stands at its head only): all that rules 3 and 5 ask of them.
// Whoever found them, a place is asked for here, and whoever asks relies on `FirstLines` and `FirstPlaces` alone. Of a level of the retry only the heads are asked for, and seldom:
// there each is sought when it is asked for.
#![tactic(auto)]

ghost use Rattle.std.specs.Prelude.{◌≡◌};
ghost use Rattle.lines.specs.Lines.{fixed_text, earlier, connect_place};
ghost use Rattle.places.specs.Places.{line_end, head_end, place_of, place_in, line_in, unsought};

use lines::{Digester, Fixed};

// Where the first occurrence of each line but OK ends, 0 for none.
#[derive(Clone, Copy)]
pub struct Lines {
    pub connect: usize,
    pub error: usize,
    pub unsupported: usize,
    pub carrier: usize,
    pub busy: usize,
    pub answer: usize,
    pub dialtone: usize,
}

// Where the first occurrence of each head ends, 0 for none.
#[derive(Clone, Copy)]
pub struct Heads {
    pub cme: usize,
    pub cms: usize,
    pub modem: usize,
}

// The first places of the heads: from where they are sought, and, where the pass found them, where they end.
#[derive(Clone, Copy)]
pub struct Places {
    pub from: usize,
    pub heads: Option<Heads>,
}

// The first places of the heads at or after e, each to be sought when it is asked for.
pub fn unsought(e: usize) -> Places
    ensures { result ≡ unsought e }
{
    Places {
        from: e,
        heads: None,
    }
}

// Where the line ends, as the pass found it; nothing of a text that isn't one of its lines.
fn line_end(lines: Lines, text: Fixed) -> Option<usize>
    ensures { result ≡ line_end lines text }
{
    match text {
        Fixed::Connect => Some(lines.connect),
        Fixed::Error => Some(lines.error),
        Fixed::CommandNotSupport => Some(lines.unsupported),
        Fixed::NoCarrier => Some(lines.carrier),
        Fixed::Busy => Some(lines.busy),
        Fixed::NoAnswer => Some(lines.answer),
        Fixed::NoDialtone => Some(lines.dialtone),
        _ => None,
    }
}

// Where the head ends, as the pass found it; nothing of a text that isn't one of the heads, or where there was no pass.
fn head_end(places: Places, text: Fixed) -> Option<usize>
    ensures { result ≡ head_end places text }
{
    let heads = places.heads?;
    match text {
        Fixed::Cme => Some(heads.cme),
        Fixed::Cms => Some(heads.cms),
        Fixed::Modem => Some(heads.modem),
        _ => None,
    }
}

// The first place of a text at or after `from`. Where the pass found its end, or 0 for nowhere, it counts only where the text stands there, and not before `from`; else it is sought.
#[tactic(auto, unfolding(crate::specs::Places::place_of))]
fn place_of(s: &[u8], from: usize, text: Fixed, found: Option<usize>) -> Option<usize>
    ensures { result ≡ place_of (fixed_text text) s.now from found }
{
    let Some(end) = found else {
        return lines::find_fixed(s, from, text);
    };
    let place = end.checked_sub(lines::fixed_len(text))?;
    if from <= place && lines::fixed_at(s, place, text) {
        return Some(place);
    }
    None
}

// The first place of a head.
#[tactic(auto, unfolding(crate::specs::Places::place_in))]
pub fn place(s: &[u8], places: Places, text: Fixed) -> Option<usize>
    ensures { result ≡ place_in s.now places text }
{
    place_of(s, places.from, text, head_end(places, text))
}

// The first place of a line at or after e.
#[tactic(auto, unfolding(crate::specs::Places::line_in))]
pub fn line(s: &[u8], e: usize, lines: Lines, text: Fixed) -> Option<usize>
    ensures { result ≡ line_in s.now e lines text }
{
    place_of(s, e, text, line_end(lines, text))
}

// The earlier of two places.
#[tactic(auto, unfolding(lines::specs::Lines::earlier))]
fn earlier(a: Option<usize>, b: Option<usize>) -> Option<usize>
    ensures { result ≡ earlier a b }
{
    match (a, b) {
        (Some(j), Some(k)) => Some(j.min(k)),
        _ => a.or(b),
    }
}

// CONNECT's first place: that of its line or, where the digester hears it (R-3), of one with text, whichever is earlier.
#[tactic(auto, unfolding(lines::specs::Lines::connect_place))]
pub fn connect(digester: Digester, s: &[u8], e: usize, lines: Lines) -> Option<usize>
    ensures { result ≡ connect_place digester (line_in s.now e lines) }
{
    let bare = line(s, e, lines, Fixed::Connect);
    if !lines::hears_text(digester) {
        return bare;
    }
    earlier(bare, line(s, e, lines, Fixed::ConnectText))
}
