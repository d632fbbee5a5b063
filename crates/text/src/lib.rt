// Blanks, trimming and searching: the leaves of the digester.
// They answer as the slice methods that atat's digest.rs leans on (trim_ascii, nom's multispace0 and take_until), by places in the caller's bytes.
// Every public function is total: none has a `requires`, and a place past the end has a stated answer.
#![tactic(auto)]

ghost use Rattle.std.specs.Prelude.{◌≡◌, ◌≤◌, ◌+◌, min, length, get_or, eqb};
ghost use Rattle.text.specs.Text.{is_blank, past, keep, trimmed, trimmed_part, stands, find_in, part_of, part_at, further};

// Which bytes count as blank: the space alone, document 01's run blanks, or its trim blanks.
#[derive(Clone, Copy)]
pub enum Blanks {
    Space,
    Run,
    Trim,
}

// A part of a slice, by where it starts and how long it is.
#[derive(Clone, Copy)]
pub struct Span {
    pub start: usize,
    pub len: usize,
}

// Space, tab, CR, LF.
#[tactic(auto, unfolding(crate::specs::Text::is_blank, crate::specs::Text::among, crate::specs::Text::blanks))]
fn is_run(b: u8) -> bool
    ensures { result ≡ is_blank Blanks.Run b }
{
    matches!(b, b' ' | b'\t' | b'\r' | b'\n')
}

// Space, tab, LF, form feed, CR: a run blank, or a form feed.
#[tactic(auto, unfolding(crate::specs::Text::is_blank, crate::specs::Text::among, crate::specs::Text::blanks))]
fn is_trim(b: u8) -> bool
    ensures { result ≡ is_blank Blanks.Trim b }
{
    b == 0x0C || is_run(b)
}

// Is b a blank of the set?
fn is_blank(set: Blanks, b: u8) -> bool
    ensures { result ≡ is_blank set b }
{
    match set {
        Blanks::Space => b == b' ',
        Blanks::Run => is_run(b),
        Blanks::Trim => is_trim(b),
    }
}

// The first place at or after `from` whose byte is no blank of the set; the end of s where there is none.
// A place past the end is its own answer.
pub fn skip(set: Blanks, s: &[u8], from: usize) -> usize
    ensures { result ≡ past (is_blank set) s.now from }
{
    for place in from..s.len() {
        if !is_blank(set, s[place]) {
            return place;
        }
    }
    from.max(s.len())
}

// How long s is without the blanks that it ends in; 0 where it has nothing else.
pub fn kept(set: Blanks, s: &[u8]) -> usize
    ensures { result ≡ keep (is_blank set) s.now }
{
    for last in (0..s.len()).rev() {
        if !is_blank(set, s[last]) {
            return last + 1;
        }
    }
    0
}

// Where s starts and how long it is without the blanks at its two ends; where it has nothing else, its end and 0.
pub fn trim(set: Blanks, s: &[u8]) -> Span
    ensures { result ≡ trimmed (is_blank set) s.now }
{
    let a = skip(set, s, 0);
    let n = kept(set, &s[a..]);
    Span { start: a, len: n }
}

// What stands from `from` up to `to` without the trim blanks at its two ends, as a part of s; a `to` past the end counts as the end.
// Where `from` lies behind that, nothing stands there, and `from` is the part's place.
pub fn trimmed_part(s: &[u8], from: usize, to: usize) -> Span
    ensures { result ≡ trimmed_part s.now from to }
{
    let end = to.min(s.len());
    if end < from {
        return Span {
            start: from,
            len: 0,
        };
    }
    let t = trim(Blanks::Trim, &s[from..end]);
    let start = from + t.start;
    Span { start, len: t.len }
}

// The byte at a place; 0 where there is none.
pub fn byte_at(s: &[u8], at: usize) -> u8
    ensures { result ≡ get_or s.now at 0 }
{
    s.get(at).copied().unwrap_or(0)
}

// A byte as it is compared: itself. Letter case is exact: the crate's `tag_no_case` runs behind a search that is.
fn exact(byte: u8) -> u8
    ensures { result ≡ byte }
{
    byte
}

fn same(a: u8, b: u8) -> bool
    ensures { result ≡ eqb a b }
{
    exact(a) == exact(b)
}

// Does t stand in s at `at`, where there is room for it?
fn stands_at(s: &[u8], at: usize, t: &[u8]) -> bool
    requires { at + length t.now ≤ length s.now }
    ensures { result ≡ stands t.now s.now at }
{
    for k in 0..t.len() {
        if !same(s[at + k], t[k]) {
            return false;
        }
    }
    true
}

// Does t stand in s at `at`? The empty text stands everywhere, past the end too; no other text does there.
pub fn matches_at(s: &[u8], at: usize, t: &[u8]) -> bool
    ensures { result ≡ stands t.now s.now at }
{
    if s.len() < at {
        return t.len() == 0;
    }
    if s.len() - at < t.len() {
        return false;
    }
    stands_at(s, at, t)
}

// The first place at or after `from` where t stands in s, letter case exact. The empty text is found at `from`.
// Places without room for t aren't looked at.
pub fn find(s: &[u8], from: usize, t: &[u8]) -> Option<usize>
    ensures { result ≡ find_in t.now s.now from }
{
    if t.len() == 0 {
        return Some(from);
    }
    if s.len() < t.len() {
        return None;
    }
    for i in from..s.len() - t.len() + 1 {
        if stands_at(s, i, t) {
            return Some(i);
        }
    }
    None
}

// The part of s that starts at `place` and is `len` bytes long, in the caller's own memory.
// A place and length that don't fit give the empty front part.
pub fn part(s: &[u8], place: usize, len: usize) -> &[u8]
    ensures is { result.now ≡ part_of s.now place len }
    ensures lies { result.ref_ptr ≡ further s.entry.ref_ptr (part_at s.now place len) }
{
    if s.len() < place {
        return &s[..0];
    }
    if s.len() - place < len {
        return &s[..0];
    }
    let end = place + len;
    &s[place..end]
}
