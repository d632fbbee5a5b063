// The search of `text` and its skip over spaces for long inputs, a block of places at a time, behind the same contracts.
// A text is looked for by two of its bytes, those at k and l in it. The caller picks two that ordinary traffic seldom has so far apart:
// they change what a search costs, and nothing else.
#![tactic(auto)]

ghost use Rattle.std.specs.Prelude.{◌≡◌, false, [], ◌∷◌, ◌≤◌, ◌<◌, ◌+◌, min, length};
ghost use Rattle.text.specs.Bytes.{bytes};
ghost use Rattle.text.specs.Text.{is_blank, past, stands, find_in};
ghost use Rattle.seek.specs.Seek.{both_at, space_at, any_of, all_of, or_next, Later, NoneBelow, ColumnAbove, IfCr};

use text::Blanks;

// Is there a j below n with b at `at` + j and c at `to` + j? It goes through all n, so that a processor may take many at once.
#[tactic(auto, unfolding(crate::specs::Seek::any_of, crate::specs::Seek::both_at))]
fn hit(s: &[u8], at: usize, b: u8, to: usize, c: u8, n: usize) -> bool
    requires { (at + n ≤ length s.now) × (to + n ≤ length s.now) }
    ensures { result ≡ any_of (both_at s.now at b to c) n }
{
    let mut any = false;
    for j in 0..n {
        any |= (s[at + j] == b) & (s[to + j] == c);
    }
    any
}

// The places of a block, and of four, which are passed over at once where none has the two bytes.
const BLOCK: usize = 16;

const FOUR: usize = 64;

// The end of the block at p: 16 places on, or e.
fn block_end(p: usize, e: usize) -> usize
    requires { p ≤ e }
    ensures { result ≡ min (p + 16) e }
{
    p + BLOCK.min(e - p)
}

// A text that is looked for, and the places in it of the two bytes.
#[derive(Clone, Copy)]
struct Sought<'a> {
    text: &'a [u8],
    k: usize,
    l: usize,
    ghost inside: { (k < length text.now) × (l < length text.now) },
}

impl Sought<'_> {
    // A later place with the same answer: past the blocks of n places, up to the place e, none of which has the two bytes.
    #[tactic(auto, using(crate::specs::Laws::block_none))]
    fn pass(self, s: &[u8], from: usize, e: usize, n: usize) -> usize
        requires between { (from ≤ e) × (e + length self.text.now ≤ length s.now + 1) }
        requires some { 0 < n }
        ensures { Later (find_in self.entry.text.now s.now) from e result }
    {
        let b = self.text[self.k];
        let c = self.text[self.l];
        let mut i = from;
        // no `for`: where it ends is the place behind the last whole block
        while n <= e - i {
            if hit(s, i + self.k, b, i + self.l, c, n) {
                return i;
            }
            i += n;
        }
        i
    }

    // Does the text stand in s at p? Its byte k is asked first: most places don't have it.
    #[tactic(auto, using(crate::specs::Laws::byte_none))]
    fn stands(self, s: &[u8], p: usize) -> bool
        requires { p + length self.text.now ≤ length s.now }
        ensures { result ≡ stands self.entry.text.now s.now p }
    {
        s[p + self.k] == self.text[self.k] && text::matches_at(s, p, self.text)
    }

    // The first place from `from` on and before e where it stands, one by one.
    #[tactic(auto, using(text::specs::Steps::find_here, text::specs::Steps::find_next))]
    fn find_upto(self, s: &[u8], from: usize, e: usize) -> Option<usize>
        requires { (from ≤ e) × (e + length self.text.now ≤ length s.now + 1) }
        ensures { find_in self.entry.text.now s.now from ≡ or_next result (find_in self.entry.text.now s.now e) }
    {
        for p in from..e {
            if self.stands(s, p) {
                return Some(p);
            }
        }
        None
    }

    // By blocks, up to the end e of the places where it fits: over those without the two bytes, then one by one through a block that has them.
    #[tactic(auto, using(text::specs::Laws::find_late))]
    fn find(self, s: &[u8], from: usize, e: usize) -> Option<usize>
        requires { (from ≤ e) × (e + length self.text.now ≡ length s.now + 1) }
        ensures { result ≡ find_in self.entry.text.now s.now from }
    {
        let mut i = from;
        // no `for`: a turn goes as far as the passes do
        while i < e {
            let past = self.pass(s, i, e, FOUR);
            let p = self.pass(s, past, e, BLOCK);
            let end = block_end(p, e);
            if let Some(q) = self.find_upto(s, p, end) {
                return Some(q);
            }
            i = end;
        }
        None
    }
}

// Inputs shorter than this are better searched place by place: a search by blocks takes its time to start.
pub const SHORT: usize = 64;

// The first place at or after `from` where t stands in s, letter case exact; where k or l is no byte of t, it is `text::find`.
#[tactic(auto, using(text::specs::Laws::find_late))]
pub fn find(s: &[u8], from: usize, t: &[u8], k: usize, l: usize) -> Option<usize>
    ensures { result ≡ find_in t.now s.now from }
{
    if t.len() <= k || t.len() <= l {
        return text::find(s, from, t);
    }
    if s.len() < t.len() {
        return None;
    }
    let e = s.len() - t.len() + 1;
    if e < from {
        return None;
    }
    Sought { text: t, k, l }.find(s, from, e)
}

// The first place at or after `from` that has the byte, one by one.
#[tactic(auto, using(crate::specs::Laws::byte_here, crate::specs::Laws::byte_not, text::specs::Laws::find_late))]
pub fn find_byte(s: &[u8], from: usize, byte: u8) -> Option<usize>
    ensures { result ≡ find_in (byte ∷ []) s.now from }
{
    for i in from..s.len() {
        if s[i] == byte {
            return Some(i);
        }
    }
    None
}

// The bytes that are passed over at once where none is as low as a CR, in rows of 16.
const PLAIN: usize = 512;

const ROWS: usize = 32;

// The least byte of the column at `at`: of every 16th from there on, a byte of each row.
fn column(s: &[u8], at: usize) -> u8
    requires { at + 497 ≤ length s.now }
    ensures { ColumnAbove s.now at 32 result }
{
    let mut m = u8::MAX;
    // counted on: the place as a product would be a multiply
    let mut p = at;
    for _row in 0..ROWS {
        m = m.min(s[p]);
        p += BLOCK;
    }
    m
}

// Is one of the 512 bytes from `at` on as low as a CR? It goes through all columns, so that a processor may take them at once: two instructions for 16 bytes.
#[tactic(auto, using(crate::specs::Laws::column_more, crate::specs::Laws::columns_above))]
fn low(s: &[u8], at: usize) -> bool
    requires { at + 512 ≤ length s.now }
    ensures { result ≡ false → NoneBelow s.now at 512 14 }
{
    let mut any = false;
    for j in 0..BLOCK {
        any |= column(s, at + j) <= b'\r';
    }
    any
}

// A later place with the same answer: past the blocks, up to e, that have no byte as low as a CR.
#[tactic(auto, using(crate::specs::Laws::above_none))]
fn pass_plain(s: &[u8], from: usize, e: usize) -> usize
    requires { (from ≤ e) × (e ≤ length s.now) }
    ensures { Later (find_in (bytes "\r") s.now) from e result }
{
    let mut i = from;
    // no `for`, as in `pass`
    while PLAIN <= e - i {
        if low(s, i) {
            return i;
        }
        i += PLAIN;
    }
    i
}

// j where the byte is a CR, else 255.
fn if_cr(b: u8, j: u8) -> u8
    ensures { IfCr b j result }
{
    if b == b'\r' { j } else { 255 }
}

// The first CR among the 64 bytes from `at` on. It goes through all of them, so that a processor may take many at once: a byte, 255 while there is none, takes less room in it than an `Option`.
fn first(s: &[u8], at: usize) -> Option<usize>
    requires { at + 64 ≤ length s.now }
    ensures { find_in (bytes "\r") s.now at ≡ or_next result (find_in (bytes "\r") s.now (at + 64)) }
{
    let mut m = u8::MAX;
    for j in 0..64u8 {
        let here = if_cr(s[at + usize::from(j)], j);
        m = here.min(m);
    }
    if m == u8::MAX {
        return None;
    }
    Some(at + usize::from(m))
}

// Two blocks of four.
const EIGHT: usize = 128;

// A CR, as a text.
const CR: Sought<'static> = Sought {
    text: b"\r",
    k: 0,
    l: 0,
};

// The first CR at or after `from`, by blocks that get smaller. An answer ends where the input does: the last 64 bytes, which are looked at for the place itself,
// are left out of the larger blocks, since one that has the CR was looked at in vain.
fn find_far(s: &[u8], from: usize) -> Option<usize>
    requires { from + 64 ≤ length s.now }
    ensures { result ≡ find_in (bytes "\r") s.now from }
{
    let e = s.len() - FOUR;
    let plain = pass_plain(s, from, e);
    let eight = CR.pass(s, plain, e, EIGHT);
    let four = CR.pass(s, eight, s.len(), FOUR);
    let at = four.min(e);
    if let Some(p) = first(s, at) {
        return Some(p);
    }
    find_byte(s, at + FOUR, b'\r')
}

// The first CR at or after `from`. One that is near is found place by place: the blocks take their time to start.
#[tactic(auto, using(crate::specs::Laws::byte_here, text::specs::Laws::find_late))]
pub fn find_cr(s: &[u8], from: usize) -> Option<usize>
    ensures { result ≡ find_in (bytes "\r") s.now from }
{
    if s.len() <= from {
        return None;
    }
    if s[from] == b'\r' {
        return Some(from);
    }
    if s.len() - from <= BLOCK {
        return find_byte(s, from, b'\r');
    }
    let next = from + 1;
    if hit(s, next, b'\r', next, b'\r', BLOCK) {
        return find_byte(s, from, b'\r');
    }
    if FOUR <= s.len() - from {
        return find_far(s, from);
    }
    let near = CR.pass(s, from, s.len(), BLOCK);
    find_byte(s, near, b'\r')
}

// Are the n bytes from `at` on all spaces? It goes through all n, so that a processor may take many at once.
#[tactic(auto, unfolding(crate::specs::Seek::all_of, crate::specs::Seek::space_at))]
fn spaces(s: &[u8], at: usize, n: usize) -> bool
    requires { at + n ≤ length s.now }
    ensures { result ≡ all_of (space_at s.now at) n }
{
    let mut all = true;
    for j in 0..n {
        all &= s[at + j] == b' ';
    }
    all
}

// A later place from which the spaces end at the same place: past the blocks of four that are all spaces.
#[tactic(auto, using(crate::specs::Laws::spaces_all))]
fn pass_spaces(s: &[u8], from: usize) -> usize
    requires { from ≤ length s.now }
    ensures { past (is_blank Blanks.Space) s.now from ≡ past (is_blank Blanks.Space) s.now result }
{
    let mut i = from;
    // no `for`, as in `pass`
    while FOUR <= s.len() - i {
        if !spaces(s, i, FOUR) {
            return i;
        }
        i += FOUR;
    }
    i
}

// The first place at or after `from` whose byte is no space, as `text::skip` has it; one at `from` is told at once.
#[tactic(auto, using(text::specs::Steps::past_end, crate::specs::Laws::no_space))]
pub fn skip_spaces(s: &[u8], from: usize) -> usize
    ensures { result ≡ past (is_blank Blanks.Space) s.now from }
{
    if s.len() <= from || s[from] != b' ' {
        return from;
    }
    let p = pass_spaces(s, from);
    text::skip(Blanks::Space, s, p)
}
