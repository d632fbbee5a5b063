// The reader of parameter lists with brackets (R-4): the payload of an answer behind its colon, by the grammar of docs/LISTS.md.
// A list reader and an element reader call each other; with each call the bytes that are left fall, and within a bracket the depth that is left. Each judges all
// that stands at its place before anything behind it is looked at, so the first fault that is met is the leftmost.
#![tactic(auto)]

ghost use Rattle.std.specs.Prelude.{◌≡◌, refl, true, List, [], ◌∷◌, ◌++◌, ℕ, suc, ◌+◌, ◌≤◌, ◌<◌, length, drop, get_or};
ghost use Rattle.pieces.specs.declared.Element.{Element};
ghost use Rattle.parser.specs.Parser.{is_digit};
ghost use Rattle.lists.specs.Grammar.{body, element, list, made, number_of, place_of, Reading};
ghost use Rattle.lists.specs.Calls.{malformed_by};
ghost use Rattle.lists.specs.Reader.{Bodied, Bare, ends_at};
ghost use Rattle.lists.specs.Told.{Told, Whole, written, written_more, written_before};

use pieces::{Element, Kind, StringError};
use text::Blanks;

// Within how many brackets an element may stand.
const DEEPEST: usize = 4;

// Why a payload is refused, with the place of the fault: refusals 6 to 9.
#[derive(Clone, Copy)]
pub enum ListError {
    Malformed(usize),
    TooDeep(usize),
    TooLarge(usize),
    TooMany(usize),
}

impl ListError {
    // The refusal's number.
    pub fn number(self) -> u32
        ensures { result ≡ number_of self }
    {
        match self {
            ListError::Malformed(_) => 6,
            ListError::TooDeep(_) => 7,
            ListError::TooLarge(_) => 8,
            ListError::TooMany(_) => 9,
        }
    }

    // Where the fault is.
    pub fn place(self) -> usize
        ensures { result ≡ place_of self }
    {
        match self {
            ListError::Malformed(place)
            | ListError::TooDeep(place)
            | ListError::TooLarge(place)
            | ListError::TooMany(place) => place,
        }
    }
}

// A string that is broken is malformed there.
impl From<StringError> for ListError {
    ghost from_gives = { λ e why. why ≡ malformed_by e };

    fn from(e: StringError) -> ListError {
        let StringError::Broken(place) = e;
        ListError::Malformed(place)
    }
}

// May an element end at `at`? Before a comma; within brackets before a closing one; outside at the end.
#[tactic(auto, using(crate::specs::Calls::ends_past, crate::specs::Calls::ends_comma, crate::specs::Calls::ends_outside, crate::specs::Calls::ends_inside))]
fn ends_at(s: &[u8], at: usize, depth: usize) -> bool
    ensures { result ≡ ends_at depth (drop at s.now) }
{
    if s.len() <= at {
        return depth == 0;
    }
    s[at] == b',' || (depth != 0 && s[at] == b')')
}

// An element that has no value.
fn without_value(place: usize, end: usize, kind: Kind, depth: usize) -> Element
    ensures { result ≡ made place end kind depth 0 0 }
{
    Element {
        place,
        end,
        kind,
        depth,
        low: 0,
        high: 0,
    }
}

// Here and below the place, the depth and the number of elements are three arguments: most calls change one of them alone, and a struct would be no plainer.

// An empty element at `at`, where nothing else begins.
#[tactic(auto, using(crate::specs::Bodies::empty_malformed, crate::specs::Bodies::empty_late, crate::specs::Bodies::empty_is, crate::specs::Reader::bodied_as))]
fn empty_at(s: &[u8], at: usize, depth: usize, n: usize) -> Result<Element, ListError>
    requires { Bare (drop at s.now) }
    ensures { Bodied depth n at (drop at s.now) result }
{
    if !ends_at(s, at, depth) {
        return Err(ListError::Malformed(at));
    }
    if pieces::MOST <= n {
        return Err(ListError::TooMany(at));
    }
    Ok(without_value(at, at, Kind::Empty, depth))
}

// A string whose first quote stands at `at`.
#[tactic(auto, using(crate::specs::Calls::string_over, crate::specs::Calls::string_closed, crate::specs::Calls::string_open, crate::specs::Reader::bodied_as))]
fn string_at(s: &[u8], at: usize, depth: usize, n: usize) -> Result<Element, ListError>
    requires { (at < length s.now) × (get_or s.now at 0 ≡ 34) }
    ensures { Bodied depth n at (drop at s.now) result }
{
    if n >= pieces::MOST {
        return Err(ListError::TooMany(at));
    }
    let end = pieces::string_end(s, at + 1)?;
    Ok(without_value(at, end, Kind::String, depth))
}

// A number, or a range, whose first digit stands at `at`.
#[tactic(auto, using(crate::specs::Calls::number_over, crate::specs::Calls::number_over_count, crate::specs::Calls::number_alone, crate::specs::Calls::range_broken, crate::specs::Calls::range_over, crate::specs::Calls::range_whole, crate::specs::Calls::told_byte))]
fn number_at(s: &[u8], at: usize, depth: usize, n: usize) -> Result<Element, ListError>
    requires { (at < length s.now) × (is_digit (get_or s.now at 0) ≡ true) }
    ensures { Bodied depth n at (drop at s.now) result }
{
    let Some((low, e)) = pieces::number_at(s, at) else {
        return Err(ListError::TooLarge(at));
    };
    if pieces::MOST <= n {
        return Err(ListError::TooMany(at));
    }
    let number = Element {
        place: at,
        end: e,
        kind: Kind::Number,
        depth,
        low,
        high: low,
    };
    if text::byte_at(s, e) != b'-' {
        return Ok(number);
    }
    let second = e + 1;
    if !parser::is_digit(text::byte_at(s, second)) {
        return Err(ListError::Malformed(second));
    }
    match pieces::number_at(s, second) {
        Some((high, end)) => Ok(Element {
            end,
            kind: Kind::Range,
            high,
            ..number
        }),
        None => Err(ListError::TooLarge(second)),
    }
}

// What stands at `at`, where neither a space nor an opening bracket does: a number or a range, a string, or an empty element.
// It is compiled into both readings: called, it hands an element over by memory, for each element twice, and the recursion makes room for that.
#[inline(always)]
#[tactic(auto, using(crate::specs::Calls::told_byte, crate::specs::Calls::told_digit, crate::specs::Calls::bare))]
fn plain_at(s: &[u8], at: usize, depth: usize, n: usize) -> Result<Element, ListError>
    requires { (at ≤ length s.now) × ((get_or s.now at 0 ≡ 32 → ⊥) × (get_or s.now at 0 ≡ 40 → ⊥)) }
    ensures { Bodied depth n at (drop at s.now) result }
{
    let b = text::byte_at(s, at);
    if parser::is_digit(b) {
        number_at(s, at, depth, n)
    } else if b == b'"' {
        string_at(s, at, depth, n)
    } else {
        empty_at(s, at, depth, n)
    }
}

// Where the elements that are read are left: in a memory, or nowhere. `put` is what it is with elements from a number on.
trait Keeps {
    ghost put: { Self → ℕ → List Element → Self };

    // Leaves e in it as the element of that number.
    fn keep(&mut self, number: usize, e: Element)
        ensures { self.new ≡ put self.old number (e ∷ []) };

    // what is left behind other elements stands with them
    ghost more: { (m : Self) (n : ℕ) (es fs : List Element) → put (put m n es) (n + length es) fs ≡ put m n (es ++ fs) };

    // and so does what is left before them
    ghost before: { (m : Self) (n : ℕ) (e : Element) (es : List Element) → put (put m (suc n) es) n (e ∷ []) ≡ put m n (e ∷ es) };
}

// The caller's memory, six numbers an element.
impl Keeps for [u64; pieces::NUMBERS] {
    ghost put = { written };

    #[tactic(auto, unfolding(crate::specs::Grammar::numbers))]
    fn keep(&mut self, number: usize, e: Element) {
        pieces::put(self, number, e);
    }

    ghost more = { written_more };

    ghost before = { written_before };
}

// No memory: a payload is only judged.
#[derive(Clone, Copy)]
struct Judged;

impl Keeps for Judged {
    ghost put = { λ m n es. m };

    fn keep(&mut self, _number: usize, _e: Element) {}

    ghost more = { λ m n es fs. refl };

    ghost before = { λ m n e es. refl };
}

// What stands at `at`, where neither a space nor an opening bracket does, read and left in the memory.
#[tactic(auto, using(crate::specs::Cycle::plain_read, crate::specs::Cycle::plain_refused))]
fn read_plain<K: Keeps>(
    s: &[u8],
    at: usize,
    depth: usize,
    n: usize,
    elements: &mut K,
) -> Result<(usize, usize), ListError>
    requires { (at ≤ length s.now) × ((n ≤ 256) × ((get_or s.now at 0 ≡ 32 → ⊥) × (get_or s.now at 0 ≡ 40 → ⊥))) }
    ensures { Told K.put body depth n at (drop at s.now) elements.old result elements.new }
{
    let e = plain_at(s, at, depth, n)?;
    elements.keep(n, e);
    Ok((e.end, n + 1))
}

// An element from `at` on: its spaces, then a list in brackets, or what holds none. A list is left in the memory before its members, once it is closed.
// How far it came, and with how many elements begun.
#[tactic(auto, using(crate::specs::Calls::told_byte, crate::specs::Cycle::place_within, crate::specs::Cycle::no_space, crate::specs::Cycle::plain_element, crate::specs::Cycle::too_deep_lem, crate::specs::Cycle::too_late, crate::specs::Cycle::inner_refused, crate::specs::Cycle::inner_unclosed, crate::specs::Cycle::inner_closed))]
#[cycle(read_element_read_list)]
fn read_element<K: Keeps>(
    s: &[u8],
    at: usize,
    depth: usize,
    n: usize,
    elements: &mut K,
) -> Result<(usize, usize), ListError>
    requires { (at ≤ length s.now) × ((depth ≤ 4) × (n ≤ 256)) }
    ensures { Told K.put element depth n at (drop at s.now) elements.old result elements.new }
{
    let place = text::skip(Blanks::Space, s, at);
    if text::byte_at(s, place) != b'(' {
        return read_plain(s, place, depth, n, elements);
    }
    if DEEPEST <= depth {
        return Err(ListError::TooDeep(place));
    }
    if pieces::MOST <= n {
        return Err(ListError::TooMany(place));
    }
    let (e, m) = read_list(s, place + 1, depth + 1, n + 1, elements)?;
    if text::byte_at(s, e) != b')' {
        return Err(ListError::Malformed(e));
    }
    let end = e + 1;
    elements.keep(n, without_value(place, end, Kind::List, depth));
    Ok((end, m))
}

// A list from `at` on: an element, and as long as a comma follows, the list behind it.
#[tactic(auto, using(crate::specs::Calls::told_byte, crate::specs::Cycle::came_to, crate::specs::Cycle::head_refused, crate::specs::Cycle::first, crate::specs::Cycle::list_over, crate::specs::Cycle::list_on))]
#[cycle(read_element_read_list)]
fn read_list<K: Keeps>(
    s: &[u8],
    at: usize,
    depth: usize,
    n: usize,
    elements: &mut K,
) -> Result<(usize, usize), ListError>
    requires { (at ≤ length s.now) × ((depth ≤ 4) × (n ≤ 256)) }
    ensures { Told K.put list depth n at (drop at s.now) elements.old result elements.new }
{
    let (e, m) = read_element(s, at, depth, n, elements)?;
    if text::byte_at(s, e) != b',' {
        return Ok((e, m));
    }
    read_list(s, e + 1, depth, m, elements)
}

// The whole payload as one list; its elements are kept. How many they are.
#[tactic(auto, using(crate::specs::Told::whole_refused, crate::specs::Told::whole_stops, crate::specs::Told::whole_read))]
fn read_whole<K: Keeps>(s: &[u8], elements: &mut K) -> Result<usize, ListError>
    ensures { Whole K.put s.now elements.old result elements.new }
{
    let (e, m) = read_list(s, 0, 0, 0, elements)?;
    if e < s.len() {
        return Err(ListError::Malformed(e));
    }
    Ok(m)
}

// Reads the payload of an answer behind its colon. Its elements stand at the front of the memory, in order, a list before its members; the rest of the memory stays.
// Refused, nothing is written: so the payload is judged whole before it is read again to be written.
pub fn read(payload: &[u8], elements: &mut [u64; pieces::NUMBERS]) -> Result<usize, ListError>
    ensures { Reading payload.now elements.old result elements.new }
{
    read_whole(payload, &mut Judged)?;
    read_whole(payload, elements)
}
