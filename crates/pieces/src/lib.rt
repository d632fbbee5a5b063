// What a parameter list (R-4, docs/LISTS.md) is made of: the digits of a number, the bytes of a string; and an element as six numbers
// of lent memory, in which a reader leaves it and a caller finds it.
// Every public function is total: none has a `requires`, and a place past the end has a stated answer.
#![tactic(auto)]

ghost use Rattle.std.specs.Prelude.{◌≡◌, ◌*◌, drop};
ghost use Rattle.std.proofs.lemmas.List.Edits.{sets};
ghost use Rattle.pieces.specs.Pieces.{is_hex, is_char, heard, string_end, number_at, kind_of, numbers_of, element_at};

// How many elements a list may have, how many numbers an element is, and how many numbers so many elements are.
pub const MOST: usize = 256;

pub const FIELDS: usize = 6;

pub const NUMBERS: usize = 1536;

// The largest value that a number may have.
const LARGEST: u32 = 4_294_967_295;

// HEX: a digit, or one of the letters A to F, large or small.
#[tactic(auto, unfolding(crate::specs::Pieces::is_hex, parser::specs::Parser::is_digit))]
fn is_hex(b: u8) -> bool
    ensures { result ≡ is_hex b }
{
    b.is_ascii_hexdigit()
}

// char: 0x20 to 0x7E without the quote and the backslash.
#[tactic(auto, unfolding(crate::specs::Pieces::is_char))]
fn is_char(b: u8) -> bool
    ensures { result ≡ is_char b }
{
    matches!(b, 0x20..=0x7E) && !matches!(b, b'"' | b'\\')
}

// What a byte within a string does: it leaves so many hexadecimal digits owed, it closes the string, or it can't stand there: three cases of their own.
#[derive(Clone, Copy)]
pub enum Heard {
    Owes(usize),
    Closes,
    Breaks,
}

// Where `owed` hexadecimal digits are owed, b must be one; where none is, it is a char, the backslash that owes two, or the quote that closes.
#[tactic(auto, unfolding(crate::specs::Pieces::heard))]
fn hear(owed: usize, b: u8) -> Heard
    ensures { result ≡ heard owed b }
{
    if 0 < owed {
        if is_hex(b) {
            return Heard::Owes(owed - 1);
        }
        return Heard::Breaks;
    }
    if is_char(b) {
        return Heard::Owes(0);
    }
    match b {
        b'\\' => Heard::Owes(2),
        b'"' => Heard::Closes,
        _ => Heard::Breaks,
    }
}

// Why a string doesn't end: the place of the first byte that can't stand in it, or the input's end.
#[derive(Clone, Copy)]
pub enum StringError {
    Broken(usize),
}

// Where the string ends whose first byte behind the quote is at `from`: one past the quote that closes it.
#[tactic(auto, using(crate::specs::Laws::string_open, crate::specs::Laws::string_more, crate::specs::Laws::string_closed, crate::specs::Laws::string_broken))]
pub fn string_end(s: &[u8], from: usize) -> Result<usize, StringError>
    ensures { result ≡ string_end 0 from (drop from s.now) }
{
    let mut owed = 0;
    for i in from..s.len() {
        match hear(owed, s[i]) {
            Heard::Owes(n) => owed = n,
            Heard::Closes => return Ok(i + 1),
            Heard::Breaks => return Err(StringError::Broken(i)),
        }
    }
    Err(StringError::Broken(from.max(s.len())))
}

// The longest run of digits from `from` on, or none where its value is over 4,294,967,295. With no digit there its value is 0 and it ends at `from`.
pub fn number_at(s: &[u8], from: usize) -> Option<(u64, usize)>
    ensures { result ≡ number_at s.now from }
{
    let (value, end) = parser::digits_at::<LARGEST>(s, from)?;
    Some((u64::from(value), end))
}

// What an element is, with its number in the memory.
#[derive(Clone, Copy, Default)]
pub enum Kind {
    #[default]
    Empty = 0,
    Number = 1,
    Range = 2,
    String = 3,
    List = 4,
}

// An element: its first byte behind its spaces, one past its last byte (of an empty one the byte that ends it, twice), its kind, within how many brackets
// it stands, and the values of a range; of a number both are its value, of any other element 0.
#[derive(Clone, Copy, Default)]
pub struct Element {
    pub place: usize,
    pub end: usize,
    pub kind: Kind,
    pub depth: usize,
    pub low: u64,
    pub high: u64,
}

// The kind of a number; any other number is an empty element's.
impl From<u64> for Kind {
    ghost from_gives = { λ n k. k ≡ kind_of n };

    fn from(n: u64) -> Kind {
        match n {
            1 => Kind::Number,
            2 => Kind::Range,
            3 => Kind::String,
            4 => Kind::List,
            _ => Kind::Empty,
        }
    }
}

// Leaves e in the memory as the element of that number, from 0; where there is none so many, nothing changes.
// Here and in `element_at` the array is made a slice: a proof knows a slice's length, and not that of an array that is lent.
pub fn put(elements: &mut [u64; NUMBERS], number: usize, e: Element)
    ensures { elements.new ≡ sets elements.old (6 * number) (numbers_of e) }
{
    let all: &mut [u64] = elements;
    if MOST <= number {
        return;
    }
    let at = FIELDS * number;
    all[at] = e.place as u64;
    all[at + 1] = e.end as u64;
    all[at + 2] = e.kind as u64;
    all[at + 3] = e.depth as u64;
    all[at + 4] = e.low;
    all[at + 5] = e.high;
}

// The element of that number in the memory, from 0; where there is none so many, six zeros' worth: an empty element at 0. Any six numbers are an element.
pub fn element_at(elements: &[u64; NUMBERS], number: usize) -> Element
    ensures { result ≡ element_at elements.now number }
{
    let all: &[u64] = elements;
    if MOST <= number {
        return Element::default();
    }
    let at = FIELDS * number;
    Element {
        place: all[at] as usize,
        end: all[at + 1] as usize,
        kind: Kind::from(all[at + 2]),
        depth: all[at + 3] as usize,
        low: all[at + 4],
        high: all[at + 5],
    }
}
