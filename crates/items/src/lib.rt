// What rules 3 to 5 find in buf, each at its first place: custom lines and prompts, `>` and `@`, numeric errors.
// Of the last five only the first occurrence counts: where that is no answer, one further on may be, on a level of the retry below; hints say what need not be looked for there again.
#![tactic(auto)]

ghost use Rattle.std.specs.Prelude.{◌≡◌, true, ◌<◌, ◌-◌, length};
ghost use Rattle.table.specs.Table.{entries};
ghost use Rattle.table.specs.declared.Mark.TheVariants as mark;
ghost use Rattle.text.specs.Text.{stands};
ghost use Rattle.lines.specs.Lines.{fixed_text};
ghost use Rattle.parser.specs.Parser.{only_blanks, numeric_at};
ghost use Rattle.items.specs.Rules.{first_custom, kind_of, custom_prompts, prompt_tried, custom_error, numeric_tried};
ghost use Rattle.items.specs.Hints.{sought, first_place, decided, first_from, nowhere_hint, NoPrompt, prompt_bytes, numerics, firsts, unknown, all_idle};

use answers::{Answer, Kind};
use lines::Fixed;
use places::Places;
use std::ops::ControlFlow;
use table::Mark;
use text::{Blanks, Span};

// A custom line that occurs: its record's number, its text's length and its first place.
#[derive(Clone, Copy)]
pub struct Occurrence {
    pub number: u32,
    pub len: usize,
    pub place: usize,
}

// The rules of which only the first occurrence counts. They are an enum, and not a closure each, since what is known of the hints is said over them (`Known`).
#[derive(Clone, Copy)]
pub enum First {
    Greater,
    Sign,
    Cme,
    Cms,
    Modem,
}

// A hint for each of them. It is a number of bytes: from a place with at least so many bytes behind it the rule is known not to answer.
// Counted from the input's end it means the same in every suffix, so that no level searches what one above has searched.
#[derive(Clone, Copy)]
pub struct Hints {
    pub greater: usize,
    pub sign: usize,
    pub cme: usize,
    pub cms: usize,
    pub modem: usize,
}

// What a level of the retry gives: an answer, or where buf begins and the hints for the level below.
pub type Level = ControlFlow<Answer, (usize, Hints)>;

// Rules 3 and 5: the first record with the mark whose CRLF text CRLF occurs in s from e on.
pub fn first_custom(table: &[u8], mark: Mark, s: &[u8], e: usize) -> Option<Occurrence>
    ensures { result ≡ first_custom (entries mark table.now 0 0) s.now e }
{
    for (r, k) in table::records(table, mark) {
        let end = r.place + r.len;
        if let Some(place) = parser::find_custom(s, e, &table[r.place..end]) {
            return Some(Occurrence {
                number: k as u32,
                len: r.len,
                place,
            });
        }
    }
    None
}

// Rule 4: a prompt, which consumes all, where the test holds.
#[tactic(auto, unfolding(crate::specs::Rules::prompt_tried))]
fn prompt_tried(s: &[u8], holds: bool, byte: u8) -> Option<Answer>
    ensures { result ≡ prompt_tried holds byte s.now }
{
    holds.then(|| answers::with_number(Kind::Prompt, u32::from(byte), s.len()))
}

// Rule 4: custom prompts, in table order.
fn prompts_of(table: &[u8], s: &[u8], e: usize) -> Option<Answer>
    ensures { result ≡ custom_prompts (entries mark.Prompt table.now 0 0) s.now e }
{
    for (r, k) in table::records(table, Mark::Prompt) {
        let end = r.place + r.len;
        let holds = parser::custom_prompt(s, e, &table[r.place..end]);
        if let Some(a) = prompt_tried(s, holds, r.prompt) {
            return Some(a);
        }
    }
    None
}

// The same; an empty table costs no call.
#[tactic(auto, using(crate::specs::Laws::none_prompts))]
pub fn custom_prompts(table: &[u8], s: &[u8], e: usize) -> Option<Answer>
    ensures { result ≡ custom_prompts (entries mark.Prompt table.now 0 0) s.now e }
{
    if table.is_empty() {
        return None;
    }
    prompts_of(table, s, e)
}

// Rule 5: the first CE record that occurs; the payload is the text itself.
#[tactic(auto, unfolding(crate::specs::Rules::custom_error), using(crate::specs::Laws::none_first, crate::specs::Laws::occurs_room))]
pub fn custom_error(table: &[u8], s: &[u8], e: usize) -> Option<Answer>
    ensures { result ≡ custom_error (first_custom (entries mark.Error table.now 0 0) s.now e) }
{
    if table.is_empty() {
        return None;
    }
    let found = first_custom(table, Mark::Error, s, e)?;
    let text = Span {
        start: found.place + 2,
        len: found.len,
    };
    Some(answers::with_payload(
        Kind::Custom,
        found.number,
        text,
        found.place + (found.len + 4),
    ))
}

// Rule 4: `>` or `@` at its first place.
#[tactic(auto, unfolding(parser::specs::Parser::only_blanks))]
fn prompt_at(s: &[u8], place: usize, byte: u8) -> Option<Answer>
    requires { place < length s.now }
    ensures { result ≡ prompt_tried (only_blanks s.now (Some place)) byte s.now }
{
    let end = text::skip(Blanks::Run, s, place + 1);
    prompt_tried(s, s.len() <= end, byte)
}

// Rule 5: a numeric error, its head at its first place; with its digits as they came (R-2).
// Its kind comes along with the head: each caller knows both, so that neither is looked up.
#[tactic(auto, unfolding(crate::specs::Rules::numeric_tried), using(crate::specs::Laws::numeric_behind, text::specs::Laws::stands_fits, lines::specs::Laws::fixed_some))]
fn numeric_at(s: &[u8], place: usize, kind: Kind, head: Fixed) -> Option<Answer>
    requires { (kind ≡ kind_of head) × (stands (fixed_text head) s.now place ≡ true) }
    ensures { result ≡ numeric_tried head (numeric_at (fixed_text head) s.now place) }
{
    let d = parser::tail_at(s, place + lines::fixed_len(head))?;
    let digits = Span {
        start: d.start,
        len: d.stop - d.start,
    };
    Some(answers::with_digits(kind, d.code, digits, d.end))
}

// The first place of what the rule looks for.
fn first_place(rule: First, s: &[u8], e: usize, places: Places) -> Option<usize>
    ensures { result ≡ first_place rule s.now e places }
{
    match rule {
        First::Greater => parser::find_byte(s, e, b'>'),
        First::Sign => parser::find_byte(s, e, b'@'),
        First::Cme => places::place(s, places, Fixed::Cme),
        First::Cms => places::place(s, places, Fixed::Cms),
        First::Modem => places::place(s, places, Fixed::Modem),
    }
}

// What the rule gives there.
#[tactic(auto, unfolding(parser::specs::Parser::at_found), using(text::specs::Laws::stands_fits))]
fn first_at(rule: First, s: &[u8], place: usize) -> Option<Answer>
    requires { stands (sought rule) s.now place ≡ true }
    ensures { result ≡ decided rule s.now (Some place) }
{
    match rule {
        First::Greater => prompt_at(s, place, b'>'),
        First::Sign => prompt_at(s, place, b'@'),
        First::Cme => numeric_at(s, place, Kind::Cme, Fixed::Cme),
        First::Cms => numeric_at(s, place, Kind::Cms, Fixed::Cms),
        First::Modem => numeric_at(s, place, Kind::Unknown, Fixed::Modem),
    }
}

// How many bytes stand from a place on.
fn behind(s: &[u8], place: usize) -> usize
    ensures { result ≡ length s.now - place }
{
    s.len().saturating_sub(place)
}

// What the rule gives from e on. Where at least d bytes are left it is known not to answer, and isn't looked for again.
#[tactic(auto, unfolding(crate::specs::Hints::first_from, crate::specs::Hints::found_hint, crate::specs::Hints::or_hint), using(crate::specs::Laws::place_here, crate::specs::Laws::place_within))]
fn first_from(
    rule: First,
    s: &[u8],
    e: usize,
    places: Places,
    d: usize,
) -> ControlFlow<Answer, usize>
    ensures { result ≡ first_from rule s.now e places d }
{
    if d <= behind(s, e) {
        return ControlFlow::Continue(d);
    }
    let Some(place) = first_place(rule, s, e, places) else {
        return ControlFlow::Continue(0);
    };
    match first_at(rule, s, place) {
        Some(a) => ControlFlow::Break(a),
        None => ControlFlow::Continue(s.len() - place),
    }
}

// Rule 4 behind the custom prompts: the bytes `>`, then `@`, each looked for by itself.
#[tactic(auto, unfolding(crate::specs::Hints::prompt_bytes, crate::specs::Hints::hinted))]
fn prompt_each(s: &[u8], e: usize, places: Places, hints: Hints) -> Level
    ensures { result ≡ prompt_bytes s.now e places hints }
{
    let greater = first_from(First::Greater, s, e, places, hints.greater)?;
    let sign = first_from(First::Sign, s, e, places, hints.sign)?;
    ControlFlow::Continue((
        e,
        Hints {
            greater,
            sign,
            ..hints
        },
    ))
}

// Is there neither a `>` nor an `@` from e on? The one byte between them isn't told from them, which costs a test less, and where it says no each is looked for.
fn no_prompt(s: &[u8], e: usize) -> bool
    ensures { NoPrompt s.now e result }
{
    for i in e..s.len() {
        if (b'>' <= s[i]) & (s[i] <= b'@') {
            return false;
        }
    }
    true
}

// The hint of a rule that has nothing to find: it covers every place, unless one from above covers this one.
#[tactic(auto, unfolding(crate::specs::Hints::nowhere_hint))]
fn nowhere(d: usize, left: usize) -> usize
    ensures { result ≡ nowhere_hint d left }
{
    if d <= left { d } else { 0 }
}

// Rule 4 behind the custom prompts, on the outermost level: in a short input in one go where neither byte is there, as in most answers.
#[tactic(auto, unfolding(crate::specs::Hints::prompt_bytes, crate::specs::Hints::hinted, crate::specs::Hints::first_from, crate::specs::Hints::found_hint, crate::specs::Hints::nowhere_hint))]
pub fn prompt_bytes(s: &[u8], e: usize, places: Places, hints: Hints) -> Level
    ensures { result ≡ prompt_bytes s.now e places hints }
{
    if s.len() < seek::SHORT && no_prompt(s, e) {
        let left = behind(s, e);
        let known = Hints {
            greater: nowhere(hints.greater, left),
            sign: nowhere(hints.sign, left),
            ..hints
        };
        return ControlFlow::Continue((e, known));
    }
    prompt_each(s, e, places, hints)
}

// Rule 5: CME, CMS, MODEM ERROR.
#[tactic(auto, unfolding(crate::specs::Hints::numerics, crate::specs::Hints::hinted))]
pub fn numerics(s: &[u8], e: usize, places: Places, hints: Hints) -> Level
    ensures { result ≡ numerics s.now e places hints }
{
    let cme = first_from(First::Cme, s, e, places, hints.cme)?;
    let cms = first_from(First::Cms, s, e, places, hints.cms)?;
    let modem = first_from(First::Modem, s, e, places, hints.modem)?;
    ControlFlow::Continue((
        e,
        Hints {
            cme,
            cms,
            modem,
            ..hints
        },
    ))
}

// On the outermost level nothing is known: no input has so many bytes.
pub fn unknown() -> Hints
    ensures { result ≡ unknown }
{
    Hints {
        greater: 4097,
        sign: 4097,
        cme: 4097,
        cms: 4097,
        modem: 4097,
    }
}

// Are all five known not to answer, where so many bytes are left? With & it is one test in place of five.
fn idle(hints: Hints, left: usize) -> bool
    ensures { result ≡ all_idle hints left }
{
    (hints.greater <= left)
        & (hints.sign <= left)
        & (hints.cme <= left)
        & (hints.cms <= left)
        & (hints.modem <= left)
}

// The five in their order; where all of them are known not to answer, none is looked for.
#[tactic(auto, unfolding(crate::specs::Hints::firsts, crate::specs::Hints::onward))]
pub fn firsts(s: &[u8], e: usize, places: Places, hints: Hints) -> Level
    ensures { result ≡ firsts s.now e places hints }
{
    if idle(hints, behind(s, e)) {
        return ControlFlow::Continue((e, hints));
    }
    let (_, known) = prompt_each(s, e, places, hints)?;
    numerics(s, e, places, known)
}
