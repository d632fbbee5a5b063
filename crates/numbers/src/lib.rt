// What each number of a lent array means: the state as ten numbers, the digester's answer as nine, and a digester by its number.
// The C interface lends arrays of numbers, so kinds, flags and what a slot holds are numbers here, and nowhere below.
// Any ten numbers are a state, and a state that is written reads back as it was. A number that reads already as it is to read stays
// as it stood, in plain form or not: so a call changes no number but those that it gives another meaning.
#![tactic(auto)]

ghost use Rattle.std.specs.Prelude.{◌≡◌, ◌+◌, ◌<◌, get_or};
ghost use Rattle.numbers.specs.Numbers.{selector_of, kind_of, word, held_number, held_of, span_of, answer_of, slot_of, queue_of, state_of, kept, with_slot, with_queue, with_state, laid, answer_values};

use answers::{Answer, Kind};
use lines::Digester;
use queue::Queue;
use selector::Selector;
use slot::{Held, Slot};
use text::Span;
use turn::State;

// How many numbers a call may answer, and how many a state has.
pub const OUT: usize = 9;

pub const NUMBERS: usize = 10;

// The ten numbers of a state: where the bytes in the buffer end;
pub const END: usize = 0;

// of the slot, whether it is signalled (0: free), what it holds (0 to 13 a kind, 14 CapacityError), the answer's number,
// the length of the stored payload or digits and the lost answers;
const SIGNALLED: usize = 1;

const HELD: usize = 2;

const NUMBER: usize = 3;

const LEN: usize = 4;

const SLOT_LOST: usize = 5;

// of the queue, the ring's start, how many records it holds and the lost notices;
const START: usize = 6;

const COUNT: usize = 7;

const QUEUE_LOST: usize = 8;

// and of the slot again, the serial number in force (R-11), last so that no other number moved.
const SERIAL: usize = 9;

// The largest plain numbers: signalled, CapacityError, and a number of 32 bits.
const MOST_SIGNALLED: u64 = 1;

const MOST_HELD: u64 = 14;

const MOST_WORD: u64 = u32::MAX as u64;

// The digester of a number: 0 document 01's, 1 the one that hears the text of a CONNECT line too (R-3), 2 the one for V0 (R-1); any other number reads as 0.
pub fn selector_of(n: u32) -> Selector
    ensures { result ≡ selector_of n }
{
    match n {
        1 => Selector::Verbal(Digester::Connect),
        2 => Selector::Numeric,
        _ => Selector::Verbal(Digester::Verbose),
    }
}

// The kinds in the order of their numbers.
const KINDS: [Kind; 14] = [
    Kind::None,
    Kind::Ok,
    Kind::Prompt,
    Kind::Cme,
    Kind::Cms,
    Kind::Unknown,
    Kind::NotAllowed,
    Kind::Error,
    Kind::NoCarrier,
    Kind::Busy,
    Kind::NoAnswer,
    Kind::NoDialtone,
    Kind::Custom,
    Kind::Notice,
];

// The kind of a number; one over 13 reads as None.
pub fn kind_of(n: u64) -> Kind
    ensures { result ≡ kind_of n }
{
    KINDS.get(n as usize).copied().unwrap_or(Kind::None)
}

// A number of 32 bits; one over 4,294,967,295 reads as that.
fn word(n: u64) -> u32
    ensures { result ≡ word n }
{
    n.min(MOST_WORD) as u32
}

// The number of what a slot holds.
pub fn held_number(held: Held) -> u64
    ensures { result ≡ held_number held }
{
    match held {
        Held::Heard(kind) => answers::kind_number(kind),
        Held::Capacity => 14,
    }
}

// What a slot holds; a number over 13 reads as CapacityError.
fn held_of(n: u64) -> Held
    ensures { result ≡ held_of n }
{
    if 13 < n {
        Held::Capacity
    } else {
        Held::Heard(kind_of(n))
    }
}

// A part of the input from its place, at `at`, and its length behind that.
fn span_of(answer: &[u64; OUT], at: usize) -> Span
    requires { at + 1 < 9 }
    ensures { result ≡ span_of answer.now at }
{
    Span {
        start: answer[at] as usize,
        len: answer[at + 1] as usize,
    }
}

// An answer from the nine numbers that `wx_digest` leaves.
pub fn answer_of(answer: &[u64; OUT]) -> Answer
    ensures { result ≡ answer_of answer.now }
{
    Answer {
        kind: kind_of(answer[0]),
        number: word(answer[1]),
        payload: span_of(answer, 2),
        digits: span_of(answer, 5),
        text: span_of(answer, 7),
        consumed: answer[4] as usize,
    }
}

// The slot of a state's ten numbers.
pub fn slot_of(state: &[u64; NUMBERS]) -> Slot
    ensures { result ≡ slot_of state.now }
{
    Slot {
        signalled: 0 < state[SIGNALLED],
        held: held_of(state[HELD]),
        number: word(state[NUMBER]),
        len: state[LEN] as usize,
        lost: word(state[SLOT_LOST]),
        serial: word(state[SERIAL]),
    }
}

// The queue of a state's ten numbers.
pub fn queue_of(state: &[u64; NUMBERS]) -> Queue
    ensures { result ≡ queue_of state.now }
{
    Queue {
        start: state[START] as usize,
        count: state[COUNT] as usize,
        lost: word(state[QUEUE_LOST]),
    }
}

// The state of ten numbers.
pub fn state_of(state: &[u64; NUMBERS]) -> State
    ensures { result ≡ state_of state.now }
{
    State {
        end: state[END] as usize,
        slot: slot_of(state),
        queue: queue_of(state),
    }
}

// What is to stand at a place of the state, so that it reads as `new`: what stands there where it reads so already, since a number over `most`
// reads as that. It is looked at only where `new` is `most`: another that reads as `new` is `new`.
#[tactic(auto, unfolding(crate::specs::Numbers::kept))]
fn kept(state: &[u64; NUMBERS], at: usize, most: u64, new: u64) -> u64
    requires { at < 10 }
    ensures { result ≡ kept most (get_or state.now at 0) new }
{
    if new == most && most < state[at] {
        state[at]
    } else {
        new
    }
}

// Another slot, the other numbers as they stood.
pub fn put_slot(state: &mut [u64; NUMBERS], x: Slot)
    ensures { state.new ≡ with_slot state.old x }
{
    state[SIGNALLED] = kept(state, SIGNALLED, MOST_SIGNALLED, x.signalled as u64);
    state[HELD] = kept(state, HELD, MOST_HELD, held_number(x.held));
    state[NUMBER] = kept(state, NUMBER, MOST_WORD, x.number as u64);
    state[LEN] = x.len as u64;
    state[SLOT_LOST] = kept(state, SLOT_LOST, MOST_WORD, x.lost as u64);
    state[SERIAL] = kept(state, SERIAL, MOST_WORD, x.serial as u64);
}

// Another queue, the other numbers as they stood.
pub fn put_queue(state: &mut [u64; NUMBERS], x: Queue)
    ensures { state.new ≡ with_queue state.old x }
{
    state[START] = x.start as u64;
    state[COUNT] = x.count as u64;
    state[QUEUE_LOST] = kept(state, QUEUE_LOST, MOST_WORD, x.lost as u64);
}

// A state as its ten numbers.
pub fn put_state(state: &mut [u64; NUMBERS], s: State)
    ensures { state.new ≡ with_state state.old s }
{
    state[END] = s.end as u64;
    put_slot(state, s.slot);
    put_queue(state, s.queue);
}

// An answer of the digester: kind, number, place, length, bytes consumed; behind them the places and lengths of the digits (R-2) and of the text (R-3).
pub fn lay_answer(out: &mut [u64; OUT], a: Answer)
    ensures { out.new ≡ laid (answer_values a) out.old }
{
    *out = [
        answers::kind_number(a.kind),
        a.number as u64,
        a.payload.start as u64,
        a.payload.len as u64,
        a.consumed as u64,
        a.digits.start as u64,
        a.digits.len as u64,
        a.text.start as u64,
        a.text.len as u64,
    ];
}
