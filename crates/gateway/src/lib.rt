// Document 01's calls, R-4's reader and R-12's writer, for C and Rust: numbers and byte slices go in, the refusal's number comes out (0: not refused).
// What a call answers stands at the front of a lent array of nine numbers, whose other numbers stay as they were.
// Each export promises that it equals the call behind it; none has a condition on its arguments. It changes no number of the state but
// those that the call gives another meaning. C has a name for each call, so exports that differ only in the call behind them stand side by side.
#![tactic(auto)]

ghost use Rattle.std.specs.Prelude.{◌≡◌, get_or, take};
ghost use Rattle.text.specs.Text.{part_at};
ghost use Rattle.table.specs.Table.{ruling};
ghost use Rattle.findings.specs.Findings.{findings_of, numbers_of};
ghost use Rattle.selector.specs.Selector.{choice, digest};
ghost use Rattle.quiet.specs.Quiet.{still};
ghost use Rattle.slot.specs.Slot.{new_slot, signalled, was_reset, was_read, readable};
ghost use Rattle.queue.specs.Queue.{ours, older, new_queue, capacity_of, put_into, taken};
ghost use Rattle.convert.specs.Convert.{converted};
ghost use Rattle.turn.specs.Turn.{world};
ghost use Rattle.ingress.specs.Ingress.{advance_says, advanced, write_says, written, cleared};
ghost use Rattle.feed.specs.Feed.{advanced_with, written_with};
ghost use Rattle.writer.specs.Writer.{say};
ghost use Rattle.numbers.specs.Numbers.{selector_of, kind_of, answer_of, slot_of, queue_of, state_of, with_end, with_slot, with_queue, laid, answer_values};
ghost use Rattle.gateway.specs.Gateway.{call, said, count_values, Listing, part_values, reset_said, turn, signal_said, put_said, read_values, took, take_said, left_said, whole, whole_said, no_values, feeding, feed_said, given_as, spoken, saying_said};

use answers::DigestError;
use convert::ConvertError;
use ingress::{AdvanceError, WriteError};
use numbers::{NUMBERS, OUT};
use queue::{PutError, Queue, TakeError};
use slot::{Looked, ResetError, Slot, SlotError};
use table::TableError;
use turn::{Memories, State};
use writer::SayError;

// What a look or a take answers first: whether there was something.
const THERE: u64 = 1;

const NOTHING: u64 = 0;

// Is the table good? Answers the number of its records; refusal 2 answers the first faulty record's number.
#[unsafe(no_mangle)]
pub extern "C" fn wx_table_check(table: &[u8], out: &mut [u64; OUT]) -> u32
    ensures { call result out.new ≡ said count_values (ruling table.now) out.old }
{
    match table::check(table) {
        Ok(n) => {
            out[0] = n as u64;
            0
        }
        Err(TableError::Faulty(k)) => {
            out[0] = k as u64;
            2
        }
    }
}

// Digests an input under a table, by the digester of that number (R-1, R-3). Answers kind, number, payload's place and length, bytes consumed, digits' place and length
// (R-2), text's place and length (R-3); refusal 2 the faulty record's number.
#[unsafe(no_mangle)]
pub extern "C" fn wx_digest(digester: u32, table: &[u8], input: &[u8], out: &mut [u64; OUT]) -> u32
    ensures { call result out.new ≡ said answer_values (digest (selector_of digester) table.now input.now) out.old }
{
    let chosen = numbers::selector_of(digester);
    match selector::digest(chosen, table, input) {
        Ok(a) => {
            numbers::lay_answer(out, a);
            0
        }
        Err(DigestError::TooLong) => 1,
        Err(DigestError::BadTable(k)) => {
            out[0] = k as u64;
            2
        }
    }
}

// Where a part of a memory begins: at its place, or at the front where it doesn't fit. `text::part` gives the part; C takes its place.
fn fitted(s: &[u8], place: usize, len: usize) -> usize
    ensures { result ≡ part_at s.now place len }
{
    if s.len() < len || s.len() - len < place {
        return 0;
    }
    place
}

// The payload of an answer, its digits or its text, fitted: place in the input and length; both 0 where it doesn't fit.
#[unsafe(no_mangle)]
pub extern "C" fn wx_payload(input: &[u8], place: usize, len: usize, out: &mut [u64; OUT])
    ensures { out.new ≡ laid (part_values input.now place len) out.old }
{
    let n = digest::payload(input, place, len).len();
    out[0] = fitted(input, place, len) as u64;
    out[1] = n as u64;
}

// Makes the slot a new one: free, an empty Ok held, nothing lost, its serial number 0 (R-11).
#[unsafe(no_mangle)]
pub extern "C" fn wx_slot_new(state: &mut [u64; NUMBERS])
    ensures { state.new ≡ with_slot state.old new_slot }
{
    let slot = Slot::new();
    numbers::put_slot(state, slot);
}

// Signals an answer (nine numbers as `wx_digest` leaves them) to the slot, with its payload's bytes, or a numeric error's digits (R-2).
#[unsafe(no_mangle)]
pub extern "C" fn wx_slot_signal(
    state: &mut [u64; NUMBERS],
    answer: &[u64; OUT],
    payload: &[u8],
    mem: &mut [u8],
) -> u32
    ensures { turn result state.new mem.new ≡ signal_said (signalled (slot_of state.old) (answer_of answer.now) payload.now mem.old) state.old }
{
    let slot = numbers::slot_of(state);
    match slot.signal(numbers::answer_of(answer), payload, mem) {
        Ok(next) => {
            numbers::put_slot(state, next);
            0
        }
        Err(SlotError::BadLength) => 3,
    }
}

// Looks at the slot. Answers 1, what is held, its number, the length of its payload or digits and the serial number that it bears (R-11); of a free slot 0 and no more.
#[unsafe(no_mangle)]
pub extern "C" fn wx_slot_lookup(state: &[u64; NUMBERS], mem: &[u8], out: &mut [u64; OUT]) -> u32
    ensures { call result out.new ≡ said read_values (was_read (slot_of state.now) mem.now) out.old }
{
    match numbers::slot_of(state).lookup(mem) {
        Ok(Looked::Signalled(x)) => {
            out[0] = THERE;
            out[1] = numbers::held_number(x.held);
            out[2] = x.number as u64;
            out[3] = x.len as u64;
            out[4] = x.serial as u64;
            0
        }
        Ok(Looked::Nothing(_)) => {
            out[0] = NOTHING;
            0
        }
        Err(SlotError::BadLength) => 3,
    }
}

// Frees the slot for the command of the next serial number (R-11) and changes nothing else.
#[unsafe(no_mangle)]
pub extern "C" fn wx_slot_reset(state: &mut [u64; NUMBERS], serial: u32, mem: &[u8]) -> u32
    ensures { call result state.new ≡ reset_said (was_reset (slot_of state.old) serial mem.now) state.old }
{
    let slot = numbers::slot_of(state);
    match slot.reset(serial, mem) {
        Ok(freed) => {
            numbers::put_slot(state, freed);
            0
        }
        Err(ResetError::BadLength) => 3,
        Err(ResetError::Repeated) => 15,
    }
}

// The payload that can be read, or the digits, fitted: its place in the slot's memory and its length; both 0 of a free slot and where it doesn't fit.
#[unsafe(no_mangle)]
pub extern "C" fn wx_slot_payload(state: &[u64; NUMBERS], mem: &[u8], out: &mut [u64; OUT])
    ensures { out.new ≡ laid (part_values mem.now 0 (readable (slot_of state.now))) out.old }
{
    let slot = numbers::slot_of(state);
    let n = slot.payload(mem).len();
    out[0] = 0;
    out[1] = n as u64;
}

// Makes the queue an empty one with nothing lost.
#[unsafe(no_mangle)]
pub extern "C" fn wx_queue_new(state: &mut [u64; NUMBERS])
    ensures { state.new ≡ with_queue state.old new_queue }
{
    let queue = Queue::new();
    numbers::put_queue(state, queue);
}

// How many records a memory of len bytes holds.
#[unsafe(no_mangle)]
pub extern "C" fn wx_queue_capacity(len: usize) -> usize
    ensures { result ≡ capacity_of ours len }
{
    queue::capacity(len)
}

// Puts a notice into the queue.
#[unsafe(no_mangle)]
pub extern "C" fn wx_queue_put(
    state: &mut [u64; NUMBERS],
    mem: &mut [u8],
    number: u8,
    payload: &[u8],
) -> u32
    ensures { turn result state.new mem.new ≡ put_said (put_into ours (queue_of state.old) number payload.now mem.old) state.old }
{
    match numbers::queue_of(state).put(mem, number, payload) {
        Ok(next) => {
            numbers::put_queue(state, next);
            0
        }
        Err(PutError::BadBounds) => 3,
        Err(PutError::Full) => 5,
    }
}

// Takes the oldest notice. Answers 1, its table number, its payload's place and length in the memory; from an empty queue 0 and no more.
#[unsafe(no_mangle)]
pub extern "C" fn wx_queue_take(state: &mut [u64; NUMBERS], mem: &[u8], out: &mut [u64; OUT]) -> u32
    ensures { took result state.new out.new ≡ take_said (taken ours (queue_of state.old) mem.now) state.old out.old }
{
    match numbers::queue_of(state).take(mem) {
        Ok((rest, Some(notice))) => {
            numbers::put_queue(state, rest);
            out[0] = THERE;
            out[1] = notice.number as u64;
            out[2] = notice.place as u64;
            out[3] = notice.len as u64;
            0
        }
        Ok((_, None)) => {
            out[0] = NOTHING;
            0
        }
        Err(TakeError::Bad) => 3,
    }
}

// Converts a queue in the old form (R-9), whose numbers are those of `old`, into `mem`; the state's queue is then the new one. A gateway that restarts calls it once.
#[unsafe(no_mangle)]
pub extern "C" fn wx_queue_convert(
    old: &[u64; NUMBERS],
    old_mem: &[u8],
    state: &mut [u64; NUMBERS],
    mem: &mut [u8],
) -> u32
    ensures { turn result state.new mem.new ≡ put_said (converted older ours (queue_of old.now) old_mem.now mem.old) state.old }
{
    match convert::convert(numbers::queue_of(old), old_mem, mem) {
        Ok(next) => {
            numbers::put_queue(state, next);
            0
        }
        Err(ConvertError::Bad) => 3,
        Err(ConvertError::TooFew) => 13,
    }
}

// What an advance leaves of the state's numbers, and its number. It is a function of its own since the three memories would be carried along each way out.
fn lay_advanced(
    state: &mut [u64; NUMBERS],
    out: &mut [u64; OUT],
    what: Result<State, AdvanceError>,
) -> u32
    ensures { took result state.new out.new ≡ left_said no_values (advance_says (state_of state.old) what) state.old out.old }
{
    match what {
        Ok(s) => {
            numbers::put_state(state, s);
            0
        }
        Err(AdvanceError::TooLong) => 1,
        Err(AdvanceError::BadTable(k)) => {
            out[0] = k as u64;
            2
        }
        Err(AdvanceError::BadState) => 3,
        Err(AdvanceError::NoRoom) => 4,
        Err(AdvanceError::Full(s)) => {
            numbers::put_state(state, s);
            5
        }
    }
}

// Adds the commit to what is in the buffer, then digests, delivers and moves. Refusal 2 answers the faulty record's number.
#[unsafe(no_mangle)]
pub extern "C" fn wx_ingress_advance(
    state: &mut [u64; NUMBERS],
    commit: usize,
    digester: u32,
    table: &[u8],
    buf: &mut [u8],
    slot_mem: &mut [u8],
    queue_mem: &mut [u8],
    out: &mut [u64; OUT],
) -> u32
    ensures { whole result state.new out.new buf.new slot_mem.new queue_mem.new ≡ whole_said no_values (advanced (choice (selector_of digester) table.now) commit (world (state_of state.old) buf.old slot_mem.old queue_mem.old)) state.old out.old }
{
    let chosen = numbers::selector_of(digester);
    let mut memories = Memories {
        buf,
        slot: slot_mem,
        queue: queue_mem,
    };
    let what = ingress::advance(
        numbers::state_of(state),
        commit,
        chosen,
        table,
        &mut memories,
    );
    lay_advanced(state, out, what)
}

// The same of a write, with the bytes that it took.
fn lay_written(
    state: &mut [u64; NUMBERS],
    out: &mut [u64; OUT],
    what: Result<(State, usize), WriteError>,
) -> u32
    ensures { took result state.new out.new ≡ left_said count_values (write_says (state_of state.old) what) state.old out.old }
{
    match what {
        Ok((s, n)) => {
            numbers::put_state(state, s);
            out[0] = n as u64;
            0
        }
        Err(WriteError::TooLong) => 1,
        Err(WriteError::BadTable(k)) => {
            out[0] = k as u64;
            2
        }
        Err(WriteError::BadState) => 3,
        Err(WriteError::Full(s, n)) => {
            numbers::put_state(state, s);
            out[0] = n as u64;
            5
        }
    }
}

// Copies as much of the piece as fits, advances, and goes on. Answers the bytes taken, at refusal 5 too; refusal 2 the faulty record's number.
#[unsafe(no_mangle)]
pub extern "C" fn wx_ingress_write(
    state: &mut [u64; NUMBERS],
    piece: &[u8],
    digester: u32,
    table: &[u8],
    buf: &mut [u8],
    slot_mem: &mut [u8],
    queue_mem: &mut [u8],
    out: &mut [u64; OUT],
) -> u32
    ensures { whole result state.new out.new buf.new slot_mem.new queue_mem.new ≡ whole_said count_values (written (choice (selector_of digester) table.now) piece.now (world (state_of state.old) buf.old slot_mem.old queue_mem.old)) state.old out.old }
{
    let chosen = numbers::selector_of(digester);
    let mut memories = Memories {
        buf,
        slot: slot_mem,
        queue: queue_mem,
    };
    let what = ingress::write(
        numbers::state_of(state),
        piece,
        chosen,
        table,
        &mut memories,
    );
    lay_written(state, out, what)
}

// `wx_ingress_advance` with findings (R-14): sixteen numbers beside the buffer, what its bytes have to say. Refusal 3 also when they aren't about as many bytes as are held;
// refused 1 to 4 they stay as they were.
#[unsafe(no_mangle)]
pub extern "C" fn wx_feed_advance(
    state: &mut [u64; NUMBERS],
    findings: &mut [u64; findings::NUMBERS],
    commit: usize,
    digester: u32,
    table: &[u8],
    buf: &mut [u8],
    slot_mem: &mut [u8],
    queue_mem: &mut [u8],
    out: &mut [u64; OUT],
) -> u32
    ensures { feeding (whole result state.new out.new buf.new slot_mem.new queue_mem.new) findings.new ≡ feed_said no_values (advanced_with (choice (selector_of digester) table.now) (still (selector_of digester) table.now) commit findings.old (world (state_of state.old) buf.old slot_mem.old queue_mem.old)) state.old out.old }
{
    let chosen = numbers::selector_of(digester);
    let mut memories = Memories {
        buf,
        slot: slot_mem,
        queue: queue_mem,
    };
    let what = feed::advance(
        numbers::state_of(state),
        commit,
        chosen,
        table,
        findings,
        &mut memories,
    );
    lay_advanced(state, out, what)
}

// `wx_ingress_write` with findings, likewise (R-14).
#[unsafe(no_mangle)]
pub extern "C" fn wx_feed_write(
    state: &mut [u64; NUMBERS],
    findings: &mut [u64; findings::NUMBERS],
    piece: &[u8],
    digester: u32,
    table: &[u8],
    buf: &mut [u8],
    slot_mem: &mut [u8],
    queue_mem: &mut [u8],
    out: &mut [u64; OUT],
) -> u32
    ensures { feeding (whole result state.new out.new buf.new slot_mem.new queue_mem.new) findings.new ≡ feed_said count_values (written_with (choice (selector_of digester) table.now) (still (selector_of digester) table.now) piece.now findings.old (world (state_of state.old) buf.old slot_mem.old queue_mem.old)) state.old out.old }
{
    let chosen = numbers::selector_of(digester);
    let mut memories = Memories {
        buf,
        slot: slot_mem,
        queue: queue_mem,
    };
    let what = feed::write(
        numbers::state_of(state),
        piece,
        chosen,
        table,
        findings,
        &mut memories,
    );
    lay_written(state, out, what)
}

// Starts the findings afresh over what is in the buffer (R-14): first of all, and after a call without findings. An end past the buffer counts as the buffer's.
#[unsafe(no_mangle)]
pub extern "C" fn wx_findings_start(
    findings: &mut [u64; findings::NUMBERS],
    state: &[u64; NUMBERS],
    buf: &[u8],
)
    ensures { findings.new ≡ numbers_of (findings_of (take (state_of state.now).end buf.now)) }
{
    let s = numbers::state_of(state);
    let end = s.end.min(buf.len());
    findings::lay(findings, findings::start(&buf[..end]));
}

// Drops what is in the buffer: the end becomes 0, the other numbers stay.
#[unsafe(no_mangle)]
pub extern "C" fn wx_ingress_clear(state: &mut [u64; NUMBERS])
    ensures { state.new ≡ with_end state.old (cleared (get_or state.old 0 0)) }
{
    let old = state[numbers::END] as usize;
    let end = ingress::clear(old);
    state[numbers::END] = end as u64;
}

// Reads the payload of an answer behind its colon as a parameter list (R-4). Answers how many elements it has; they stand at the front of the memory, six numbers
// each: place, end, kind (0 empty, 1 number, 2 range, 3 string, 4 list), depth, low, high. A refusal answers its place, and the memory stays as it was.
#[unsafe(no_mangle)]
pub extern "C" fn wx_list_read(
    payload: &[u8],
    elements: &mut [u64; pieces::NUMBERS],
    out: &mut [u64; OUT],
) -> u32
    ensures { Listing payload.now elements.old out.old result elements.new out.new }
{
    match lists::read(payload, elements) {
        Ok(n) => {
            out[0] = n as u64;
            0
        }
        Err(why) => {
            out[0] = why.place() as u64;
            why.number()
        }
    }
}

// Writes an answer as a modem would (R-12), of the kind of that number, with the number where one is given. Answers how many bytes stand at the output memory's front;
// refusal 2 the faulty record's number. Refused, the memory stays as it was.
#[unsafe(no_mangle)]
pub extern "C" fn wx_say(
    table: &[u8],
    kind: u32,
    numbered: bool,
    number: u32,
    payload: &[u8],
    output: &mut [u8],
    out: &mut [u64; OUT],
) -> u32
    ensures { spoken (call result out.new) output.new ≡ saying_said (say table.now (kind_of kind) (given_as numbered number) payload.now output.old) out.old }
{
    let asked = numbers::kind_of(kind as u64);
    let given = numbered.then_some(number);
    match writer::say(table, asked, given, payload, output) {
        Ok(n) => {
            out[0] = n as u64;
            0
        }
        Err(SayError::BadTable(k)) => {
            out[0] = k as u64;
            2
        }
        Err(SayError::Unread) => 16,
        Err(SayError::Short) => 17,
    }
}

// The version of these exports, for a caller to compare with the one it was written for: one more whenever a call's parameters, a lent array's length or the
// meaning of a number in either changes.
#[unsafe(no_mangle)]
pub extern "C" fn wx_version() -> u32
    ensures { result ≡ 6 }
{
    6
}
