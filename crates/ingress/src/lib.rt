// The blocking half of atat's ingress.rs by document 01: turns, one after the other, until nothing more is consumed.
// The state is a struct by value beside the memories, which the caller lends.
// It relies on the promises and laws below it, and opens none of their definitions. No public function has a `requires`.
#![tactic(auto)]

ghost use Rattle.std.specs.Prelude.{◌≡◌, ◌≤◌, length, take};
ghost use Rattle.selector.specs.Selector.{choice};
ghost use Rattle.turn.specs.Turn.{lent, SamePlaces};
ghost use Rattle.ingress.specs.declared.AdvanceError.TheVariants as advances;
ghost use Rattle.ingress.specs.declared.WriteError.TheVariants as takes;
ghost use Rattle.ingress.specs.Ingress.{run, ran, is_sound, table_error, refusal, checks, advance_error, advanced, result_of, write_once, writing, write_on, write_error, written, taking, cleared};
ghost use Rattle.ingress.specs.Story.{Keeps, committed_bytes, NothingLeft, NothingAfter, took_of};

use selector::Selector;
use table::TableError;
use turn::{Memories, State};

// Why turns stop early (refusal 5): a notice met a full queue. With the state that is left.
#[derive(Clone, Copy)]
pub struct RunError {
    pub left: State,
}

// Turns until the digest consumes 0 or nothing is left.
pub fn run(
    selector: Selector,
    table: &[u8],
    state: State,
    memories: &mut Memories<'_>,
) -> Result<State, RunError>
    ensures is { ran result memories.new ≡ run (choice selector table.now) (lent state memories.old) }
    ensures places { SamePlaces memories.old memories.new }
{
    let mut s = state;
    while 0 < s.end {
        let Some((next, n)) = turn::step(selector, table, s, memories) else {
            return Err(RunError { left: s });
        };
        s = next;
        if n == 0 {
            break;
        }
    }
    Ok(s)
}

// Do the numbers fit the memories? The end lies in the buffer, the stored length in the slot's memory, start and count within their bounds.
#[tactic(auto, unfolding(crate::specs::Ingress::is_sound))]
fn is_sound(state: State, buf: usize, slot: usize, queue: usize) -> bool
    ensures { result ≡ is_sound state buf slot queue }
{
    state.end <= buf && state.slot.len <= slot && state.queue.is_bounded(queue::capacity(queue))
}

// Why arguments are refused: 1, 2 with the first faulty record's number, 3.
#[derive(Clone, Copy)]
pub enum CheckError {
    TooLong,
    BadTable(usize),
    BadState,
}

impl From<TableError> for CheckError {
    ghost from_gives = { λ e w. w ≡ table_error e };

    fn from(e: TableError) -> CheckError {
        match e {
            TableError::Faulty(k) => CheckError::BadTable(k),
        }
    }
}

// Refusals 1, 2 and 3 in this order, by what the digester says of the table, for memories of these lengths.
#[tactic(auto, unfolding(crate::specs::Ingress::checks, crate::specs::Ingress::under_table))]
pub fn judge(
    selector: Selector,
    state: State,
    table: &[u8],
    buf: usize,
    slot: usize,
    queue: usize,
) -> Result<(), CheckError>
    ensures { refusal result ≡ checks (choice selector table.now).rules state buf slot queue }
{
    if digest::LONGEST < buf {
        return Err(CheckError::TooLong);
    }
    selector::check(selector, table)?;
    if !is_sound(state, buf, slot, queue) {
        return Err(CheckError::BadState);
    }
    Ok(())
}

// Why an advance is refused: 1 to 4 leave all as it stood, 5 with the state that is left.
#[derive(Clone, Copy)]
pub enum AdvanceError {
    TooLong,
    BadTable(usize),
    BadState,
    NoRoom,
    Full(State),
}

impl From<CheckError> for AdvanceError {
    ghost from_gives = { λ e w. w ≡ advance_error e };

    fn from(e: CheckError) -> AdvanceError {
        match e {
            CheckError::TooLong => AdvanceError::TooLong,
            CheckError::BadTable(k) => AdvanceError::BadTable(k),
            CheckError::BadState => AdvanceError::BadState,
        }
    }
}

impl From<RunError> for AdvanceError {
    ghost from_gives = { λ e w. w ≡ advances.Full e.left };

    fn from(e: RunError) -> AdvanceError {
        AdvanceError::Full(e.left)
    }
}

// Adds the commit to what is in the buffer, then digests, delivers and moves until nothing more is consumed.
// No byte is lost (`keeps`), and what it leaves, not refused, holds no finished item (`nothing_left`).
pub fn advance(
    state: State,
    commit: usize,
    selector: Selector,
    table: &[u8],
    memories: &mut Memories<'_>,
) -> Result<State, AdvanceError>
    ensures is { result_of state result memories.new ≡ advanced (choice selector table.now) commit (lent state memories.old) }
    ensures keeps { Keeps (choice selector table.now) (lent state memories.old) (committed_bytes (lent state memories.old) commit) (result_of state result memories.new) }
    ensures nothing_left { NothingLeft (choice selector table.now) (result_of state result memories.new) }
    ensures places { SamePlaces memories.old memories.new }
{
    judge(
        selector,
        state,
        table,
        memories.buf.len(),
        memories.slot.len(),
        memories.queue.len(),
    )?;
    let end = state.end;
    if memories.buf.len() - end < commit {
        return Err(AdvanceError::NoRoom);
    }
    let held = State {
        end: end + commit,
        ..state
    };
    Ok(run(selector, table, held, memories)?)
}

// Why a copy stops early (refusal 5): a notice met a full queue. With the state that is left and the bytes taken.
#[derive(Clone, Copy)]
pub struct CopyError {
    pub left: State,
    pub taken: usize,
}

// Copies what fits of the bytes behind those held, and runs turns. Where nothing fits, nothing is digested.
fn write_once(
    selector: Selector,
    table: &[u8],
    state: State,
    bytes: &[u8],
    memories: &mut Memories<'_>,
) -> Result<(State, usize), CopyError>
    requires { state.end ≤ length memories.old.buf.now }
    ensures is { writing result memories.new ≡ write_once (choice selector table.now) bytes.now (lent state memories.old) }
    ensures places { SamePlaces memories.old memories.new }
{
    let end = state.end;
    let n = bytes.len().min(memories.buf.len() - end);
    if n == 0 {
        return Ok((state, 0));
    }
    moves::put(memories.buf, end, &bytes[..n]);
    let held = State {
        end: end + n,
        ..state
    };
    match run(selector, table, held, memories) {
        Ok(s) => Ok((s, n)),
        Err(RunError { left }) => Err(CopyError { left, taken: n }),
    }
}

// Copies until the piece is used up or there is no room.
fn write_on(
    selector: Selector,
    table: &[u8],
    state: State,
    piece: &[u8],
    memories: &mut Memories<'_>,
) -> Result<(State, usize), CopyError>
    requires { state.end ≤ length memories.old.buf.now }
    ensures is { writing result memories.new ≡ write_on (choice selector table.now) piece.now 0 (lent state memories.old) }
    ensures places { SamePlaces memories.old memories.new }
{
    let mut s = state;
    let mut taken = 0;
    // no `for`: a turn takes as much as fits
    loop {
        match write_once(selector, table, s, &piece[taken..], memories) {
            Ok((next, more)) => {
                s = next;
                if more == 0 {
                    return Ok((s, taken));
                }
                taken += more;
            }
            Err(e) => {
                return Err(CopyError {
                    taken: taken + e.taken,
                    ..e
                });
            }
        }
    }
}

// Why a write is refused: 1 to 3 leave all as it stood, 5 with the state that is left and the bytes taken. What it shares with an advance is a CheckError;
// flat, a caller matches one enum.
#[derive(Clone, Copy)]
pub enum WriteError {
    TooLong,
    BadTable(usize),
    BadState,
    Full(State, usize),
}

impl From<CheckError> for WriteError {
    ghost from_gives = { λ e w. w ≡ write_error e };

    fn from(e: CheckError) -> WriteError {
        match e {
            CheckError::TooLong => WriteError::TooLong,
            CheckError::BadTable(k) => WriteError::BadTable(k),
            CheckError::BadState => WriteError::BadState,
        }
    }
}

impl From<CopyError> for WriteError {
    ghost from_gives = { λ e w. w ≡ takes.Full e.left e.taken };

    fn from(e: CopyError) -> WriteError {
        WriteError::Full(e.left, e.taken)
    }
}

// Copies as much of the piece as fits, advances, and goes on until the piece is used up or there is no room.
// After refusal 5 the bytes taken are in the buffer or consumed: only the rest of the piece is to be offered again.
// No byte is lost (`keeps`), and what it leaves, not refused and a byte taken, holds no finished item (`nothing_left`).
pub fn write(
    state: State,
    piece: &[u8],
    selector: Selector,
    table: &[u8],
    memories: &mut Memories<'_>,
) -> Result<(State, usize), WriteError>
    ensures is { taking state result memories.new ≡ written (choice selector table.now) piece.now (lent state memories.old) }
    ensures keeps { Keeps (choice selector table.now) (lent state memories.old) (take (took_of (taking state result memories.new).said) piece.now) (taking state result memories.new) }
    ensures nothing_left { NothingAfter (choice selector table.now) (taking state result memories.new) }
    ensures places { SamePlaces memories.old memories.new }
{
    judge(
        selector,
        state,
        table,
        memories.buf.len(),
        memories.slot.len(),
        memories.queue.len(),
    )?;
    Ok(write_on(selector, table, state, piece, memories)?)
}

// Drops what is in the buffer: the next end.
pub fn clear(end: usize) -> usize
    ensures { result ≡ cleared end }
{
    0
}
