// The ingress for whoever hands over few bytes at a time (R-14): the findings so far are kept beside the buffer, and each byte is looked at once for the fixed lines.
// Where they tell that a digest would find nothing and consume nothing, nothing is digested; else it is the ingress's own.
// Findings are sixteen numbers that the caller lends, any sixteen. No public function has a `requires`.
// The ingress's own calls stay beside these: whoever hands over whole answers keeps no findings, and `advanced_genuine` says of both that they are one.
#![tactic(auto)]

ghost use Rattle.std.specs.Prelude.{◌≡◌, ◌≤◌, length};
ghost use Rattle.selector.specs.Selector.{choice};
ghost use Rattle.turn.specs.Turn.{lent, SamePlaces};
ghost use Rattle.ingress.specs.Ingress.{judged, refusal, run_says, ran, result_of, write_says, taking};
ghost use Rattle.quiet.specs.Quiet.{still};
ghost use Rattle.feed.specs.Feed.{fitting, renewed, settled, fed, write_in, advanced_with, written_with};

use findings::{Findings, NUMBERS};
use ingress::{AdvanceError, CheckError, RunError, WriteError};
use selector::Selector;
use turn::{Memories, State};

// Refusals 1, 2 and 3 in this order; 3 also where the findings don't fit: they aren't about as many bytes as are held.
fn judge(
    selector: Selector,
    state: State,
    fits: bool,
    table: &[u8],
    memories: &Memories<'_>,
) -> Result<(), CheckError>
    ensures { refusal result ≡ fitting (judged (choice selector table.now) (lent state memories.now)) fits }
{
    ingress::judge(
        selector,
        state,
        table,
        memories.buf.len(),
        memories.slot.len(),
        memories.queue.len(),
    )?;
    if !fits {
        return Err(CheckError::BadState);
    }
    Ok(())
}

// The findings after turns: those known where nothing was consumed; after a move they are started afresh over what remains.
fn renew(
    numbers: &mut [u64; NUMBERS],
    known: Findings,
    before: usize,
    end: usize,
    memories: &Memories<'_>,
)
    ensures { numbers.new ≡ renewed known before end memories.now.buf.now }
{
    if end == before {
        findings::lay(numbers, known);
        return;
    }
    findings::lay(numbers, findings::start(memories.held(end)));
}

// Where the bytes held end after turns.
fn end_after(ran: Result<State, RunError>) -> usize
    ensures { result ≡ (run_says ran).1.end }
{
    match ran {
        Ok(s) => s.end,
        Err(e) => e.left.end,
    }
}

// Looks at the bytes that came, and runs turns unless nothing is finished.
fn settle(
    selector: Selector,
    table: &[u8],
    state: State,
    numbers: &mut [u64; NUMBERS],
    memories: &mut Memories<'_>,
) -> Result<State, RunError>
    ensures is { fed (ran result memories.new) numbers.new ≡ settled (choice selector table.now) (still selector table.now) numbers.old (lent state memories.old) }
    ensures places { SamePlaces memories.old memories.new }
{
    let held = memories.held(state.end);
    let known = findings::extend(findings::of_numbers(numbers), held);
    if quiet::is_still(selector, table, known, held) {
        findings::lay(numbers, known);
        return Ok(state);
    }
    let ran = ingress::run(selector, table, state, memories);
    renew(numbers, known, state.end, end_after(ran), memories);
    ran
}

// `ingress::advance` with findings. With those that these calls gave for the bytes held it is that call (`advanced_genuine`).
pub fn advance(
    state: State,
    commit: usize,
    selector: Selector,
    table: &[u8],
    numbers: &mut [u64; NUMBERS],
    memories: &mut Memories<'_>,
) -> Result<State, AdvanceError>
    ensures is { fed (result_of state result memories.new) numbers.new ≡ advanced_with (choice selector table.now) (still selector table.now) commit numbers.old (lent state memories.old) }
    ensures places { SamePlaces memories.old memories.new }
{
    let fits = numbers[0] as usize == state.end;
    judge(selector, state, fits, table, memories)?;
    let end = state.end;
    if memories.buf.len() - end < commit {
        return Err(AdvanceError::NoRoom);
    }
    let held = State {
        end: end + commit,
        ..state
    };
    Ok(settle(selector, table, held, numbers, memories)?)
}

// Where the bytes held end after a write.
fn end_of(wrote: Result<(State, usize), WriteError>, state: State) -> usize
    ensures { result ≡ (write_says state wrote).1.end }
{
    match wrote {
        Ok((s, _)) | Err(WriteError::Full(s, _)) => s.end,
        Err(_) => state.end,
    }
}

// A piece that isn't refused: one that fits is copied whole; of another what the ingress's write leaves is looked at afresh.
fn write_in(
    state: State,
    piece: &[u8],
    selector: Selector,
    table: &[u8],
    numbers: &mut [u64; NUMBERS],
    memories: &mut Memories<'_>,
) -> Result<(State, usize), WriteError>
    requires { state.end ≤ length memories.old.buf.now }
    ensures is { fed (taking state result memories.new) numbers.new ≡ write_in (choice selector table.now) (still selector table.now) piece.now numbers.old (lent state memories.old) }
    ensures places { SamePlaces memories.old memories.new }
{
    let end = state.end;
    let n = piece.len();
    if memories.buf.len() - end < n {
        let wrote = ingress::write(state, piece, selector, table, memories);
        let left = memories.held(end_of(wrote, state));
        findings::lay(numbers, findings::start(left));
        return wrote;
    }
    if n == 0 {
        return Ok((state, 0));
    }
    moves::put(memories.buf, end, piece);
    let held = State {
        end: end + n,
        ..state
    };
    match settle(selector, table, held, numbers, memories) {
        Ok(s) => Ok((s, n)),
        Err(e) => Err(WriteError::Full(e.left, n)),
    }
}

// `ingress::write` with findings. With those that these calls gave for the bytes held it is that call (`written_genuine`).
pub fn write(
    state: State,
    piece: &[u8],
    selector: Selector,
    table: &[u8],
    numbers: &mut [u64; NUMBERS],
    memories: &mut Memories<'_>,
) -> Result<(State, usize), WriteError>
    ensures is { fed (taking state result memories.new) numbers.new ≡ written_with (choice selector table.now) (still selector table.now) piece.now numbers.old (lent state memories.old) }
    ensures places { SamePlaces memories.old memories.new }
{
    let fit = numbers[0] as usize == state.end;
    judge(selector, state, fit, table, memories)?;
    write_in(state, piece, selector, table, numbers, memories)
}
