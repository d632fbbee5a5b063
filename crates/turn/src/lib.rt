// One turn of the ingress by document 01: digest what is in the buffer, deliver, move the rest to the front.
// The state is a struct by value beside the memories, which the caller lends.
// It relies on the promises and laws of digester, slot and queue, and opens none of their definitions. No public function has a `requires`.
#![tactic(auto)]

ghost use Rattle.std.specs.Prelude.{◌≡◌, true, ◌<◌, take};
ghost use Rattle.answers.specs.Answer.{is_notice};
ghost use Rattle.selector.specs.Selector.{choice};
ghost use Rattle.turn.specs.Turn.{deliver, delivery, lent, SamePlaces, once, stepped};

use answers::Answer;
use queue::Queue;
use selector::Selector;
use slot::Slot;

// Where the bytes in the buffer end, and the slot and the queue beside it.
#[derive(Clone, Copy)]
pub struct State {
    pub end: usize,
    pub slot: Slot,
    pub queue: Queue,
}

// What the caller lends: the buffer, the slot's memory and the queue's memory.
#[derive(Drop)]
pub struct Memories<'a> {
    pub buf: &'a mut [u8],
    pub slot: &'a mut [u8],
    pub queue: &'a mut [u8],
}

impl Memories<'_> {
    // The bytes held: those of the buffer before the end. An end past the buffer counts as the buffer's.
    pub fn held(&self, end: usize) -> &[u8]
        ensures { result.now ≡ take end self.now.buf.now }
    {
        &self.buf[..end.min(self.buf.len())]
    }
}

// A notice goes to the queue as a record, any other answer to the slot as a signal; None delivers nothing. A notice's number fits the record's byte.
#[tactic(auto, unfolding(crate::specs::Turn::deliver))]
fn deliver(state: State, a: Answer, p: &[u8], slot: &mut [u8], queue: &mut [u8]) -> Option<State>
    requires { is_notice a.kind ≡ true → a.number < 256 }
    ensures { delivery state result slot.new queue.new ≡ deliver state a p.now slot.old queue.old }
{
    if answers::is_notice(a.kind) {
        let put = state.queue.put(queue, a.number as u8, p).ok()?;
        return Some(State {
            queue: put,
            ..state
        });
    }
    let signalled = state.slot.signal(a, p, slot).ok()?;
    Some(State {
        slot: signalled,
        ..state
    })
}

// Digests what is in the buffer, delivers, and moves the rest to the front; None where a notice meets a full queue. An end past the buffer counts as the buffer's.
pub fn step(
    selector: Selector,
    table: &[u8],
    state: State,
    memories: &mut Memories<'_>,
) -> Option<(State, usize)>
    ensures is { stepped state result memories.new ≡ once (choice selector table.now) (lent state memories.old) }
    ensures places { SamePlaces memories.old memories.new }
{
    let buf = &mut *memories.buf;
    let slot = &mut *memories.slot;
    let queue = &mut *memories.queue;
    let end = state.end.min(buf.len());
    let held = &buf[..end];
    let a = selector::digest_unchecked(selector, table, held);
    let part = answers::carried(a);
    let p = digest::payload(held, part.start, part.len);
    let next = deliver(state, a, p, slot, queue)?;
    let n = a.consumed;
    moves::move_down(buf, n, end);
    Some((
        State {
            end: end - n,
            ..next
        },
        n,
    ))
}
