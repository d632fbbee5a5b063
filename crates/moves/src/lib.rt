// What the slot, the queue and the ingress have in common: bytes put into lent memory and moved within it, and a count that stays at its largest.
// Every function is total: what doesn't fit changes nothing.
#![tactic(auto)]

ghost use Rattle.std.specs.Prelude.{◌≡◌};
ghost use Rattle.moves.specs.Moves.{put, moved, one_more};

// Puts p into mem from the place `at` on; the other bytes stay. Where it doesn't fit, all stay.
#[tactic(auto, using(crate::specs::Laws::put_none))]
pub fn put(mem: &mut [u8], at: usize, p: &[u8])
    ensures { mem.new ≡ put mem.old at p.now }
{
    if at <= mem.len() && p.len() <= mem.len() - at {
        // byte by byte: for `copy_from_slice` an archive would need the C library's memmove
        for i in 0..p.len() {
            mem[at + i] = p[i];
        }
    }
}

// Moves the bytes from n up to `end` to the front; those from the new end on keep what they held. Ends that don't fit move nothing.
#[tactic(auto, using(crate::specs::Laws::moved_back, crate::specs::Laws::moved_past))]
pub fn move_down(buf: &mut [u8], n: usize, end: usize)
    ensures { buf.new ≡ moved buf.old n end }
{
    if n <= end && end <= buf.len() {
        for j in 0..end - n {
            buf[j] = buf[n + j];
        }
    }
}

// One more; 4,294,967,295 stays.
pub fn one_more(n: u32) -> u32
    ensures { result ≡ one_more n }
{
    n.saturating_add(1)
}
