// The AT digester of atat 0.25.0 by document 01's rules: bytes from a modem go in, and what they were comes out.
// `digest` is the public call: it checks for itself and refuses by number. Rules 1 to 5 stand in `level`; here are the retry and the refusals.
#![tactic(auto)]

ghost use Rattle.std.specs.Prelude.{◌≡◌, ◌≤◌, length};
ghost use Rattle.table.specs.Table.{tokens};
ghost use Rattle.text.specs.Text.{part_of, part_at, further};
ghost use Rattle.answers.specs.Answer.{outcome, Within};
ghost use Rattle.digest.specs.Digest.{retries, after, digest_in, digest, digest_unchecked};
ghost use Rattle.digest.specs.Step.{seen_from, Handed};
ghost use Rattle.digest.specs.Heard.{HeardIn};

use answers::{Answer, DigestError};
use items::Hints;
use lines::Digester;
use std::ops::ControlFlow;
use table::TableError;

// Rule 6: does the digester call itself?
#[tactic(auto, unfolding(crate::specs::Digest::retries), using(text::specs::Laws::stands_fits))]
fn retries_at(s: &[u8], e: usize) -> bool
    ensures { result ≡ retries s.now e }
{
    text::matches_at(s, e, &lines::CRLF) && 4 < s.len() - e
}

// Rule 6: an answer of the retry seen from the front, before which `moved` bytes stand. Where it is None its consumed count is dropped, and so all of it.
#[tactic(auto, unfolding(crate::specs::Step::seen_from), using(answers::specs::Laws::shift_is))]
fn seen_from(a: Answer, moved: usize) -> Option<Answer>
    requires { (moved ≤ 4096) × Within 4096 a }
    ensures { result ≡ seen_from moved a }
{
    answers::is_found(a).then(|| answers::shifted(a, moved))
}

// Rules 6 and 7 where rules 2 to 5 gave nothing from e on: the digester calls itself on the suffix after the leading CRLF, and so on, level by level.
// What it gives is told from the front, so that no level touches what one below it gave.
#[tactic(auto, using(crate::specs::Step::retries_room))]
fn retry(
    digester: Digester,
    table: &[u8],
    s: &[u8],
    mut e: usize,
    mut hints: Hints,
) -> Option<Answer>
    requires { (length s.now ≤ 4096) × Handed digester (tokens table.now) s.now e hints }
    ensures { result ≡ seen_from 0 (after s.now (digest_in digester (tokens table.now)) e None) }
{
    let mut rest = s;
    let mut moved = 0;
    while retries_at(rest, e) {
        let next = e + 2;
        let behind = &rest[next..];
        moved += next;
        match level::level_below(table, behind, hints) {
            ControlFlow::Break(a) => return seen_from(a, moved),
            ControlFlow::Continue((k, known)) => {
                rest = behind;
                e = k;
                hints = known;
            }
        }
    }
    None
}

// Rules 1 to 7 under a table as it lies: the outermost level, then the retry.
fn digest_in(digester: Digester, table: &[u8], s: &[u8]) -> Answer
    requires { length s.now ≤ 4096 }
    ensures { result ≡ digest_in digester (tokens table.now) s.now }
{
    match level::level_first(digester, table, s) {
        ControlFlow::Break(a) => a,
        ControlFlow::Continue((e, known)) => {
            retry(digester, table, s, e, known).unwrap_or(answers::nothing(e))
        }
    }
}

// The longest input that is digested.
pub const LONGEST: usize = answers::LONGEST;

// What the input was: the answer by document 01's rules 1 to 7 under the table, by the digester that the caller chooses (R-3), or the refusal. Nothing is demanded
// of the caller.
// None exactly when no line start of the input holds a finished item, and a found item ends at the consumed count (`HeardIn`).
#[tactic(auto, unfolding(crate::specs::Digest::digest, crate::specs::Digest::under_table))]
pub fn digest(digester: Digester, table: &[u8], input: &[u8]) -> Result<Answer, DigestError>
    ensures is { outcome result ≡ digest digester table.now input.now }
    ensures heard { HeardIn digester table.now input.now (outcome result) }
{
    if LONGEST < input.len() {
        return Err(DigestError::TooLong);
    }
    // The empty table is good, and needs no walk.
    if !table.is_empty() {
        table::check(table).map_err(|TableError::Faulty(k)| DigestError::BadTable(k))?;
    }
    Ok(digest_in(digester, table, input))
}

// The same under a table that the caller vouches for: it isn't checked. Under a faulty one the records count as they lie,
// up to the first that can't be read. An input over 4,096 bytes is None with nothing consumed.
#[tactic(auto, unfolding(crate::specs::Digest::digest_unchecked))]
pub fn digest_unchecked(digester: Digester, table: &[u8], input: &[u8]) -> Answer
    ensures { result ≡ digest_unchecked digester table.now input.now }
{
    if input.len() <= LONGEST {
        return digest_in(digester, table, input);
    }
    answers::nothing(0)
}

// The payload of an answer, its digits (R-2) or its text (R-3) as a part of the caller's own input; a place and length that don't fit give its empty front part.
pub fn payload(input: &[u8], place: usize, len: usize) -> &[u8]
    ensures is { result.now ≡ part_of input.now place len }
    ensures lies { result.ref_ptr ≡ further input.entry.ref_ptr (part_at input.now place len) }
{
    text::part(input, place, len)
}
