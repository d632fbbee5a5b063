// Which digester a caller chooses (R-1, R-3), and the calls that every digester has, under one promise each: a table checked, an input digested.
// Those above know of a digester what `Choice` says, and no more. No public function has a `requires`.
#![tactic(auto)]

ghost use Rattle.std.specs.Prelude.{◌≡◌};
ghost use Rattle.table.specs.Table as tables;
ghost use Rattle.answers.specs.Answer.{outcome};
ghost use Rattle.numeric.specs.Numeric.{ruled};
ghost use Rattle.selector.specs.Selector.{choice, digest};

use answers::{Answer, DigestError};
use lines::Digester;
use table::TableError;

// The digesters: one of document 01's lines, which hears the text of a CONNECT line or doesn't (R-3); the one for modems in V0 (R-1).
// An Option would be no plainer: none of the two is the lack of the other.
#[derive(Clone, Copy)]
pub enum Selector {
    Verbal(Digester),
    Numeric,
}

// No table is good in V0 but the empty one; refusal 2 has record number 0 then.
#[tactic(auto, using(numeric::specs::Calls::ruled_bad, numeric::specs::Calls::ruled_empty))]
fn check_empty(table: &[u8]) -> Result<usize, TableError>
    ensures { tables.outcome result ≡ ruled table.now }
{
    if table.is_empty() {
        Ok(0)
    } else {
        Err(TableError::Faulty(0))
    }
}

// Does the digester take the table? The number of its records, or the number that refusal 2 answers.
pub fn check(selector: Selector, table: &[u8]) -> Result<usize, TableError>
    ensures { tables.outcome result ≡ (choice selector table.now).rules }
{
    match selector {
        Selector::Verbal(_) => table::check(table),
        Selector::Numeric => check_empty(table),
    }
}

// What the input was: the chosen digester's answer under the table, or its refusal.
pub fn digest(selector: Selector, table: &[u8], input: &[u8]) -> Result<Answer, DigestError>
    ensures { outcome result ≡ digest selector table.now input.now }
{
    match selector {
        Selector::Verbal(digester) => digest::digest(digester, table, input),
        Selector::Numeric => numeric::digest(table, input),
    }
}

// The same under a table that the caller vouches for: it isn't checked.
pub fn digest_unchecked(selector: Selector, table: &[u8], input: &[u8]) -> Answer
    ensures { result ≡ (choice selector table.now).answers input.now }
{
    match selector {
        Selector::Verbal(digester) => digest::digest_unchecked(digester, table, input),
        Selector::Numeric => numeric::digest_unchecked(input),
    }
}
