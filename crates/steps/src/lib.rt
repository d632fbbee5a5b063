// The steps of an input that is digested to its end by document 01's digester, until 0 is consumed or nothing is left: each begins where the one before it ended.
// The caller holds the place and asks for the step that begins there. The table isn't asked about, as in `digest_unchecked`.
#![tactic(auto)]

ghost use Rattle.std.specs.Prelude.{◌≡◌};
ghost use Rattle.steps.specs.Steps.{steps_from, first_of};

use answers::Answer;
use lines::Digester;

// Where a digest began, and what it answered of the bytes from there on.
#[derive(Clone, Copy)]
pub struct Step {
    pub from: usize,
    pub answer: Answer,
}

// The step that begins at `from`; past the input there is none.
pub fn next(table: &[u8], input: &[u8], from: usize) -> Option<Step>
    ensures { result ≡ first_of (steps_from table.now input.now from) }
{
    let answer = digest::digest_unchecked(Digester::Verbose, table, input.get(from..)?);
    if answer.consumed == 0 {
        return None;
    }
    Some(Step { from, answer })
}
