// atread: digests standard input under the empty table and prints what was heard, as document 01 says. The work is `report::report`.
#![tactic(auto)]

use std::io;

fn main(rt: HostRuntime) -> io::Result<()> {
    // One byte more than the longest input, so that a longer one is seen to be.
    let mut input = [0; 4097];
    let n = intake::read_full(&mut rt.stdin(), &mut input)?;
    let mut out = [0; report::ROOM];
    if let Ok(k) = report::report(&input[..n], &mut out) {
        rt.write_all(text::part(&out, 0, k))?;
    }
    Ok(())
}
