// Answers the cases of standard input, one a line; the notation is in crates/notation/src/lib.rt.
#![tactic(auto)]

mod input;

use input::Input;
use say::Out;
use script::Room;
use std::io;
use std::io::Read;

// Answers each line that isn't to be skipped, until the input is over; the turns end too, after more than any run uses up. Where the input can't be read on, the
// answers up to there are written first.
fn all_lines<R: Print, S: Read>(
    out: &mut Out<'_, R>,
    input: &mut Input<S>,
    room: &mut Room<'_>,
) -> io::Result<()> {
    for _ in 0..u64::MAX {
        match input.read_on() {
            Ok(Some(line)) => {
                if !input::is_idle(line) {
                    script::answer(out, line, room)?;
                }
            }
            Ok(None) => {}
            Err(e) => {
                out.flush()?;
                return Err(e);
            }
        }
        if input.is_over {
            break;
        }
    }
    out.flush()
}

fn main(rt: HostRuntime) -> io::Result<()> {
    let mut piece = [0u8; fields::LENGTH];
    let mut table = [0u8; fields::LENGTH];
    let mut buf = [0u8; fields::LENGTH];
    let mut slot = [0u8; fields::LENGTH];
    let mut queue = [0u8; fields::LENGTH];
    let mut gathered = [0u8; fields::LENGTH];
    let mut room = Room {
        piece: &mut piece,
        table: &mut table,
        buf: &mut buf,
        slot: &mut slot,
        queue: &mut queue,
    };
    let mut out = Out::new(&rt, &mut gathered);
    let mut input = Input::new(rt.stdin());
    all_lines(&mut out, &mut input, &mut room)
}
