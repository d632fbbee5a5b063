// Digests 4,096 bytes of CRLF, on which the retry goes as deep as it can: 2,046 levels. No proof covers the stack,
// so the tests run this under a limit of 1 MiB.
#![tactic(auto)]

use answers::DigestError;
use lines::Digester;
use std::io;

fn main(rt: HostRuntime) -> io::Result<()> {
    let mut buf = [0; 4096];
    for pair in buf.chunks_exact_mut(2) {
        pair.copy_from_slice(b"\r\n");
    }
    match digest::digest(Digester::Verbose, b"", &buf) {
        Ok(a) => {
            let heard = if answers::is_found(a) {
                "found something"
            } else {
                "None"
            };
            let consumed = a.consumed;
            println!(rt; "4096 bytes of CRLF: {heard}, {consumed}")
        }
        Err(DigestError::TooLong) => println!(rt; "refused 1"),
        Err(DigestError::BadTable(_)) => println!(rt; "refused 2"),
    }
}
