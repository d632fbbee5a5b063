// Runs the fifteen known examples of document 01 through the digester and prints each answer as 01's table has it.
#![tactic(auto)]

use answers::{Answer, DigestError, Kind};
use lines::Digester;
use std::io;

// 01's name of a kind. These are words of a page, which `answers::name` doesn't have.
fn name(kind: Kind) -> &'static str {
    match kind {
        Kind::None => "None",
        Kind::Ok => "Ok",
        Kind::Prompt => "Prompt",
        Kind::Cme => "CME",
        Kind::Cms => "CMS",
        Kind::Unknown => "unknown",
        Kind::NotAllowed => "not allowed",
        Kind::Error => "Error",
        Kind::NoCarrier => "no carrier",
        Kind::Busy => "busy",
        Kind::NoAnswer => "no answer",
        Kind::NoDialtone => "no dialtone",
        Kind::Custom => "custom error",
        Kind::Notice => "notice",
    }
}

// A text between back quotes.
fn put_quoted(rt: &impl Print, text: &[u8]) -> io::Result<()> {
    rt.write_all(b" `")?;
    rt.write_all(text)?;
    rt.write_all(b"`")
}

// A prompt's byte, a code, or an Ok's or a notice's payload; an Ok may have none.
fn put_value(rt: &impl Print, input: &[u8], a: Answer) -> io::Result<()> {
    match a.kind {
        Kind::Prompt => put_quoted(rt, &[(a.number % 256) as u8]),
        Kind::Cme | Kind::Cms => {
            let code = a.number;
            print!(rt; " {code}")
        }
        Kind::Ok | Kind::Notice | Kind::Custom => {
            let payload = digest::payload(input, a.payload.start, a.payload.len);
            if payload.is_empty() {
                rt.print(", empty")
            } else {
                put_quoted(rt, payload)
            }
        }
        _ => Ok(()),
    }
}

// One line: the answer, and the bytes consumed.
fn show(rt: &impl Print, table: &[u8], input: &[u8]) -> io::Result<()> {
    match digest::digest(Digester::Verbose, table, input) {
        Ok(a) => {
            rt.print(name(a.kind))?;
            put_value(rt, input, a)?;
            let consumed = a.consumed;
            println!(rt; ", {consumed}")
        }
        Err(DigestError::TooLong) => println!(rt; "refused 1"),
        Err(DigestError::BadTable(k)) => println!(rt; "refused 2 {k}"),
    }
}

// The examples under the empty table.
const PLAIN: [&[u8]; 12] = [
    b"",
    b"   ",
    b"\r\nOK\r\n",
    b"\r\nERROR\r\n\r\nOK\r\n",
    b"\r\n+CME ERROR: 65535\r\n",
    b"\r\n+CME ERROR: 65536\r\n",
    b"\r\n+CMS ERROR:\t7\n",
    b">\r\n",
    b"\r\na>b\r\n>",
    b"x\r\n\r\nNA\r\n",
    b"\r\nok\r\n",
    b"\r\nBUSY\r\n\r\nERROR\r\n",
];

// Those under a table, and that table.
const TABLE: &[u8] = b"UR\x07+UUSORD";

const TABLED: [&[u8]; 3] = [
    b"\r\nRING\r\n\r\n+UUSORD: 0,4\r\n",
    b"\r\n+UUSO",
    b"\r\n+UUSORD: >",
];

fn main(rt: HostRuntime) -> io::Result<()> {
    for input in PLAIN {
        show(&rt, b"", input)?;
    }
    for input in TABLED {
        show(&rt, TABLE, input)?;
    }
    Ok(())
}
