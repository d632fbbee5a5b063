// What the harness says: bytes gathered in a memory, and written to standard output, which `rt` prints to, when it is full.
// Each call fails where what is gathered can't be written. It is part of a harness and promises only that it doesn't trip.
#![tactic(auto)]

use answers::Kind;
use fields::{LENGTH, Memory};
use ink::Page;
use std::io;

// What is gathered and not yet written is on a page of the memory, which is fixed, since there is no heap.
#[derive(Drop)]
pub struct Out<'a, R> {
    rt: &'a R,
    page: Page<'a>,
}

impl<'a, R: Print> Out<'a, R> {
    pub fn new(rt: &'a R, mem: &'a mut Memory) -> Out<'a, R> {
        Out {
            rt,
            page: Page { out: mem, at: 0 },
        }
    }

    // Writes what is gathered.
    pub fn flush(&mut self) -> io::Result<()> {
        self.rt.write_all(self.page.text())?;
        self.page.at = 0;
        Ok(())
    }

    // Makes room for n more bytes: where there is none behind those gathered, these are written.
    fn make_room(&mut self, n: usize) -> io::Result<()> {
        if LENGTH < self.page.at.saturating_add(n) {
            self.flush()?;
        }
        Ok(())
    }

    // A text, which is shorter than the memory.
    pub fn words(&mut self, t: &[u8]) -> io::Result<()> {
        self.make_room(t.len())?;
        self.page.words(t);
        Ok(())
    }

    // A number in decimal.
    pub fn number(&mut self, n: u64) -> io::Result<()> {
        self.make_room(20)?;
        self.page.decimal(n);
        Ok(())
    }

    // Bytes in hexadecimal, `-` for none; one by one, since they may be more than the memory holds.
    pub fn hex(&mut self, p: &[u8]) -> io::Result<()> {
        if p.is_empty() {
            return self.words(b"-");
        }
        for b in p {
            self.make_room(2)?;
            self.page.hex(&[*b]);
        }
        Ok(())
    }

    // The bytes of a memory.
    pub fn memory(&mut self, p: &[u8]) -> io::Result<()> {
        self.words(b" memory ")?;
        self.hex(p)
    }

    // A number behind a text.
    pub fn behind(&mut self, t: &[u8], n: u64) -> io::Result<()> {
        self.words(t)?;
        self.number(n)
    }

    // A space and a number.
    pub fn and_number(&mut self, n: u64) -> io::Result<()> {
        self.behind(b" ", n)
    }

    // The serial number of a slot (R-11).
    pub fn serial(&mut self, n: u32) -> io::Result<()> {
        self.behind(b" serial ", n as u64)
    }

    // A kind and its number, `-` for none.
    pub fn kind_number(&mut self, kind: Kind, n: u32) -> io::Result<()> {
        self.words(answers::name(kind))?;
        if answers::has_number(kind) {
            self.and_number(n as u64)
        } else {
            self.words(b" -")
        }
    }

    // A refusal by its number.
    pub fn refusal(&mut self, n: u64) -> io::Result<()> {
        self.behind(b"refused ", n)
    }

    // Refusal 2 with the record's number.
    pub fn refusal_of_record(&mut self, k: usize) -> io::Result<()> {
        self.behind(b"refused 2 ", k as u64)
    }

    // The bytes that a write took.
    pub fn took(&mut self, n: usize) -> io::Result<()> {
        self.behind(b"took ", n as u64)
    }

    // The answer to a line that doesn't read.
    pub fn bad_line(&mut self) -> io::Result<()> {
        self.words(b"bad line\n")
    }
}
