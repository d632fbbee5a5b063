// The input, which `source` reads, line by line.
use fields::{LENGTH, Memory};
use std::io;
use std::io::Read;
use text::Blanks;

// Where the reading stands: the bytes of the chunk from `from` up to `to` wait, and `len` bytes of a line are gathered.
// There is no heap, so that the places stand beside memories of a fixed size.
#[derive(Drop)]
pub struct Input<S> {
    source: S,
    chunk: Memory,
    from: usize,
    to: usize,
    line: Memory,
    len: usize,
    pub is_over: bool,
}

impl<S: Read> Input<S> {
    // Nothing read.
    pub fn new(source: S) -> Input<S> {
        Input {
            source,
            chunk: [0; LENGTH],
            from: 0,
            to: 0,
            line: [0; LENGTH],
            len: 0,
            is_over: false,
        }
    }

    // Gathers the bytes of the chunk up to the next line end, or all of them, and answers whether the line is whole.
    // Past the memory they are dropped, and the line, which fills it, is too long.
    fn gather(&mut self) -> bool {
        let from = self.from;
        let len = self.len;
        let rest = text::part(&self.chunk, from, self.to.saturating_sub(from));
        let end = rest.iter().position(|b| *b == b'\n');
        let n = end.unwrap_or(rest.len());
        let kept = text::part(rest, 0, n.min(LENGTH.saturating_sub(len)));
        self.len = len.saturating_add(kept.len());
        self.from = from.saturating_add(n).saturating_add(1);
        moves::put(&mut self.line, len, kept);
        end.is_some()
    }

    // Gathers to the next line's end, or comes as far as the next chunk; the line once it is whole. Where no chunk is left the line counts as whole, and the input is over.
    pub fn read_on(&mut self) -> io::Result<Option<&[u8]>> {
        if !self.gather() {
            self.to = self.source.read(&mut self.chunk)?;
            self.from = 0;
            if self.to != 0 {
                return Ok(None);
            }
            self.is_over = true;
        }
        let len = self.len;
        self.len = 0;
        Ok(Some(text::part(&self.line, 0, len)))
    }
}

// Is the line a comment, or blank? One that fills the memory is too long, and may go on with anything.
pub fn is_idle(line: &[u8]) -> bool {
    line.starts_with(b"#") || line.len() != LENGTH && text::skip(Blanks::Run, line, 0) == line.len()
}
