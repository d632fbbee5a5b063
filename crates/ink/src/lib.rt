// Texts put into lent memory one behind the other: as they stand, in decimal, in hexadecimal. Every byte is promised.
// A page is the memory and where the text in it ends. Where a text doesn't fit nothing changes, and the page ends where it ended.
#![tactic(auto)]

ghost use Rattle.std.specs.Prelude.{◌≡◌, ◌≤◌, ◌<◌, length, take, drop};
ghost use Rattle.ink.specs.Ink.{inked, ink, decimal, hex_digit, hex};

// The hexadecimal digits, in upper case.
const DIGITS: &[u8; 16] = b"0123456789ABCDEF";

// A number's decimal digits, the last one first: they stand in d from the answer on.
#[tactic(auto, using(crate::specs::Laws::digits_start, crate::specs::Laws::digit_last, crate::specs::Laws::digit_more, crate::specs::Laws::digits_end))]
fn digits(n: u64, d: &mut [u8; 20]) -> usize
    ensures { (result ≤ 20) × (drop result d.new ≡ decimal n) }
{
    let mut m = n;
    for k in (0..20).rev() {
        d[k] = b'0' + (m % 10) as u8;
        m /= 10;
        if m == 0 {
            return k;
        }
    }
    0
}

// One hexadecimal digit.
fn hex_digit(n: u8) -> u8
    requires { n < 16 }
    ensures { result ≡ hex_digit n }
{
    DIGITS[n as usize]
}

// Lent memory, and where the text in it ends.
#[derive(Drop)]
pub struct Page<'a> {
    pub out: &'a mut [u8],
    pub at: usize,
}

impl Page<'_> {
    // The bytes before the end. An end past the memory counts as the memory's.
    pub fn text(&self) -> &[u8]
        ensures { result.now ≡ take self.now.at self.now.out.now }
    {
        &self.out[..self.at.min(self.out.len())]
    }

    // A text as it stands.
    #[tactic(auto, using(crate::specs::Laws::ink_over, crate::specs::Laws::ink_is))]
    pub fn words(&mut self, text: &[u8])
        ensures is { inked self.new.out.now self.new.at ≡ ink self.old.out.now self.old.at text.now }
        ensures place { self.new.out.ghost_name ≡ self.old.out.ghost_name }
        ensures long { length self.new.out.now ≡ length self.old.out.now }
    {
        let room = self.out.len();
        if room < self.at || room - self.at < text.len() {
            return;
        }
        moves::put(self.out, self.at, text);
        self.at += text.len();
    }

    // A number in decimal.
    #[tactic(auto, using(crate::specs::Laws::digits_text))]
    pub fn decimal(&mut self, n: u64)
        ensures is { inked self.new.out.now self.new.at ≡ ink self.old.out.now self.old.at (decimal n) }
        ensures place { self.new.out.ghost_name ≡ self.old.out.ghost_name }
        ensures long { length self.new.out.now ≡ length self.old.out.now }
    {
        let mut d = [0; 20];
        let k = digits(n, &mut d);
        self.words(&d[k..]);
    }

    // Bytes in hexadecimal, two digits each.
    #[tactic(auto, using(crate::specs::Laws::hex_over, crate::specs::Laws::hex_start))]
    pub fn hex(&mut self, p: &[u8])
        ensures is { inked self.new.out.now self.new.at ≡ ink self.old.out.now self.old.at (hex p.now) }
        ensures place { self.new.out.ghost_name ≡ self.old.out.ghost_name }
        ensures long { length self.new.out.now ≡ length self.old.out.now }
    {
        let room = self.out.len();
        if room < self.at || (room - self.at) / 2 < p.len() {
            return;
        }
        for b in p {
            self.words(&[hex_digit(*b / 16), hex_digit(*b % 16)]);
        }
    }
}
