// The fixed texts: the nine lines and the heads of rules 3 and 5 as byte strings, compared as they stand at a position of the buffer; and the digesters, by the lines that they hear.
// Every function is total: at a place past the end none of them stands.
#![tactic(auto)]

ghost use Rattle.std.specs.Prelude.{◌≡◌, length};
ghost use Rattle.text.specs.Text.{stands, find_in};
ghost use Rattle.lines.specs.Lines.{hears_text, crlf, fixed_text};

pub const CRLF: [u8; 2] = *b"\r\n";

// The nine fixed lines of rules 3 and 5, each with the CRLF before and behind it; those that are written too (R-12) are public.
pub const OK: [u8; 6] = *b"\r\nOK\r\n";

const CONNECT: [u8; 11] = *b"\r\nCONNECT\r\n";

pub const ERROR: [u8; 9] = *b"\r\nERROR\r\n";

const COMMAND_NOT_SUPPORT: [u8; 23] = *b"\r\nCOMMAND NOT SUPPORT\r\n";

pub const NO_CARRIER: [u8; 14] = *b"\r\nNO CARRIER\r\n";

pub const BUSY: [u8; 8] = *b"\r\nBUSY\r\n";

pub const NO_ANSWER: [u8; 13] = *b"\r\nNO ANSWER\r\n";

pub const NO_DIALTONE: [u8; 15] = *b"\r\nNO DIALTONE\r\n";

const NA: [u8; 6] = *b"\r\nNA\r\n";

// The heads of the three numeric errors.
pub const CME_ERROR: [u8; 13] = *b"\r\n+CME ERROR:";

pub const CMS_ERROR: [u8; 13] = *b"\r\n+CMS ERROR:";

const MODEM_ERROR: [u8; 14] = *b"\r\nMODEM ERROR:";

// The head of a CONNECT line with text (R-3).
const CONNECT_TEXT: [u8; 10] = *b"\r\nCONNECT ";

// Which digester a caller chooses: document 01's, or one that hears the text of a CONNECT line too (R-3).
#[derive(Clone, Copy)]
pub enum Digester {
    Verbose,
    Connect,
}

// Does the digester hear a CONNECT line with text?
pub fn hears_text(digester: Digester) -> bool
    ensures { result ≡ hears_text digester }
{
    matches!(digester, Digester::Connect)
}

// The thirteen fixed texts: the nine lines, the heads of the three numeric errors, and that of CONNECT with text.
#[derive(Clone, Copy)]
pub enum Fixed {
    Ok,
    Connect,
    Error,
    CommandNotSupport,
    NoCarrier,
    Busy,
    NoAnswer,
    NoDialtone,
    Na,
    Cme,
    Cms,
    Modem,
    ConnectText,
}

impl Fixed {
    // The fixed text byte for byte.
    fn text(self) -> &'static [u8]
        ensures { result.now ≡ fixed_text self }
    {
        match self {
            Fixed::Ok => &OK,
            Fixed::Connect => &CONNECT,
            Fixed::Error => &ERROR,
            Fixed::CommandNotSupport => &COMMAND_NOT_SUPPORT,
            Fixed::NoCarrier => &NO_CARRIER,
            Fixed::Busy => &BUSY,
            Fixed::NoAnswer => &NO_ANSWER,
            Fixed::NoDialtone => &NO_DIALTONE,
            Fixed::Na => &NA,
            Fixed::Cme => &CME_ERROR,
            Fixed::Cms => &CMS_ERROR,
            Fixed::Modem => &MODEM_ERROR,
            Fixed::ConnectText => &CONNECT_TEXT,
        }
    }

    // The places in the text of two bytes that ordinary traffic seldom has so far apart. Any two are right: they say only how fast the search is.
    fn rare(self) -> (usize, usize) {
        match self {
            Fixed::Ok | Fixed::Na => (2, 3),
            Fixed::Connect | Fixed::CommandNotSupport | Fixed::ConnectText => (4, 5),
            Fixed::Error => (6, 7),
            Fixed::NoCarrier => (9, 10),
            Fixed::Busy => (2, 5),
            Fixed::NoAnswer => (7, 8),
            Fixed::NoDialtone => (8, 9),
            Fixed::Cme | Fixed::Cms => (5, 12),
            Fixed::Modem => (4, 13),
        }
    }
}

// Does the fixed text stand in buf at `place`?
pub fn fixed_at(buf: &[u8], place: usize, fixed: Fixed) -> bool
    ensures { result ≡ stands (fixed_text fixed) buf.now place }
{
    text::matches_at(buf, place, fixed.text())
}

// The fixed text's first place at or after `from`, in a long input by blocks.
pub fn find_fixed(buf: &[u8], from: usize, fixed: Fixed) -> Option<usize>
    ensures { result ≡ find_in (fixed_text fixed) buf.now from }
{
    if buf.len() < seek::SHORT {
        return text::find(buf, from, fixed.text());
    }
    let (k, l) = fixed.rare();
    seek::find(buf, from, fixed.text(), k, l)
}

// The first CRLF at or after `from`: in a long input at the first CR, or behind it.
pub fn search_crlf(buf: &[u8], from: usize) -> Option<usize>
    ensures { result ≡ find_in crlf buf.now from }
{
    if buf.len() < seek::SHORT {
        return text::find(buf, from, &CRLF);
    }
    let p = seek::find_cr(buf, from)?;
    if text::matches_at(buf, p, &CRLF) {
        return Some(p);
    }
    seek::find(buf, p, &CRLF, 0, 1)
}

// The same for whoever expects it at `from`: small, so that it costs no call there.
#[tactic(auto, using(text::specs::Steps::find_here))]
pub fn find_crlf(buf: &[u8], from: usize) -> Option<usize>
    ensures { result ≡ find_in crlf buf.now from }
{
    if text::matches_at(buf, from, &CRLF) {
        return Some(from);
    }
    search_crlf(buf, from)
}

// How long the fixed text is, with its CRLFs.
pub fn fixed_len(fixed: Fixed) -> usize
    ensures { result ≡ length (fixed_text fixed) }
{
    fixed.text().len()
}
