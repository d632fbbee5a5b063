// The token table of document 01 as it lies in memory: what atat's user hands over as a Parser and three functions is a slice of records here.
// A record is a two-byte mark, for CP one prompt byte, a length byte and the text. It is known by its number, from 0.
// Every public function is total. `check` alone judges a table; `next_of` takes the records as they lie, up to the first that can't be read.
#![tactic(auto)]

ghost use Rattle.std.specs.Prelude.{◌≡◌, ◌+◌, ◌*◌, ◌≤◌, length, take, drop};
ghost use Rattle.table.specs.Table.{all_plain, is_text, text_at, prompt_at, record_at, good_at, ruling, outcome, next_of, found, walk_of, rest};
ghost use Rattle.std.specs.Iterator.{YieldsFirst, item_count};

// What a record stands for: UR, CS, CE, CP.
#[derive(Clone, Copy, PartialEq, Eq)]
pub enum Mark {
    Notice,
    Success,
    Error,
    Prompt,
}

// A record: its mark, its prompt byte (0 for any mark but CP), and where its text lies in the table.
#[derive(Clone, Copy)]
pub struct Record {
    pub mark: Mark,
    pub prompt: u8,
    pub place: usize,
    pub len: usize,
}

// What reading at a place finds: a record, one that can't be read, or the table's end. An Option of a Result would be no plainer: every reader tells the three apart.
#[derive(Clone, Copy)]
enum Read {
    Is(Record),
    Faulty,
    End,
}

// Why a table isn't good (refusal 2): the first faulty record's number.
#[derive(Clone, Copy)]
pub enum TableError {
    Faulty(usize),
}

// At most so many records.
const MOST: usize = 64;

// Are the W bytes from `at` on plain, 0x20 to 0x7E? It goes through all of them, so that a processor may take many at once.
#[tactic(auto, using(crate::specs::Laws::part_more), unfolding(crate::specs::Table::is_plain, crate::specs::Table::all_plain))]
fn part_plain<const W: usize>(t: &[u8], at: usize) -> bool
    requires { at + W ≤ length t.now }
    ensures { result ≡ all_plain (take W (drop at t.now)) }
{
    let mut all = true;
    for j in 0..W {
        all &= (0x20 <= t[at + j]) & (t[at + j] <= 0x7E);
    }
    all
}

// Are t's bytes plain? Its first W and its last W are all there are.
#[tactic(auto, using(crate::specs::Laws::ends_all))]
fn ends_plain<const W: usize>(t: &[u8]) -> bool
    requires { (W ≤ length t.now) × (length t.now ≤ 2 * W) }
    ensures { result ≡ all_plain t.now }
{
    part_plain::<W>(t, 0) & part_plain::<W>(t, t.len() - W)
}

// Are t's bytes plain? The widths are constants, so that each is compiled for itself, without a loop.
fn all_plain(t: &[u8]) -> bool
    requires { (1 ≤ length t.now) × (length t.now ≤ 32) }
    ensures { result ≡ all_plain t.now }
{
    let n = t.len();
    if 16 <= n {
        return ends_plain::<16>(t);
    }
    if 8 <= n {
        return ends_plain::<8>(t);
    }
    if 4 <= n {
        return ends_plain::<4>(t);
    }
    if 2 <= n {
        return ends_plain::<2>(t);
    }
    ends_plain::<1>(t)
}

// A text has 1 to 32 bytes, each 0x20 to 0x7E, the first and the last no space.
// These two are asked last: a byte that was read alone before isn't taken together with others.
#[tactic(auto, unfolding(crate::specs::Table::is_text))]
fn is_text(t: &[u8]) -> bool
    ensures { result ≡ is_text t.now }
{
    let n = t.len();
    1 <= n && n <= 32 && all_plain(t) && t[0] != b' ' && t[n - 1] != b' '
}

// The rest of a record from its length byte on, which stands at k.
#[tactic(auto, unfolding(crate::specs::Table::text_at))]
fn text_at(t: &[u8], k: usize, mark: Mark, prompt: u8) -> Read
    ensures { result ≡ text_at mark prompt t.now k }
{
    if t.len() <= k {
        return Read::Faulty;
    }
    let len = usize::from(t[k]);
    if t.len() - k <= len {
        return Read::Faulty;
    }
    let place = k + 1;
    Read::Is(Record {
        mark,
        prompt,
        place,
        len,
    })
}

// The rest of a CP record from its prompt byte on, which stands at k.
#[tactic(auto, unfolding(crate::specs::Table::prompt_at))]
fn prompt_at(t: &[u8], k: usize) -> Read
    ensures { result ≡ prompt_at t.now k }
{
    if t.len() <= k {
        return Read::Faulty;
    }
    text_at(t, k + 1, Mark::Prompt, t[k])
}

// The record that begins at `at`, as it lies: whether its text keeps the rules is not asked.
// At or past the table's end there is none.
#[tactic(auto, unfolding(crate::specs::Table::record_at))]
fn record_at(t: &[u8], at: usize) -> Read
    ensures { result ≡ record_at t.now at }
{
    if t.len() <= at {
        return Read::End;
    }
    if text::matches_at(t, at, b"UR") {
        return text_at(t, at + 2, Mark::Notice, 0);
    }
    if text::matches_at(t, at, b"CS") {
        return text_at(t, at + 2, Mark::Success, 0);
    }
    if text::matches_at(t, at, b"CE") {
        return text_at(t, at + 2, Mark::Error, 0);
    }
    if text::matches_at(t, at, b"CP") {
        return prompt_at(t, at + 2);
    }
    Read::Faulty
}

// The record that begins at `at`, faulty also where its text breaks a rule.
#[tactic(auto, using(crate::specs::Laws::record_inside, crate::specs::Laws::good_bad, crate::specs::Laws::good_good), unfolding(crate::specs::Table::good_at, crate::specs::Table::good_if))]
fn good_at(t: &[u8], at: usize) -> Read
    ensures { result ≡ good_at t.now at }
{
    match record_at(t, at) {
        Read::Is(r) if !is_text(&t[r.place..r.place + r.len]) => Read::Faulty,
        read => read,
    }
}

// Is the table good? The empty one is; a 65th record is faulty whatever it holds.
#[tactic(auto, using(crate::specs::Laws::check_end, crate::specs::Laws::check_faulty, crate::specs::Laws::check_more, crate::specs::Laws::check_full, crate::specs::Laws::check_over, crate::specs::Laws::good_record_inside))]
pub fn check(t: &[u8]) -> Result<usize, TableError>
    ensures { outcome result ≡ ruling t.now }
{
    let mut at = 0;
    for n in 0..MOST {
        match good_at(t, at) {
            Read::End => return Ok(n),
            Read::Faulty => return Err(TableError::Faulty(n)),
            Read::Is(r) => at = r.place + r.len,
        }
    }
    if at < t.len() {
        return Err(TableError::Faulty(MOST));
    }
    Ok(MOST)
}

// The first record with the mark, read from `at` on, where record number n begins. At most 64 are read in all.
#[tactic(auto, using(crate::specs::Laws::next_over, crate::specs::Laws::next_none, crate::specs::Laws::next_is, crate::specs::Laws::next_more, crate::specs::Laws::record_inside))]
pub fn next_of(t: &[u8], mark: Mark, at: usize, n: usize) -> Option<(Record, usize)>
    ensures { result ≡ next_of mark t.now at n }
{
    let mut place = at;
    for k in n..MOST {
        let Read::Is(r) = record_at(t, place) else {
            return None;
        };
        if r.mark == mark {
            return Some((r, k));
        }
        place = r.place + r.len;
    }
    None
}

// A walk over the records with a mark, as `next_of` finds one after the other: those from a place on are left.
#[derive(Clone, Copy)]
pub struct Walk<'a> {
    table: &'a [u8],
    mark: Mark,
    place: usize,
    number: usize,
}

impl<'a> Iterator for Walk<'a> {
    type Item = (Record, usize);

    ghost next_gives = { YieldsFirst rest };

    ghost remaining = { item_count rest };

    #[tactic(auto, using(crate::specs::Laws::found_none, crate::specs::Laws::found_some), unfolding(crate::specs::Table::rest))]
    fn next(&mut self) -> Option<(Record, usize)> {
        let (r, k) = next_of(self.table, self.mark, self.place, self.number)?;
        self.place = r.place + r.len;
        self.number = k + 1;
        Some((r, k))
    }
}

// The table's records with the mark, each with its number, up to the first that can't be read.
#[tactic(auto, unfolding(crate::specs::Table::rest, crate::specs::Table::walk_of))]
pub fn records<'a>(table: &'a [u8], mark: Mark) -> Walk<'a>
    ensures is { result ≡ walk_of table.entry mark }
    ensures left { rest result ≡ found mark table.now 0 0 }
{
    Walk {
        table,
        mark,
        place: 0,
        number: 0,
    }
}
