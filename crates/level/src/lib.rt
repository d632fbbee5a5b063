// Rules 1 to 5 on a level of the retry: the places of the fixed texts, and a decision on them in document 01's order.
// A level below the outermost one can answer a notice, one of the five items with hints, or NA, and looks for nothing else.
#![tactic(auto)]

ghost use Rattle.std.specs.Prelude.{◌≡◌, [], ◌≤◌, ◌+◌, length};
ghost use Rattle.table.specs.Table.{entries};
ghost use Rattle.table.specs.declared.Mark.TheVariants as mark;
ghost use Rattle.text.specs.Text.{find_in};
ghost use Rattle.lines.specs.Lines.{crlf, fixed_text};
ghost use Rattle.parser.specs.Parser.{line_ending, notice_at};
ghost use Rattle.places.specs.Places.{FirstLines, line_in};
ghost use Rattle.items.specs.Rules.{skipped, heard, notices, first_custom, kind_of, success, custom_success, through_crlf, first_connect, connected, connect_success, successes, line_tried, line_errors, not_allowed};
ghost use Rattle.level.specs.Level.{Unless, SameCustoms, OthersTold, PlacesTold, unless, noticed_tried, succeeded_tried, errors_from, behind, outermost, below};

use answers::{Answer, Kind};
use items::{Hints, Level};
use lines::{Digester, Fixed};
use parser::Notice;
use pass::Passed;
use places::{Lines, Places};
use std::ops::ControlFlow;
use table::Mark;
use text::Span;

// Rule 1: how many bytes are skipped, leading spaces and what stands before the first CRLF behind them.
#[tactic(auto, unfolding(items::specs::Rules::skipped, items::specs::Rules::found_or))]
pub fn skipped(s: &[u8]) -> usize
    ensures { result ≡ skipped s.now }
{
    let a = seek::skip_spaces(s, 0);
    lines::find_crlf(s, a).unwrap_or(a)
}

// A rule that answers ends its level; else the next one is asked.
fn unless(rule: Option<Answer>) -> ControlFlow<Answer, ()>
    ensures { result ≡ unless rule }
{
    match rule {
        Some(a) => ControlFlow::Break(a),
        None => ControlFlow::Continue(()),
    }
}

// Rule 2 for one record: a notice, or an unfinished one, which is None at once. The line ending that it begins with is `ending` bytes long.
#[tactic(auto, unfolding(items::specs::Rules::heard), using(parser::specs::Laws::notice_none, parser::specs::Laws::notice_is, parser::specs::Laws::ending_fits))]
fn one_notice(s: &[u8], e: usize, ending: usize, x: &[u8], n: u32) -> Option<Answer>
    requires { (e ≤ length s.now) × (ending ≡ line_ending s.now e) }
    ensures { result ≡ heard (notice_at x.now s.now e) n s.now e }
{
    if ending == 0 {
        return None;
    }
    match parser::notice_text(s, e + ending, x) {
        Notice::Ended(end) => {
            let line = text::trimmed_part(s, e, end);
            Some(answers::with_payload(Kind::Notice, n, line, end))
        }
        Notice::Unfinished => Some(answers::nothing(e)),
        Notice::Nothing => None,
    }
}

// Rule 2: notices, in table order. The walk sees on its way whether there are other records: where the last notice ends, and its number, tell whether one lies between.
fn notices(table: &[u8], s: &[u8], e: usize) -> ControlFlow<Answer, bool>
    requires { e ≤ length s.now }
    ensures is { noticed_tried result ≡ notices (entries mark.Notice table.now 0 0) s.now e }
    ensures others { OthersTold table.now result }
{
    let ending = parser::line_ending(s, e);
    let mut at = 0;
    let mut n = 0;
    let mut others = false;
    for (r, k) in table::records(table, Mark::Notice) {
        let end = r.place + r.len;
        // no `unless`: it would carry the place of an answer from record to record
        if let Some(a) = one_notice(s, e, ending, &table[r.place..end], k as u32) {
            return ControlFlow::Break(a);
        }
        others |= n < k;
        at = end;
        n = k + 1;
    }
    ControlFlow::Continue(others | (at < table.len()))
}

// The same on the outermost level, where an empty table costs no call.
#[tactic(auto, using(crate::specs::Laws::none_noticed, crate::specs::Laws::none_other))]
fn outer_notices(table: &[u8], s: &[u8], e: usize) -> ControlFlow<Answer, bool>
    requires { e ≤ length s.now }
    ensures is { noticed_tried result ≡ notices (entries mark.Notice table.now 0 0) s.now e }
    ensures others { OthersTold table.now result }
{
    if table.is_empty() {
        return ControlFlow::Continue(false);
    }
    notices(table, s, e)
}

// The table for rules 3 to 5; an empty one does where there are only notices.
fn customs(table: &[u8], others: bool) -> &[u8]
    requires { Unless others (SameCustoms [] table.now) }
    ensures { SameCustoms result.now table.now }
{
    if others { table } else { &[] }
}

// Rule 3: an Ok whose line stands at k and ends at `end`.
#[tactic(auto, unfolding(items::specs::Rules::success))]
fn success(s: &[u8], e: usize, k: usize, end: usize) -> Answer
    ensures { Some result ≡ success s.now e k end }
{
    let before = text::trimmed_part(s, e, k);
    answers::with_payload(Kind::Ok, 0, before, end)
}

// Rule 3: the first CS record that occurs.
#[tactic(auto, unfolding(items::specs::Rules::custom_success), using(items::specs::Laws::none_first, items::specs::Laws::occurs_room))]
fn custom_success(table: &[u8], s: &[u8], e: usize) -> Option<Answer>
    ensures { result ≡ custom_success (first_custom (entries mark.Success table.now 0 0) s.now e) s.now e }
{
    if table.is_empty() {
        return None;
    }
    let found = items::first_custom(table, Mark::Success, s, e)?;
    Some(success(s, e, found.place, found.place + (found.len + 4)))
}

// Rule 3, R-3: a CONNECT line with text whose head stands at k: everything through the next CRLF, the text in front of that.
#[tactic(auto, unfolding(items::specs::Rules::through_crlf, items::specs::Rules::connected))]
fn text_success(s: &[u8], e: usize, k: usize) -> Option<Answer>
    requires { k + 10 ≤ length s.now }
    ensures { result ≡ connected s.now e k (through_crlf (find_in crlf s.now (k + 10))) }
{
    let start = k + lines::fixed_len(Fixed::ConnectText);
    let end = lines::search_crlf(s, start)?;
    let before = text::trimmed_part(s, e, k);
    let len = end - start;
    let text = Span { start, len };
    Some(answers::with_text(before, text, end + 2))
}

// Rule 3: CONNECT at its first place, with text only where the digester hears it (R-3).
#[tactic(auto, using(text::specs::Laws::stands_fits, crate::specs::Laws::bare_is, crate::specs::Laws::texted_is, crate::specs::Laws::connect_inside, crate::specs::Laws::connect_nowhere))]
fn connect_success(digester: Digester, s: &[u8], e: usize, lines: Lines) -> Option<Answer>
    requires { FirstLines s.now e lines }
    ensures { result ≡ connect_success digester s.now e (first_connect digester s.now e) }
{
    let k = places::connect(digester, s, e, lines)?;
    if lines::fixed_at(s, k, Fixed::Connect) {
        return Some(success(s, e, k, k + lines::fixed_len(Fixed::Connect)));
    }
    text_success(s, e, k)
}

// Rule 3: a custom success; then OK, else CONNECT. One pass finds the lines (R-6).
#[tactic(auto, unfolding(items::specs::Rules::successes, items::specs::Rules::or_else), using(crate::specs::Laws::ok_room, crate::specs::Laws::ok_is, crate::specs::Laws::ok_none))]
fn successes(
    digester: Digester,
    table: &[u8],
    s: &[u8],
    e: usize,
) -> ControlFlow<Answer, (Lines, Places)>
    ensures is { succeeded_tried result ≡ successes digester (entries mark.Success table.now 0 0) s.now e }
    ensures places { PlacesTold s.now e result }
{
    unless(custom_success(table, s, e))?;
    match pass::pass(s, e) {
        Passed::Ok(k) => ControlFlow::Break(success(s, e, k, k + lines::fixed_len(Fixed::Ok))),
        Passed::Others(lines, places) => {
            unless(connect_success(digester, s, e, lines))?;
            ControlFlow::Continue((lines, places))
        }
    }
}

// Rule 5: a fixed line, by its first place. Its kind comes along with it: the caller knows both, so that neither is looked up.
#[tactic(auto, unfolding(items::specs::Rules::line_tried), using(places::specs::Laws::line_inside))]
fn line_tried(s: &[u8], e: usize, lines: Lines, kind: Kind, line: Fixed) -> Option<Answer>
    requires { kind ≡ kind_of line }
    ensures { result ≡ line_tried line (line_in s.now e lines line) }
{
    let k = places::line(s, e, lines, line)?;
    Some(answers::bare(kind, k + lines::fixed_len(line)))
}

// Rule 5: ERROR, COMMAND NOT SUPPORT, NO CARRIER, BUSY, NO ANSWER, NO DIALTONE.
#[tactic(auto, unfolding(items::specs::Rules::line_errors, items::specs::Rules::first_of, items::specs::Rules::or_else))]
fn line_errors(s: &[u8], e: usize, lines: Lines) -> Option<Answer>
    requires { FirstLines s.now e lines }
    ensures { result ≡ line_errors s.now e }
{
    line_tried(s, e, lines, Kind::Error, Fixed::Error)
        .or_else(|| line_tried(s, e, lines, Kind::Error, Fixed::CommandNotSupport))
        .or_else(|| line_tried(s, e, lines, Kind::NoCarrier, Fixed::NoCarrier))
        .or_else(|| line_tried(s, e, lines, Kind::Busy, Fixed::Busy))
        .or_else(|| line_tried(s, e, lines, Kind::NoAnswer, Fixed::NoAnswer))
        .or_else(|| line_tried(s, e, lines, Kind::NoDialtone, Fixed::NoDialtone))
}

// Rule 5: NA, at the head of buf only.
#[tactic(auto, unfolding(items::specs::Rules::not_allowed), using(text::specs::Laws::stands_fits))]
fn not_allowed(s: &[u8], e: usize) -> Option<Answer>
    ensures { result ≡ not_allowed s.now e }
{
    if !lines::fixed_at(s, e, Fixed::Na) {
        return None;
    }
    Some(answers::bare(Kind::NotAllowed, e + lines::fixed_len(Fixed::Na)))
}

// Rule 5, in its order.
#[tactic(auto, unfolding(crate::specs::Level::errors_from, items::specs::Hints::before, items::specs::Hints::onward))]
fn errors(table: &[u8], s: &[u8], e: usize, lines: Lines, places: Places, hints: Hints) -> Level
    requires { FirstLines s.now e lines }
    ensures { result ≡ errors_from (entries mark.Error table.now 0 0) s.now e places hints }
{
    unless(items::custom_error(table, s, e))?;
    let (_, known) = items::numerics(s, e, places, hints)?;
    unless(line_errors(s, e, lines))?;
    unless(not_allowed(s, e))?;
    ControlFlow::Continue((e, known))
}

// Rules 4 and 5 in their order, on the outermost level.
#[tactic(auto, unfolding(items::specs::Hints::before, items::specs::Hints::onward))]
fn behind(table: &[u8], s: &[u8], e: usize, lines: Lines, places: Places) -> Level
    requires { FirstLines s.now e lines }
    ensures { result ≡ behind table.now s.now e places }
{
    unless(items::custom_prompts(table, s, e))?;
    let (_, known) = items::prompt_bytes(s, e, places, items::unknown())?;
    errors(table, s, e, lines, places, known)
}

// Rules 2 to 5 in their order, on the outermost level.
#[tactic(auto, unfolding(crate::specs::Level::outermost, items::specs::Hints::before))]
fn outermost(digester: Digester, table: &[u8], s: &[u8], e: usize) -> Level
    requires { e ≤ length s.now }
    ensures { result ≡ outermost digester table.now s.now e }
{
    let others = outer_notices(table, s, e)?;
    let custom = customs(table, others);
    let (lines, places) = successes(digester, custom, s, e)?;
    behind(custom, s, e, lines, places)
}

// Rules 2 to 5 on a level below: what the level above looked for in all that follows isn't looked for again.
#[tactic(auto, unfolding(crate::specs::Level::below, items::specs::Hints::before, items::specs::Hints::onward))]
fn below(table: &[u8], s: &[u8], e: usize, hints: Hints) -> Level
    requires { e ≤ length s.now }
    ensures { result ≡ below table.now s.now e hints }
{
    notices(table, s, e)?;
    let (_, known) = items::firsts(s, e, places::unsought(e), hints)?;
    unless(not_allowed(s, e))?;
    ControlFlow::Continue((e, known))
}

// Rules 1 to 5 on a level below the outermost one, with the hints of those above. It isn't compiled into its caller, so that most digests, which end on the outermost
// level, don't make room for what it needs.
#[inline(never)]
#[tactic(auto, using(crate::specs::Laws::skipped_le))]
pub fn level_below(table: &[u8], s: &[u8], hints: Hints) -> Level
    ensures { result ≡ below table.now s.now (skipped s.now) hints }
{
    let e = skipped(s);
    below(table, s, e, hints)
}

// Rules 1 to 5 on the outermost level, above which there is none that could know something.
#[tactic(auto, using(crate::specs::Laws::skipped_le))]
pub fn level_first(digester: Digester, table: &[u8], s: &[u8]) -> Level
    ensures { result ≡ outermost digester table.now s.now (skipped s.now) }
{
    let e = skipped(s);
    outermost(digester, table, s, e)
}
