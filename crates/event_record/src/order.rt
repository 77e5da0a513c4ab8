//! Reads orders, which are lists of marks.
ghost use Rattle.std.specs.Prelude.{◌≡◌, ◌≤◌, ◌^◌, [], ◌∷◌, length, map, All, IfOk, IfErr, Ok, bytes_eq};
ghost use Rattle.tower_syntax.specs.View.{source_of};
ghost use Rattle.event_record.specs.Lines.{lines, words};
ghost use Rattle.event_record.specs.FewWords.{listed};
ghost use Rattle.event_record.specs.Judged.{judged_of, with_line, added_or, walk};
ghost use Rattle.event_record.specs.Order.{SpellsOrder, IsOrderFault, NamesSource, source_at, mark_of};
ghost use Rattle.event_record.specs.Order.{is_among, state_lines, replay_lines, rule_lines, end_lines, begins_other_line};
ghost use Rattle.event_record.specs.OrderLine.{act_of, marked_by, bare_form, form_of, is_count, judge_mark, over_marks, IsTold};
ghost use Rattle.event_record.specs.FormSeen.{IsForm};

use crate::line::{BYTE_LIMIT, Few, few_words, is_comment, split_line, split_word};
use crate::number::number_in;
use arch_checks::Checked;
use std::alloc::{AllocError, Global};
use tower_syntax::{Arch, Mark, Source};

/// The greatest number of instructions before a mark.
const INSTRUCTION_LIMIT: u32 = 1_000_000_000;

/// How an order may be wrong, in the order in which the kinds are told on one line.
#[derive(Clone, Copy, Debug, PartialEq, Eq)]
pub enum OrderKind {
    /// The text has more than 16,777,216 bytes. It is told at line 0.
    Long,
    /// The line is no mark.
    Line,
    /// The mark's source is none of the file.
    Name,
}

/// The first fault of an order, with its line, counted from 1; or want of memory.
#[derive(Clone, Copy, Debug, PartialEq, Eq)]
pub enum OrderFault {
    At { line: u32, kind: OrderKind },
    NoMemory,
}

impl From<AllocError> for OrderFault {
    ghost use Rattle.std.specs.Prelude.{◌≡◌};
    ghost use Rattle.event_record.specs.declared.order.OrderFault.TheVariants.{NoMemory};

    ghost from_gives = { λ _ e. e ≡ NoMemory };

    fn from(_: AllocError) -> OrderFault {
        OrderFault::NoMemory
    }
}

/// What a source does at a mark.
#[derive(Clone, Copy)]
enum Act {
    /// It takes a message.
    Starts,
    /// Its first pending handler runs.
    Runs,
    /// Its first pending output is made.
    Puts,
}

/// A mark, with its source's name.
#[derive(Clone, Copy)]
enum Form<'a> {
    Arrives,
    Marked(Act, &'a [u8]),
}

fn act_of(word: &[u8]) -> Option<Act>
    ensures { result ≡ act_of word.now }
{
    match word {
        b"s" => Some(Act::Starts),
        b"r" => Some(Act::Runs),
        b"o" => Some(Act::Puts),
        _ => None,
    }
}

fn is_word(word: &[u8], other: &[u8]) -> bool
    ensures { result ≡ bytes_eq word.now other.now }
{
    word == other
}

fn begins_state_line(word: &[u8]) -> bool
    ensures { result ≡ is_among state_lines word.now }
{
    matches!(word, b"out" | b"state" | b"held" | b"lost")
}

fn begins_replay_line(word: &[u8]) -> bool
    ensures { result ≡ is_among replay_lines word.now }
{
    is_word(word, b"waiting") || is_word(word, b"pending") || is_word(word, b"misfit")
}

fn begins_rule_line(word: &[u8]) -> bool
    ensures { result ≡ is_among rule_lines word.now }
{
    matches!(word, b"waits" | b"core")
}

fn begins_end_line(word: &[u8]) -> bool
    ensures { result ≡ is_among end_lines word.now }
{
    is_word(word, b"count") || is_word(word, b"done") || is_word(word, b"stopped")
}

fn begins_other_line(word: &[u8]) -> bool
    ensures { result ≡ begins_other_line word.now }
{
    begins_state_line(word)
        || begins_replay_line(word)
        || begins_rule_line(word)
        || begins_end_line(word)
}

/// The mark of a first word and the words behind it.
fn bare_form<'a>(word: &[u8], words: Few<'a>) -> Option<Form<'a>>
    ensures { IsForm (bare_form (word.now ∷ listed words.entry)) result }
{
    if word == b"a".as_slice() {
        return match words {
            Few::None => Some(Form::Arrives),
            _ => None,
        };
    }
    let act = act_of(word)?;
    match words {
        Few::One(name) => Some(Form::Marked(act, name)),
        _ => None,
    }
}

fn is_count(word: &[u8]) -> bool
    ensures { result ≡ is_count word.now }
{
    number_in(0, INSTRUCTION_LIMIT, word).is_some()
}

/// The mark of a line's first word and the text behind it.
fn form_of<'a>(first: &[u8], rest: &'a [u8]) -> Option<Form<'a>>
    ensures { IsForm (form_of (first.now ∷ words rest.now)) result }
{
    if !is_count(first) {
        return bare_form(first, few_words(rest));
    }
    let (second, behind) = split_word(rest)?;
    bare_form(second, few_words(behind))
}

/// The number of the source with this name.
fn source_named(sources: &[Source], name: &[u8]) -> Option<u32>
    requires { length sources.now ≤ 2 ^ 32 }
    ensures { result ≡ source_at (map source_of sources.now) name.now }
{
    for (x, source) in sources.iter().enumerate() {
        if source.name.bytes() == name {
            return Some(x as u32);
        }
    }
    None
}

fn mark_of(act: Act, x: u32) -> Mark
    ensures { result ≡ mark_of act x }
{
    match act {
        Act::Starts => Mark::Start(x),
        Act::Runs => Mark::Run(x),
        Act::Puts => Mark::Out(x),
    }
}

/// The mark of a line, if it is not passed over.
fn judge_mark(arch: &Arch, line: &[u8]) -> Result<Option<Mark>, OrderKind>
    ensures { judged_of result ≡ judge_mark arch.now line.now }
{
    let Some((first, rest)) = split_word(line) else {
        return Ok(None);
    };
    if is_comment(first) || begins_other_line(first) {
        return Ok(None);
    }
    match form_of(first, rest) {
        None => Err(OrderKind::Line),
        Some(Form::Arrives) => Ok(Some(Mark::Arrive)),
        Some(Form::Marked(act, name)) => match source_named(arch.sources(), name) {
            Some(x) => Ok(Some(mark_of(act, x))),
            None => Err(OrderKind::Name),
        },
    }
}

/// Adds the mark of a line, if there is one, and says how the line is wrong.
fn add_line(
    arch: &Arch,
    marks: &mut Vec<Mark>,
    line: &[u8],
) -> Result<Option<OrderKind>, AllocError>
    ensures { IfOk result (λ kind. added_or kind marks.new.items ≡ with_line over_marks marks.old.items (judge_mark arch.now line.now)) }
{
    match judge_mark(arch, line) {
        Err(kind) => Ok(Some(kind)),
        Ok(None) => Ok(None),
        Ok(Some(mark)) => {
            marks.push(mark)?;
            Ok(None)
        }
    }
}

/// The marks of a text that is not too long.
fn marks_of(alloc: Global, arch: &Arch, bytes: &[u8]) -> Result<Vec<Mark>, OrderFault>
    requires { length bytes.now ≤ BYTE_LIMIT }
    ensures ok { IfOk result (λ marks. walk (judge_mark arch.now) over_marks 1 [] (lines bytes.now) ≡ Ok marks.items) }
    ensures fault { IfErr result (IsTold (walk (judge_mark arch.now) over_marks 1 [] (lines bytes.now))) }
{
    let mut marks = Vec::new(alloc);
    let mut rest = bytes;
    let mut number = 1;
    while !rest.is_empty() {
        let (line, behind) = split_line(rest);
        if let Some(kind) = add_line(arch, &mut marks, line)? {
            return Err(OrderFault::At { line: number, kind });
        }
        number += 1;
        rest = behind;
    }
    Ok(marks)
}

/// The marks of a text, or its first fault.
fn marks_for(alloc: Global, arch: &Arch, bytes: &[u8]) -> Result<Vec<Mark>, OrderFault>
    ensures ok { IfOk result (λ marks. SpellsOrder arch.now bytes.now marks.items) }
    ensures sources { IfOk result (λ marks. All (NamesSource arch.now) marks.items) }
    ensures fault { IfErr result (IsOrderFault arch.now bytes.now) }
{
    if bytes.len() > BYTE_LIMIT {
        return Err(OrderFault::At {
            line: 0,
            kind: OrderKind::Long,
        });
    }
    marks_of(alloc, arch, bytes)
}

/// The marks of an order, or its first fault.
pub fn read_order(alloc: Global, arch: &Checked, bytes: &[u8]) -> Result<Vec<Mark>, OrderFault>
    ensures ok { IfOk result (λ marks. SpellsOrder arch.now bytes.now marks.items) }
    ensures sources { IfOk result (λ marks. All (NamesSource arch.now) marks.items) }
    ensures fault { IfErr result (IsOrderFault arch.now bytes.now) }
{
    marks_for(alloc, arch.arch(), bytes)
}
