//! Reads scheduling choices.
ghost use Rattle.std.specs.Prelude.{◌≡◌, ◌≤◌, [], length, All, IfOk, IfErr, vec_len, Some, Ok};
ghost use Rattle.event_record.specs.Lines.{lines};
ghost use Rattle.event_record.specs.FewWords.{listed};
ghost use Rattle.event_record.specs.Judged.{judged_of, with_line, added_or, walk};
ghost use Rattle.event_record.specs.ChoiceLine.{verb_of, place_of, times_of, place_and_times, choice_by, judge_choice, over_choices, IsTold};
ghost use Rattle.event_record.specs.Choices.{SpellsChoices, IsChoiceFault, IsInRange, choice_limit};

use crate::line::{BYTE_LIMIT, Few, few_words, is_comment, split_line, split_word};
use crate::number::number_in;
use std::alloc::{AllocError, Global};
use tower_syntax::Choice;

/// The greatest place of a ready task.
const PLACE_LIMIT: u32 = 65_535;

/// The greatest repeat count.
const REPEAT_LIMIT: u32 = 1_000_000_000;

/// How many choices a text may have.
const CHOICE_LIMIT: usize = 1_000_000;

/// How a text of choices may be wrong, in the order in which the kinds are told on one line.
#[derive(Clone, Copy, Debug, PartialEq, Eq)]
pub enum ChoiceKind {
    /// The text has more than 16,777,216 bytes. It is told at line 0.
    Long,
    /// The line is no choice.
    Line,
    /// This is choice 1,000,001.
    Many,
}

/// The first fault of a text of choices, with its line, counted from 1; or want of memory.
#[derive(Clone, Copy, Debug, PartialEq, Eq)]
pub enum ChoiceFault {
    At { line: u32, kind: ChoiceKind },
    NoMemory,
}

/// The first word of a choice.
#[derive(Clone, Copy)]
enum Verb {
    Go,
    See,
    Ev,
    Idle,
}

impl From<AllocError> for ChoiceFault {
    ghost use Rattle.std.specs.Prelude.{◌≡◌};
    ghost use Rattle.event_record.specs.declared.choices.ChoiceFault.TheVariants.{NoMemory};

    ghost from_gives = { λ _ e. e ≡ NoMemory };

    fn from(_: AllocError) -> ChoiceFault {
        ChoiceFault::NoMemory
    }
}

fn verb_of(word: &[u8]) -> Option<Verb>
    ensures { result ≡ verb_of word.now }
{
    match word {
        b"go" => Some(Verb::Go),
        b"see" => Some(Verb::See),
        b"ev" => Some(Verb::Ev),
        b"idle" => Some(Verb::Idle),
        _ => None,
    }
}

fn place_of(word: &[u8]) -> Option<u32>
    ensures { result ≡ place_of word.now }
{
    number_in(0, PLACE_LIMIT, word)
}

fn times_of(word: &[u8]) -> Option<u32>
    ensures { result ≡ times_of word.now }
{
    number_in(1, REPEAT_LIMIT, word)
}

/// The place and the repeat count of these words.
fn place_and_times(words: Few<'_>) -> Option<(u32, u32)>
    ensures { result ≡ place_and_times (listed words.entry) }
{
    match words {
        Few::One(place) => Some((place_of(place)?, 1)),
        Few::Two(place, times) => Some((place_of(place)?, times_of(times)?)),
        _ => None,
    }
}

/// The choice of a first word and the words behind it.
fn choice_by(verb: Verb, words: Few<'_>) -> Option<Choice>
    ensures { result ≡ choice_by (Some verb) (listed words.entry) }
{
    match verb {
        Verb::Go => {
            let (place, times) = place_and_times(words)?;
            Some(Choice::Go(place, times))
        }
        Verb::See => {
            let (place, times) = place_and_times(words)?;
            Some(Choice::See(place, times))
        }
        Verb::Ev => match words {
            Few::None => Some(Choice::Ev(1)),
            Few::One(times) => Some(Choice::Ev(times_of(times)?)),
            _ => None,
        },
        Verb::Idle => match words {
            Few::None => Some(Choice::Idle),
            _ => None,
        },
    }
}

/// The choice of a line, if it is not passed over.
fn judge_choice(line: &[u8]) -> Result<Option<Choice>, ChoiceKind>
    ensures { judged_of result ≡ judge_choice line.now }
{
    let Some((first, rest)) = split_word(line) else {
        return Ok(None);
    };
    if is_comment(first) {
        return Ok(None);
    }
    let Some(verb) = verb_of(first) else {
        return Err(ChoiceKind::Line);
    };
    match choice_by(verb, few_words(rest)) {
        Some(choice) => Ok(Some(choice)),
        None => Err(ChoiceKind::Line),
    }
}

/// Adds the choice of a line, if there is one, and says how the line is wrong.
fn add_line(choices: &mut Vec<Choice>, line: &[u8]) -> Result<Option<ChoiceKind>, AllocError>
    requires { vec_len choices.old ≤ CHOICE_LIMIT }
    ensures few { vec_len choices.new ≤ CHOICE_LIMIT }
    ensures added { IfOk result (λ kind. added_or kind choices.new.items ≡ with_line over_choices choices.old.items (judge_choice line.now)) }
{
    match judge_choice(line) {
        Err(kind) => Ok(Some(kind)),
        Ok(None) => Ok(None),
        Ok(Some(choice)) => {
            if choices.len() >= CHOICE_LIMIT {
                return Ok(Some(ChoiceKind::Many));
            }
            choices.push(choice)?;
            Ok(None)
        }
    }
}

/// The choices of a text that is not too long.
fn choices_of(alloc: Global, bytes: &[u8]) -> Result<Vec<Choice>, ChoiceFault>
    requires { length bytes.now ≤ BYTE_LIMIT }
    ensures few { IfOk result (λ choices. vec_len choices ≤ CHOICE_LIMIT) }
    ensures ok { IfOk result (λ choices. walk judge_choice over_choices 1 [] (lines bytes.now) ≡ Ok choices.items) }
    ensures fault { IfErr result (IsTold (walk judge_choice over_choices 1 [] (lines bytes.now))) }
{
    let mut choices = Vec::new(alloc);
    let mut rest = bytes;
    let mut number = 1;
    while !rest.is_empty() {
        let (line, behind) = split_line(rest);
        if let Some(kind) = add_line(&mut choices, line)? {
            return Err(ChoiceFault::At { line: number, kind });
        }
        number += 1;
        rest = behind;
    }
    Ok(choices)
}

/// The choices of a text, or its first fault.
pub fn read_choices(alloc: Global, bytes: &[u8]) -> Result<Vec<Choice>, ChoiceFault>
    ensures ok { IfOk result (λ choices. SpellsChoices bytes.now choices.items) }
    ensures range { IfOk result (λ choices. All IsInRange choices.items) }
    ensures few { IfOk result (λ choices. vec_len choices ≤ choice_limit) }
    ensures fault { IfErr result (IsChoiceFault bytes.now) }
{
    if bytes.len() > BYTE_LIMIT {
        return Err(ChoiceFault::At {
            line: 0,
            kind: ChoiceKind::Long,
        });
    }
    choices_of(alloc, bytes)
}
