//! Reads event records.
ghost use Rattle.std.specs.Prelude.{◌≡◌, ◌≤◌, ◌<◌, ◌^◌, [], ◌∷◌, length, map, replicate, IfOk, IfErr, OnOk, MatchOption, Ok};
ghost use Rattle.tower_syntax.specs.Arch.{tick};
ghost use Rattle.tower_syntax.specs.View.{source_of, entry_of, events_of};
ghost use Rattle.tower_meaning.specs.Atomic.{Fit};
ghost use Rattle.event_record.specs.Lines.{lines, words, behind_word};
ghost use Rattle.event_record.specs.FewWords.{listed};
ghost use Rattle.event_record.specs.Judged.{walk, makes};
ghost use Rattle.event_record.specs.Record.{SpellsRecord, IsRecordFault, is_signal, names_signal, signal_at};
ghost use Rattle.event_record.specs.RecordLine.{tick_form, sig_form, said_of, judged_signal, judge_entry, over_entries, done_or, with_said, IsTold};
ghost use Rattle.event_record.specs.SaidSeen.{said_seen};

use crate::line::{BYTE_LIMIT, Few, few_words, is_comment, split_line, split_word};
use crate::number::number_in;
use crate::value::{is_value, value_of};
use arch_checks::Checked;
use sqlite_items::Items;
use std::alloc::{AllocError, Global};
use tower_syntax::{Arch, Entry, Events, Source, SourceKind};
use tower_types::NoMemory;

/// How many entries a record may have.
const ENTRY_LIMIT: usize = 1_000_000;

/// How many ticks a line may make.
const TICK_LIMIT: u32 = 1_000_000;

/// How an event record may be wrong, in the order in which the kinds are told on one line.
#[derive(Clone, Copy, Debug, PartialEq, Eq)]
pub enum RecordKind {
    /// The text has more than 16,777,216 bytes. It is told at line 0.
    Long,
    /// The line is no entry.
    Line,
    /// The signal is no signal source of the file.
    Name,
    /// The value does not fit the signal's type.
    Value,
    /// This line makes more than 1,000,000 entries.
    Many,
}

/// The first fault of an event record, with its line, counted from 1; or want of memory.
#[derive(Clone, Copy, Debug, PartialEq, Eq)]
pub enum RecordFault {
    At { line: u32, kind: RecordKind },
    NoMemory,
}

impl From<NoMemory> for RecordFault {
    ghost use Rattle.std.specs.Prelude.{◌≡◌};
    ghost use Rattle.event_record.specs.declared.record.RecordFault.TheVariants.{NoMemory};

    ghost from_gives = { λ _ e. e ≡ NoMemory };

    fn from(_: NoMemory) -> RecordFault {
        RecordFault::NoMemory
    }
}

/// What a line is by itself.
#[derive(Clone, Copy)]
enum Said<'a> {
    Nothing,
    Ticks(u32),
    /// A signal's name, and the text of a value.
    Brings(&'a [u8], &'a [u8]),
    NoForm,
}

/// The ticks of the words behind `tick`.
fn tick_form<'a>(words: Few<'_>) -> Said<'a>
    ensures { said_seen result ≡ tick_form (listed words.entry) }
{
    match words {
        Few::None => Said::Ticks(1),
        Few::One(count) => match number_in(1, TICK_LIMIT, count) {
            Some(n) => Said::Ticks(n),
            None => Said::NoForm,
        },
        _ => Said::NoForm,
    }
}

/// The signal of the text behind `sig`.
fn sig_form(text: &[u8]) -> Said<'_>
    ensures { said_seen result ≡ sig_form (words text.now) (behind_word text.now) }
{
    match split_word(text) {
        Some((name, value)) if is_value(value) => Said::Brings(name, value),
        _ => Said::NoForm,
    }
}

fn say(line: &[u8]) -> Said<'_>
    ensures { said_seen result ≡ said_of line.now }
{
    let Some((first, rest)) = split_word(line) else {
        return Said::Nothing;
    };
    if is_comment(first) {
        return Said::Nothing;
    }
    if first == b"tick".as_slice() {
        return tick_form(few_words(rest));
    }
    if first == b"sig".as_slice() {
        return sig_form(rest);
    }
    Said::NoForm
}

fn is_signal(kind: SourceKind) -> bool
    ensures { result ≡ is_signal kind }
{
    match kind {
        SourceKind::Init => false,
        SourceKind::Period(_) => false,
        SourceKind::Signal => true,
    }
}

fn is_signal_named(source: &Source, name: &[u8]) -> bool
    ensures { result ≡ names_signal name.now (source_of source.now) }
{
    source.name.bytes() == name && is_signal(source.kind)
}

/// The number of the signal source with this name.
fn signal_named(sources: &[Source], name: &[u8]) -> Option<u32>
    requires { length sources.now ≤ 2 ^ 32 }
    ensures number { result ≡ signal_at (map source_of sources.now) name.now }
    ensures within { MatchOption result (Unit {0}) (λ x. x < length sources.now) }
{
    for (x, source) in sources.iter().enumerate() {
        if is_signal_named(source, name) {
            return Some(x as u32);
        }
    }
    None
}

/// Adds so many ticks, unless these are too many.
fn add_ticks(entries: &mut Items<Entry>, n: u32) -> Result<Option<RecordKind>, NoMemory>
    requires { length entries.old ≤ ENTRY_LIMIT }
    ensures few { OnOk result (length entries.new ≤ ENTRY_LIMIT) }
    ensures added { IfOk result (λ k. done_or k entries.new ≡ with_said entries.old (makes (replicate n tick))) }
{
    if entries.len().saturating_add(n as usize) > ENTRY_LIMIT {
        return Ok(Some(RecordKind::Many));
    }
    for _i in 0..n {
        entries.push(Entry::Tick)?;
    }
    Ok(None)
}

/// Adds an entry, unless it is one too many.
fn add_entry(entries: &mut Items<Entry>, entry: Entry) -> Result<Option<RecordKind>, NoMemory>
    requires { length entries.old ≤ ENTRY_LIMIT }
    ensures few { OnOk result (length entries.new ≤ ENTRY_LIMIT) }
    ensures added { IfOk result (λ k. done_or k entries.new ≡ with_said entries.old (makes (entry_of entry ∷ []))) }
{
    if entries.len() >= ENTRY_LIMIT {
        return Ok(Some(RecordKind::Many));
    }
    entries.push(entry)?;
    Ok(None)
}

/// Adds a signal with the value of a text, or says how it is wrong.
fn add_signal(
    alloc: Global,
    arch: &Arch,
    entries: &mut Items<Entry>,
    name: &[u8],
    text: &[u8],
) -> Result<Option<RecordKind>, NoMemory>
    requires { length entries.old ≤ ENTRY_LIMIT }
    ensures few { OnOk result (length entries.new ≤ ENTRY_LIMIT) }
    ensures added { IfOk result (λ k. done_or k entries.new ≡ with_said entries.old (judged_signal arch.now (signal_at arch.now.sources name.now) text.now)) }
{
    let Some(x) = signal_named(arch.sources(), name) else {
        return Ok(Some(RecordKind::Name));
    };
    let source = arch.source(x);
    match value_of(alloc, text, arch.records(), &source.message)? {
        None => Ok(Some(RecordKind::Value)),
        Some(value) => add_entry(entries, Entry::Signal(x, value)),
    }
}

/// Adds what a line makes, or says how the line is wrong.
fn add_line(
    alloc: Global,
    arch: &Arch,
    entries: &mut Items<Entry>,
    line: &[u8],
) -> Result<Option<RecordKind>, NoMemory>
    requires { length entries.old ≤ ENTRY_LIMIT }
    ensures few { OnOk result (length entries.new ≤ ENTRY_LIMIT) }
    ensures added { IfOk result (λ k. done_or k entries.new ≡ with_said entries.old (judge_entry arch.now line.now)) }
{
    match say(line) {
        Said::Nothing => Ok(None),
        Said::Ticks(n) => add_ticks(entries, n),
        Said::Brings(name, text) => add_signal(alloc, arch, entries, name, text),
        Said::NoForm => Ok(Some(RecordKind::Line)),
    }
}

/// The entries of a text that is not too long.
fn entries_of(alloc: Global, arch: &Arch, bytes: &[u8]) -> Result<Items<Entry>, RecordFault>
    requires { length bytes.now ≤ BYTE_LIMIT }
    ensures few { IfOk result (λ entries. length entries ≤ ENTRY_LIMIT) }
    ensures ok { IfOk result (λ entries. walk (judge_entry arch.now) over_entries 1 [] (lines bytes.now) ≡ Ok (map entry_of entries)) }
    ensures fault { IfErr result (IsTold (walk (judge_entry arch.now) over_entries 1 [] (lines bytes.now))) }
{
    let mut entries = Items::new(alloc);
    let mut rest = bytes;
    let mut number = 1;
    while !rest.is_empty() {
        let (line, behind) = split_line(rest);
        if let Some(kind) = add_line(alloc, arch, &mut entries, line)? {
            return Err(RecordFault::At { line: number, kind });
        }
        number += 1;
        rest = behind;
    }
    Ok(entries)
}

/// The kinds of sources.
fn kinds_of(alloc: Global, sources: &[Source]) -> Result<Items<SourceKind>, NoMemory>
    ensures { IfOk result (λ kinds. kinds ≡ map (λ s. s.kind) (map source_of sources.now)) }
{
    let mut kinds = Items::new(alloc);
    for source in sources {
        kinds.push(source.kind)?;
    }
    Ok(kinds)
}

/// The depths of sources.
fn depths_of(alloc: Global, sources: &[Source]) -> Result<Items<Option<u32>>, NoMemory>
    ensures { IfOk result (λ depths. depths ≡ map (λ s. s.depth) (map source_of sources.now)) }
{
    let mut depths = Items::new(alloc);
    for source in sources {
        depths.push(source.depth)?;
    }
    Ok(depths)
}

/// The events of a record, or its first fault.
fn events_for(alloc: Global, arch: &Arch, bytes: &[u8]) -> Result<Events, RecordFault>
    ensures ok { IfOk result (λ events. SpellsRecord arch.now bytes.now (events_of events)) }
    ensures fault { IfErr result (IsRecordFault arch.now bytes.now) }
{
    if bytes.len() > BYTE_LIMIT {
        return Err(RecordFault::At {
            line: 0,
            kind: RecordKind::Long,
        });
    }
    let entries = match entries_of(alloc, arch, bytes) {
        Ok(entries) => entries,
        Err(fault) => return Err(fault),
    };
    let kinds = kinds_of(alloc, arch.sources())?;
    let depths = depths_of(alloc, arch.sources())?;
    Ok(Events {
        kinds,
        depths,
        entries,
    })
}

/// The events of a record for the system, or its first fault.
pub fn read_record(alloc: Global, arch: &Checked, bytes: &[u8]) -> Result<Events, RecordFault>
    ensures ok { IfOk result (λ events. SpellsRecord arch.now bytes.now (events_of events)) }
    ensures fit { IfOk result (λ events. Fit arch.now (events_of events)) }
    ensures fault { IfErr result (IsRecordFault arch.now bytes.now) }
{
    events_for(alloc, arch.arch(), bytes)
}
