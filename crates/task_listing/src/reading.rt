//! Reads the listing of a program, line by line.
ghost use Rattle.std.specs.Prelude.{◌≡◌, ◌<◌, ◌≤◌, ◌^◌, ◌+◌, [], length, true, OnOk, IfOk, IfErr, Ok};
ghost use Rattle.task_listing.specs.declared.kind.Kind.{Kind};
ghost use Rattle.task_listing.specs.Context.{counted_to};
ghost use Rattle.task_listing.specs.FewWords.{listed};
ghost use Rattle.task_listing.specs.Lines.{byte_limit, whole_lines, behind_lines};
ghost use Rattle.task_listing.specs.Answers.{both, count, priority, title_line, ending_line, count_line, task_line, buffer_line};
ghost use Rattle.task_listing.specs.Judging.{fault_in, begun, marked, walk, judged, closed, verdict};
ghost use Rattle.task_listing.specs.Reading.{Judges, Says, is_empty, opened, with_ended, with_place};
ghost use Rattle.task_listing.specs.Reading.{awaits_of, state_of, state_with, program_of, Takes, TakesAny};
ghost use Rattle.task_code.specs.Rules.{KeepsRules};

use crate::fault::{ListFault, ListKind};
use crate::number::{count, priority};
use crate::operation::{both, instr_line};
use crate::rules::{Head, Limits};
use crate::words::{Words, line_words, split_line};
use sqlite_items::Items;
use std::alloc::{AllocError, Global};
use std::mem;
use task_code::{Buffer, Instr, Program, Task};

/// How many bytes a text may have.
const BYTE_LIMIT: usize = 67_108_864;

/// The limit on all words.
const WORD_LIMIT: u64 = 1_048_576;

/// The limit on all instructions.
const INSTR_LIMIT: u64 = 1_000_000;

/// Which lines are awaited: those of a list that are left, and what comes behind it.
#[derive(Clone, Copy)]
pub(crate) enum Stage {
    Title,
    Monitors,
    MonitorLines(u32),
    OutputLines(u32),
    /// Of the last task the buffers and the instructions that are left, and the tasks behind it.
    TaskLines(u32, u32, u32),
    Done,
}

/// A program as far as it was read.
#[derive(Drop)]
pub(crate) struct Reader {
    alloc: Global,
    stage: Stage,
    monitors: Items<u32>,
    outputs: Items<u32>,
    /// The tasks before the last one.
    tasks: Items<Task>,
    /// Whether there is a last task, to which what follows belongs.
    is_open: bool,
    priority: u8,
    head: Head,
    buffers: Items<Buffer>,
    code: Items<Instr>,
    /// All words so far, counted to 1 above the limit.
    words: u64,
    /// All instructions that were called for, counted to 1 above the limit.
    instructions: u64,
    /// The first line that breaks a rule of programs.
    place: Option<u32>,
}

fn title_line(words: Words<'_>) -> Result<(), ListKind>
    ensures { fault_in result ≡ title_line (listed words.entry) }
{
    match words {
        Words::Two(a, b) => {
            if a == b"tower-listing".as_slice() && b == b"1".as_slice() {
                Ok(())
            } else {
                Err(ListKind::Line)
            }
        }
        _ => Err(ListKind::Line),
    }
}

fn ending_line(words: Words<'_>) -> Result<(), ListKind>
    ensures { fault_in result ≡ ending_line (listed words.entry) }
{
    match words {
        Words::One(a) => {
            if a == b"end".as_slice() {
                Ok(())
            } else {
                Err(ListKind::Line)
            }
        }
        _ => Err(ListKind::Line),
    }
}

/// The number of a line of this word and a number.
fn count_line(head: &[u8], words: Words<'_>) -> Result<u32, ListKind>
    ensures { result ≡ count_line head.now (listed words.entry) }
{
    match words {
        Words::Two(word, number) => {
            if word == head {
                count(number)
            } else {
                Err(ListKind::Line)
            }
        }
        _ => Err(ListKind::Line),
    }
}

/// The width and the bound of a buffer.
fn buffer_line(words: Words<'_>) -> Result<(u32, u32), ListKind>
    ensures { result ≡ buffer_line (listed words.entry) }
{
    match words {
        Words::Three(word, width, bound) => {
            if word == b"buffer".as_slice() {
                both(count(width), count(bound))
            } else {
                Err(ListKind::Line)
            }
        }
        _ => Err(ListKind::Line),
    }
}

/// Priority; message and room; buffers and code.
type TaskNumbers = (u8, ((u32, u32), (u32, u32)));

fn counts(a: &[u8], b: &[u8]) -> Result<(u32, u32), ListKind>
    ensures { result ≡ both (count a.now) (count b.now) }
{
    both(count(a), count(b))
}

/// The numbers of a `task` line.
fn task_line(words: Words<'_>) -> Result<TaskNumbers, ListKind>
    ensures { result ≡ task_line (listed words.entry) }
{
    match words {
        Words::Six(word, first, message, room, buffers, code) => {
            if word == b"task".as_slice() {
                task_numbers(first, counts(message, room), counts(buffers, code))
            } else {
                Err(ListKind::Line)
            }
        }
        _ => Err(ListKind::Line),
    }
}

fn task_numbers(
    first: &[u8],
    sizes: Result<(u32, u32), ListKind>,
    counts: Result<(u32, u32), ListKind>,
) -> Result<TaskNumbers, ListKind>
    ensures { result ≡ both (priority first.now) (both sizes counts) }
{
    both(priority(first), both(sizes, counts))
}

/// A sum that counts no further than 1 above a limit.
fn more(limit: u64, total: u64, n: u64) -> u64
    requires { limit < 2 ^ 32 }
    ensures { result ≡ counted_to limit (total + n) }
{
    total.saturating_add(n).min(limit + 1)
}

impl Reader {
    pub(crate) fn new(alloc: Global) -> Reader
        ensures { state_of result ≡ begun }
    {
        Reader {
            alloc,
            stage: Stage::Title,
            monitors: Items::new(alloc),
            outputs: Items::new(alloc),
            tasks: Items::new(alloc),
            is_open: false,
            priority: 0,
            head: Head {
                message: 0,
                room: 0,
                buffers: 0,
                code: 0,
            },
            buffers: Items::new(alloc),
            code: Items::new(alloc),
            words: 0,
            instructions: 0,
            place: None,
        }
    }

    /// The first line that breaks a rule is kept.
    fn mark(&mut self, line: u32)
        ensures { self.new ≡ record self.old { place = marked self.old.place true line } }
    {
        if self.place.is_none() {
            self.place = Some(line);
        }
    }

    fn take_title(&mut self, line: u32, words: Words<'_>) -> Result<(), ListFault>
        ensures { Takes Kind.Title (awaits_of Stage.Monitors) self.old self.new line (listed words.entry) result }
    {
        match title_line(words) {
            Ok(()) => {
                self.stage = Stage::Monitors;
                Ok(())
            }
            Err(kind) => Err(ListFault::At { line, kind }),
        }
    }

    fn take_monitors(&mut self, line: u32, words: Words<'_>) -> Result<(), ListFault>
        ensures { Takes Kind.Monitors (awaits_of (Stage.MonitorLines 0)) self.old self.new line (listed words.entry) result }
    {
        match count_line(b"monitors", words) {
            Ok(left) => {
                self.stage = Stage::MonitorLines(left);
                Ok(())
            }
            Err(kind) => Err(ListFault::At { line, kind }),
        }
    }

    fn take_monitor(&mut self, left: u32, line: u32, words: Words<'_>) -> Result<(), ListFault>
        ensures { Takes Kind.Monitor (awaits_of (Stage.MonitorLines left)) self.old self.new line (listed words.entry) result }
    {
        match count_line(b"monitor", words) {
            Ok(size) => {
                self.monitors.push(size)?;
                self.words = more(WORD_LIMIT, self.words, u64::from(size));
                self.stage = Stage::MonitorLines(left);
                Ok(())
            }
            Err(kind) => Err(ListFault::At { line, kind }),
        }
    }

    fn take_outputs(&mut self, line: u32, words: Words<'_>) -> Result<(), ListFault>
        ensures { Takes Kind.Outputs (awaits_of (Stage.OutputLines 0)) self.old self.new line (listed words.entry) result }
    {
        match count_line(b"outputs", words) {
            Ok(left) => {
                self.stage = Stage::OutputLines(left);
                Ok(())
            }
            Err(kind) => Err(ListFault::At { line, kind }),
        }
    }

    fn take_output(&mut self, left: u32, line: u32, words: Words<'_>) -> Result<(), ListFault>
        ensures { Takes Kind.Output (awaits_of (Stage.OutputLines left)) self.old self.new line (listed words.entry) result }
    {
        match count_line(b"output", words) {
            Ok(size) => {
                self.outputs.push(size)?;
                self.stage = Stage::OutputLines(left);
                Ok(())
            }
            Err(kind) => Err(ListFault::At { line, kind }),
        }
    }

    fn take_tasks(&mut self, line: u32, words: Words<'_>) -> Result<(), ListFault>
        ensures { Takes Kind.Tasks (awaits_of (Stage.TaskLines 0 0 0)) self.old self.new line (listed words.entry) result }
    {
        match count_line(b"tasks", words) {
            Ok(left) => {
                self.stage = Stage::TaskLines(0, 0, left);
                Ok(())
            }
            Err(kind) => Err(ListFault::At { line, kind }),
        }
    }

    /// Ends the last task.
    fn close(&mut self) -> Result<(), AllocError>
        ensures { OnOk result (state_of self.new ≡ with_ended (state_of self.old)) }
    {
        if !self.is_open {
            return Ok(());
        }
        let task = Task {
            priority: self.priority,
            message: self.head.message,
            room: self.head.room,
            buffers: mem::replace(&mut self.buffers, Items::new(self.alloc)),
            code: mem::replace(&mut self.code, Items::new(self.alloc)),
        };
        self.is_open = false;
        self.tasks.push(task)
    }

    fn open(&mut self, left: u32, line: u32, numbers: TaskNumbers)
        ensures { state_of self.new ≡ opened (awaits_of (Stage.TaskLines 0 0 left)) (state_of self.old) line numbers }
    {
        let (priority, ((message, room), (buffers, code))) = numbers;
        self.is_open = true;
        self.priority = priority;
        self.buffers = Items::new(self.alloc);
        self.code = Items::new(self.alloc);
        self.head = Head {
            message,
            room,
            buffers,
            code,
        };
        self.words = more(WORD_LIMIT, self.words, u64::from(room));
        self.instructions = more(INSTR_LIMIT, self.instructions, u64::from(code));
        self.stage = Stage::TaskLines(buffers, code, left);
        if message == 0 {
            self.mark(line);
        }
    }

    fn take_task(&mut self, left: u32, line: u32, words: Words<'_>) -> Result<(), ListFault>
        ensures { Takes Kind.Task (awaits_of (Stage.TaskLines 0 0 left)) self.old self.new line (listed words.entry) result }
    {
        match task_line(words) {
            Ok(numbers) => {
                self.close()?;
                self.open(left, line, numbers);
                Ok(())
            }
            Err(kind) => Err(ListFault::At { line, kind }),
        }
    }

    fn take_buffer(&mut self, left: Stage, line: u32, words: Words<'_>) -> Result<(), ListFault>
        ensures { Takes Kind.Buffer (awaits_of left) self.old self.new line (listed words.entry) result }
    {
        match buffer_line(words) {
            Ok((width, bound)) => {
                self.buffers.push(Buffer { width, bound })?;
                self.words = more(WORD_LIMIT, self.words, u64::from(bound) * u64::from(width));
                self.stage = left;
                if width == 0 {
                    self.mark(line);
                }
                Ok(())
            }
            Err(kind) => Err(ListFault::At { line, kind }),
        }
    }

    fn put_instr(&mut self, line: u32, instr: Option<Instr>) -> Result<(), AllocError>
        ensures { OnOk result (state_of self.new ≡ with_place line instr (state_of self.old)) }
    {
        let limits = Limits {
            monitors: self.monitors.as_slice(),
            outputs: self.outputs.as_slice(),
            head: self.head,
        };
        match instr {
            None => self.mark(line),
            Some(instr) => {
                if !limits.keeps(instr) {
                    self.mark(line);
                }
                self.code.push(instr)?;
            }
        }
        Ok(())
    }

    fn take_instr(&mut self, left: Stage, line: u32, words: Words<'_>) -> Result<(), ListFault>
        ensures { Takes Kind.Instruction (awaits_of left) self.old self.new line (listed words.entry) result }
    {
        match instr_line(words) {
            Ok(instr) => {
                self.put_instr(line, instr)?;
                self.stage = left;
                Ok(())
            }
            Err(kind) => Err(ListFault::At { line, kind }),
        }
    }

    fn take_ending(&mut self, line: u32, words: Words<'_>) -> Result<(), ListFault>
        ensures { Takes Kind.Ending [] self.old self.new line (listed words.entry) result }
    {
        match ending_line(words) {
            Ok(()) => {
                self.close()?;
                self.stage = Stage::Done;
                Ok(())
            }
            Err(kind) => Err(ListFault::At { line, kind }),
        }
    }

    /// Takes a line behind `tasks K`.
    fn take_of_tasks(
        &mut self,
        left: (u32, u32, u32),
        line: u32,
        words: Words<'_>,
    ) -> Result<(), ListFault>
        requires { self.old.stage ≡ Stage.TaskLines left.0 left.1 left.2 }
        ensures { TakesAny self.old self.new line (listed words.entry) result }
    {
        let (buffers, code, tasks) = left;
        if buffers > 0 {
            self.take_buffer(Stage::TaskLines(buffers - 1, code, tasks), line, words)
        } else if code > 0 {
            self.take_instr(Stage::TaskLines(0, code - 1, tasks), line, words)
        } else if tasks > 0 {
            self.take_task(tasks - 1, line, words)
        } else {
            self.take_ending(line, words)
        }
    }

    /// Takes the words of a line, of which this is the number.
    pub(crate) fn take(&mut self, line: u32, words: Words<'_>) -> Result<(), ListFault>
        ensures { TakesAny self.old self.new line (listed words.entry) result }
    {
        match self.stage {
            Stage::Title => self.take_title(line, words),
            Stage::Monitors => self.take_monitors(line, words),
            Stage::MonitorLines(left) => {
                if left > 0 {
                    self.take_monitor(left - 1, line, words)
                } else {
                    self.take_outputs(line, words)
                }
            }
            Stage::OutputLines(left) => {
                if left > 0 {
                    self.take_output(left - 1, line, words)
                } else {
                    self.take_tasks(line, words)
                }
            }
            Stage::TaskLines(buffers, code, tasks) => {
                self.take_of_tasks((buffers, code, tasks), line, words)
            }
            Stage::Done => {
                let kind = ListKind::After;
                Err(ListFault::At { line, kind })
            }
        }
    }

    /// Takes the whole lines of a text, and answers how many they are, and what stands behind them.
    fn take_lines<'a>(&mut self, text: &'a [u8]) -> Result<(u32, &'a [u8]), ListFault>
        requires { length text.now ≤ byte_limit }
        ensures walked { IfOk result (λ r. walk (state_of self.old) 1 (whole_lines text.now) ≡ Ok (state_of self.new)) }
        ensures lines { IfOk result (λ r. length (whole_lines text.now) ≡ r.0) }
        ensures behind { IfOk result (λ r. behind_lines text.now ≡ r.1.now) }
        ensures few { IfOk result (λ r. r.0 ≤ byte_limit) }
        ensures fault { IfErr result (λ f. Judges (walk (state_of self.old) 1 (whole_lines text.now)) f) }
    {
        let mut lines = 0;
        let mut rest = text;
        while let Some((line, behind)) = split_line(rest) {
            let number = lines + 1;
            self.take(number, line_words(line))?;
            lines = number;
            rest = behind;
        }
        Ok((lines, rest))
    }

    /// The fault of a text whose lines were taken, where one of them breaks a rule, or they are too much together.
    fn judge(&self) -> Result<(), ListFault>
        ensures { Says (judged (state_of self.now)) (state_of self.now) result }
    {
        if let Some(line) = self.place {
            let kind = ListKind::Place;
            return Err(ListFault::At { line, kind });
        }
        if self.words > WORD_LIMIT || self.instructions > INSTR_LIMIT {
            let kind = ListKind::Limit;
            return Err(ListFault::At { line: 0, kind });
        }
        Ok(())
    }

    fn is_done(&self) -> bool
        ensures { result ≡ is_empty (awaits_of self.now.stage) }
    {
        match self.stage {
            Stage::Done => true,
            Stage::Title | Stage::Monitors => false,
            Stage::MonitorLines(_) => false,
            Stage::OutputLines(_) => false,
            Stage::TaskLines(_, _, _) => false,
        }
    }

    /// The fault of a text of which so many whole lines were taken, and behind which this stands.
    fn finish(&mut self, lines: u32, last: &[u8]) -> Result<(), ListFault>
        requires { lines ≤ byte_limit }
        ensures ok { OnOk result ((closed last.now lines (state_of self.old) ≡ Ok (state_of self.old)) × (self.new ≡ self.old)) }
        ensures fault { IfErr result (λ f. Judges (closed last.now lines (state_of self.old)) f) }
    {
        let line = lines + 1;
        if !last.is_empty() {
            self.take(line, line_words(last))?;
            let line = line + 1;
            let kind = ListKind::Short;
            return Err(ListFault::At { line, kind });
        }
        if !self.is_done() {
            let kind = ListKind::Short;
            return Err(ListFault::At { line, kind });
        }
        self.judge()
    }

    /// The program of the lines that were taken, which must keep the rules.
    pub(crate) fn program(&mut self) -> Program
        requires { KeepsRules (program_of (state_of self.old)) }
        ensures { result ≡ program_of (state_of self.old) }
    {
        let monitors = mem::replace(&mut self.monitors, Items::new(self.alloc));
        let outputs = mem::replace(&mut self.outputs, Items::new(self.alloc));
        let tasks = mem::replace(&mut self.tasks, Items::new(self.alloc));
        Program::new(monitors, outputs, tasks)
    }

    /// Reads a text to its end.
    pub(crate) fn read(alloc: Global, text: &[u8]) -> Result<Reader, ListFault>
        ensures ok { IfOk result (λ r. verdict text.now ≡ Ok (state_of r)) }
        ensures fault { IfErr result (λ f. Judges (verdict text.now) f) }
    {
        if text.len() > BYTE_LIMIT {
            let kind = ListKind::Long;
            return Err(ListFault::At { line: 0, kind });
        }
        let mut reader = Reader::new(alloc);
        let (lines, last) = reader.take_lines(text)?;
        reader.finish(lines, last)?;
        Ok(reader)
    }
}
