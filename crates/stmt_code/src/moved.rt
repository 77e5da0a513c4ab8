//! Words that are read and written one by one.

ghost use Rattle.std.specs.Prelude.{◌≡◌, ◌+◌, ◌-◌, ◌++◌, IfOk, OnOk};
ghost use Rattle.task_code.specs.Grows.{Keeps};
ghost use Rattle.task_code.specs.Piece.{listed};
ghost use Rattle.stmt_code.specs.Layout.{plus};
ghost use Rattle.stmt_code.specs.Body.{read_word, before_value, behind_value, kept, index_from, word_copied, words_copied, moved_to};
ghost use Rattle.stmt_code.specs.Seen.{base_of, moved_of, message_seen};

use task_code::{Code, Instr};
use tower_types::NoMemory;

/// Where words stand: private ones from an address on, or those of a monitor, which is named first.
#[derive(Clone, Copy, Debug)]
pub(crate) enum Base {
    Private(u32),
    Monitor(u32, u32),
}

/// A place whose words are moved one by one: whether an index that moves stands in it, where its words are, how many
/// there are from there to the end of what it is a part of, and the private word that keeps its index.
#[derive(Clone, Copy, Debug)]
pub(crate) struct Moved {
    pub(crate) moving: bool,
    pub(crate) base: Base,
    pub(crate) span: u32,
    pub(crate) index: u32,
}

/// A message: the scratch words of its emitter, its buffer, and how many words it has.
#[derive(Clone, Copy, Debug)]
pub(crate) struct SentMessage {
    pub(crate) scratch: u32,
    pub(crate) buffer: u32,
    pub(crate) width: u32,
}

impl Base {
    /// So many words further.
    pub(crate) fn plus(self, n: u32) -> Result<Base, NoMemory>
        ensures { IfOk result (λ b. base_of b ≡ plus (base_of self) n) }
    {
        match self {
            Base::Private(a) => {
                let a = a.checked_add(n).ok_or(NoMemory)?;
                Ok(Base::Private(a))
            }
            Base::Monitor(m, a) => {
                let a = a.checked_add(n).ok_or(NoMemory)?;
                Ok(Base::Monitor(m, a))
            }
        }
    }
}

impl SentMessage {
    /// The scratch words, as a place that words are moved to.
    pub(crate) fn place(self) -> Moved
        ensures { moved_of result ≡ moved_to (message_seen self) }
    {
        Moved {
            moving: false,
            base: Base::Private(self.scratch),
            span: self.width,
            index: 0,
        }
    }
}

impl Moved {
    /// The word `j` of the place.
    fn word(self, j: u32) -> Result<Moved, NoMemory>
        ensures { IfOk result (λ m. moved_of m ≡ record { moving = self.moving; base = plus (base_of self.base) j; span = self.span - j; index = self.index }) }
    {
        let base = self.base.plus(j)?;
        Ok(Moved {
            moving: self.moving,
            base,
            span: self.span.saturating_sub(j),
            index: self.index,
        })
    }

    /// Adds what keeps the index, or some of it.
    pub(crate) fn add_kept(self, code: &mut Code) -> Result<(), NoMemory>
        ensures ok { OnOk result (code.new ≡ code.old ++ listed (kept self.moving self.index)) }
        ensures keeps { Keeps code.old code.new }
    {
        if self.moving {
            code.push(Instr::St(self.index))?;
        }
        Ok(())
    }

    /// Adds what brings the index back, or some of it.
    fn add_index(self, code: &mut Code) -> Result<(), NoMemory>
        ensures ok { OnOk result (code.new ≡ code.old ++ listed (index_from self.moving self.index)) }
        ensures keeps { Keeps code.old code.new }
    {
        if self.moving {
            code.push(Instr::Ld(self.index))?;
        }
        Ok(())
    }

    /// Adds what reads the first word, or some of it.
    pub(crate) fn add_read(self, code: &mut Code) -> Result<(), NoMemory>
        ensures ok { OnOk result (code.new ≡ code.old ++ listed (read_word self.moving (base_of self.base) self.span)) }
        ensures keeps { Keeps code.old code.new }
    {
        match self.base {
            Base::Private(a) if self.moving => code.push(Instr::Ldx(a, self.span)),
            Base::Monitor(m, a) if self.moving => code.push(Instr::Ldm(m, a, self.span)),
            Base::Private(a) => code.push(Instr::Ld(a)),
            Base::Monitor(m, a) => {
                code.push(Instr::Push(0))?;
                code.push(Instr::Ldm(m, a, 1))?;
                Ok(())
            }
        }
    }

    /// Adds what stands before a value that is stored in the first word, or some of it.
    pub(crate) fn add_before(self, code: &mut Code) -> Result<(), NoMemory>
        ensures ok { OnOk result (code.new ≡ code.old ++ listed (before_value self.moving (base_of self.base))) }
        ensures keeps { Keeps code.old code.new }
    {
        match self.base {
            Base::Monitor(_, _) if !self.moving => code.push(Instr::Push(0)),
            Base::Monitor(_, _) | Base::Private(_) => Ok(()),
        }
    }

    /// Adds what stores a value in the first word, or some of it.
    pub(crate) fn add_behind(self, code: &mut Code) -> Result<(), NoMemory>
        ensures ok { OnOk result (code.new ≡ code.old ++ listed (behind_value self.moving (base_of self.base) self.span)) }
        ensures keeps { Keeps code.old code.new }
    {
        let instr = match self.base {
            Base::Private(a) if self.moving => Instr::Stx(a, self.span),
            Base::Monitor(m, a) if self.moving => Instr::Stm(m, a, self.span),
            Base::Private(a) => Instr::St(a),
            Base::Monitor(m, a) => Instr::Stm(m, a, 1),
        };
        code.push(instr)
    }
}

/// Adds what copies the word `j`, or some of it.
fn add_word_copied(code: &mut Code, to: Moved, source: Moved, j: u32) -> Result<(), NoMemory>
    ensures ok { OnOk result (code.new ≡ code.old ++ listed (word_copied (moved_of to) (moved_of source) j)) }
    ensures keeps { Keeps code.old code.new }
{
    let to = to.word(j)?;
    let source = source.word(j)?;
    to.add_index(code)?;
    to.add_before(code)?;
    source.add_index(code)?;
    source.add_read(code)?;
    to.add_behind(code)?;
    Ok(())
}

/// Adds what copies the first `n` words of a place to another, or some of it.
pub(crate) fn add_words_copied(
    code: &mut Code,
    to: Moved,
    source: Moved,
    n: u32,
) -> Result<(), NoMemory>
    ensures ok { OnOk result (code.new ≡ code.old ++ listed (words_copied (moved_of to) (moved_of source) 0 n)) }
    ensures keeps { Keeps code.old code.new }
{
    for j in 0..n {
        add_word_copied(code, to, source, j)?;
    }
    Ok(())
}
