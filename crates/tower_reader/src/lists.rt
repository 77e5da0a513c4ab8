//! The lists that are unclosed, and what tokens make of them.
ghost use Rattle.std.specs.Prelude.{◌≡◌, ℕ, List, ◌∷◌, [], OnOk, IsOk};
ghost use Rattle.tower_sexp.specs.WholeTokens.{EndsInAtom};
ghost use Rattle.tower_syntax.specs.RawView.{raw_of};
ghost use Rattle.tower_reader.specs.Machine.{IsFile, bottom, opens, closes, enters, step, run};
ghost use Rattle.tower_reader.specs.View.{all_seen, frame_of, frames_of};
ghost use Rattle.tower_reader.specs.declared.fault.ReadFault.{ReadFault};
ghost use Rattle.tower_reader.specs.Verdict.{by_parts, by_found, outcome, Gives};

use crate::children::tower;
use crate::fault::ReadFault;
use crate::found::Found;
use crate::frame::Frame;
use crate::part::Part;
use std::alloc::Global;
use std::mem;
use tower_sexp::Token;
use tower_syntax::Raw;
use tower_types::NoMemory;

/// The file, and the lists that are unclosed in it.
#[derive(Drop)]
pub(crate) struct Lists {
    alloc: Global,
    /// The innermost list, or the file where none is unclosed.
    top: Frame,
    /// The file and the lists around the innermost, which comes last.
    outer: Vec<Frame>,
}

/// The tree that the first part is.
fn first_tower(alloc: Global, parts: Vec<Part>) -> Result<Raw, ReadFault>
    ensures gives { Gives result (by_parts (all_seen parts.items)) }
    ensures told { (f : ReadFault) → by_parts (all_seen parts.items) ≡ Err f → result ≡ Err f }
{
    let mut parts = parts.into_iter();
    match parts.next() {
        None => Err(ReadFault::Empty),
        Some(part) => Ok(tower(alloc, part)?),
    }
}

/// The first fault of the forms, or else the tree. A fault takes no memory.
fn found_or(alloc: Global, found: Found, parts: Vec<Part>) -> Result<Raw, ReadFault>
    ensures gives { Gives result (by_found found (all_seen parts.items)) }
    ensures told { (f : ReadFault) → by_found found (all_seen parts.items) ≡ Err f → result ≡ Err f }
{
    if let Some(at) = found.form {
        return Err(ReadFault::Form { at });
    }
    if let Some(at) = found.number {
        return Err(ReadFault::Number { at });
    }
    if let Some(at) = found.length {
        return Err(ReadFault::Length { at });
    }
    first_tower(alloc, parts)
}

impl Lists {
    /// The file alone.
    pub fn new(alloc: Global) -> Lists
        ensures { frames_of result ≡ bottom ∷ [] }
    {
        Lists {
            alloc,
            top: Frame::bottom(alloc),
            outer: Vec::new(alloc),
        }
    }

    fn open(&mut self, at: u32) -> Result<(), NoMemory>
        ensures { OnOk result (frames_of self.new ≡ opens at (frames_of self.old)) }
    {
        let place = self.top.slot();
        let inner = Frame::opened(self.alloc, place, at);
        let outer = mem::replace(&mut self.top, inner);
        self.outer.push(outer)?;
        Ok(())
    }

    fn close(&mut self) -> Result<(), NoMemory>
        ensures { OnOk result (frames_of self.new ≡ closes (frames_of self.old)) }
    {
        if let Some(outer) = self.outer.pop() {
            let inner = mem::replace(&mut self.top, outer);
            let (part, found) = inner.closed(self.alloc)?;
            self.top.take_in(self.alloc, part, found)?;
        }
        Ok(())
    }

    fn enter(&mut self, at: u32, text: &[u8]) -> Result<(), NoMemory>
        ensures entered { OnOk result (frames_of self.new ≡ enters at text.now (frames_of self.old)) }
        ensures told { IsFile (frame_of self.old.top) → IsOk result }
    {
        self.top.enter(self.alloc, at, text)?;
        Ok(())
    }

    #[inline(never)]
    fn read_token(&mut self, token: &Token) -> Result<(), NoMemory>
        ensures read { OnOk result (frames_of self.new ≡ step token.now (frames_of self.old)) }
        ensures told { (at : ℕ) (text : List ℕ) → token.now ≡ Token.Atom at text → IsFile (frame_of self.old.top) → IsOk result }
    {
        match token {
            Token::Left { at } => self.open(*at),
            Token::Right { .. } => self.close(),
            Token::Atom { at, text } => self.enter(*at, text.as_slice()),
        }
    }

    /// Takes tokens. An atom of the file takes no memory.
    pub fn read_tokens(&mut self, tokens: &[Token]) -> Result<(), NoMemory>
        ensures read { OnOk result (frames_of self.new ≡ run tokens.now (frames_of self.old)) }
        ensures told { EndsInAtom [] tokens.now → IsFile (frame_of self.old.top) → IsOk result }
    {
        for token in tokens {
            self.read_token(token)?;
        }
        Ok(())
    }

    /// What is read where the text has ended and no list is unclosed. A fault takes no memory.
    pub fn finish(self) -> Result<Raw, ReadFault>
        ensures gives { Gives result (outcome (frames_of self)) }
        ensures told { (f : ReadFault) → outcome (frames_of self) ≡ Err f → result ≡ Err f }
    {
        let Lists { alloc, top, .. } = self;
        let (parts, found) = top.into_parts();
        found_or(alloc, found, parts)
    }
}
