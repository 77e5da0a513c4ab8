//! Takes bytes one by one, and makes tokens of them.
ghost use Rattle.std.specs.Prelude.{◌≡◌, ℕ, ◌+◌, ◌<◌, ◌≤◌, ◌++◌, ◌≢◌, OnOk, OnErr, IfErr, IsOk, List, [], ◌∷◌, length, vec_len, vec_capacity, ◌&&◌};
ghost use Rattle.tower_sexp.specs.declared.fault.SexpFault.{SexpFault};
ghost use Rattle.tower_sexp.specs.Marks.{tokens_of};
ghost use Rattle.tower_sexp.specs.Faults.{IsFault, IsFaultless};
ghost use Rattle.tower_sexp.specs.Lexing.{state_of, is_nil, atom_ended, advanced, lengthened, passed, bracketed, opened, open_put, closed_by, close_put, stopped_by, atom_put, next_state, next_put};
ghost use Rattle.tower_sexp.specs.WholeTokens.{whole_tokens, GrowsAlike, EndsInAtom, depth_behind};
ghost use Rattle.tower_sexp.specs.Standing.{StandsFor, HasFailed, count_taken, count_unclosed};

use crate::byte::{Class, class_in};
use crate::fault::SexpFault;
use crate::token::Token;
use sqlite_items::Items;
use std::alloc::{AllocError, Global};
use std::mem;

/// How many lists may be unclosed at once.
const NEST_LIMIT: usize = 256;

/// The answer to a byte.
#[derive(Clone, Copy, Debug, PartialEq, Eq)]
pub enum Fed {
    Taken,
    /// The byte was not taken, and the lexer has failed.
    NoMemory,
}

/// Makes tokens of bytes that come one by one. Beside the bytes of the atom that is not whole yet it keeps the offsets
/// of the lists that are unclosed, at most 256.
#[derive(Drop)]
pub struct Lexer {
    alloc: Global,
    taken: u32,
    /// Whether the last byte is one of a comment.
    comment: bool,
    /// Where the atom begins, or where the next byte is.
    start: u32,
    /// The bytes of the atom that the last byte belongs to.
    atom: Items<u8>,
    /// The lists that are unclosed, the innermost last.
    unclosed: Items<u32>,
    /// Whether no token is whole yet.
    is_empty: bool,
    /// The first wrong byte or bracket, from which on nothing is read, or want of memory.
    stopped: Option<SexpFault>,
}

impl Lexer {
    /// A lexer that has taken no byte. It takes no memory.
    pub fn new(alloc: Global) -> Lexer
        ensures taken { count_taken result ≡ 0 }
        ensures stands { StandsFor result [] }
        ensures nested { count_unclosed result ≡ 0 }
    {
        Lexer {
            alloc,
            taken: 0,
            comment: false,
            start: 0,
            atom: Items::new(alloc),
            unclosed: Items::new(alloc),
            is_empty: true,
            stopped: None,
        }
    }

    /// The same, where there is room.
    fn put_atom(&mut self, out: &mut Vec<Token>)
        requires { vec_len out.old < vec_capacity out.old }
        ensures put { out.new.items ≡ out.old.items ++ atom_put (state_of self.old) }
        ensures room { (vec_capacity out.old ≤ vec_capacity out.new) × (vec_len out.new ≤ vec_len out.old + 1) }
        ensures state { state_of self.new ≡ atom_ended (state_of self.old) }
    {
        if !self.atom.is_empty() {
            let text = mem::replace(&mut self.atom, Items::new(self.alloc));
            let at = self.start;
            out.push(Token::Atom { at, text }).unwrap();
            self.is_empty = false;
        }
    }

    /// Puts the atom, if there is one.
    fn end_atom(&mut self, out: &mut Vec<Token>) -> Result<(), AllocError>
        ensures state { OnOk result (state_of self.new ≡ atom_ended (state_of self.old)) }
        ensures put { OnOk result (out.new.items ≡ out.old.items ++ atom_put (state_of self.old)) }
        ensures err { OnErr result ((self.new ≡ self.old) × (out.new.items ≡ out.old.items)) }
        ensures room { vec_len out.old < vec_capacity out.old → IsOk result }
        ensures capacity { vec_capacity out.old ≤ vec_capacity out.new }
    {
        if self.atom.is_empty() {
            return Ok(());
        }
        out.reserve(1)?;
        self.put_atom(out);
        Ok(())
    }

    /// Goes on behind a byte that is none of an atom.
    fn advance(&mut self, comment: bool)
        requires { count_taken self.old < 4294967295 }
        ensures { state_of self.new ≡ advanced comment (state_of self.old) }
    {
        self.taken += 1;
        self.start = self.taken;
        self.comment = comment;
    }

    fn stop(&mut self, fault: SexpFault)
        requires { count_taken self.old < 4294967295 }
        ensures { state_of self.new ≡ stopped_by fault (state_of self.old) }
    {
        self.taken += 1;
        self.stopped = Some(fault);
    }

    fn lengthen(&mut self, byte: u8) -> Result<(), AllocError>
        requires { count_taken self.old < 4294967295 }
        ensures state { OnOk result (state_of self.new ≡ lengthened byte (state_of self.old)) }
        ensures err { OnErr result (count_taken self.new ≡ count_taken self.old) }
    {
        self.atom.push(byte)?;
        self.taken += 1;
        Ok(())
    }

    fn pass(&mut self, comment: bool, out: &mut Vec<Token>) -> Result<(), AllocError>
        requires { count_taken self.old < 4294967295 }
        ensures state { OnOk result (state_of self.new ≡ passed comment (state_of self.old)) }
        ensures put { OnOk result (out.new.items ≡ out.old.items ++ atom_put (state_of self.old)) }
        ensures err { OnErr result ((count_taken self.new ≡ count_taken self.old) × (out.new.items ≡ out.old.items)) }
        ensures capacity { vec_capacity out.old ≤ vec_capacity out.new }
    {
        self.end_atom(out)?;
        self.advance(comment);
        Ok(())
    }

    /// Puts the atom, if there is one, and the bracket behind it.
    fn put_bracket(&mut self, bracket: Token, out: &mut Vec<Token>) -> Result<(), AllocError>
        requires { count_taken self.old < 4294967295 }
        ensures state { OnOk result (state_of self.new ≡ bracketed (state_of self.old).lists (state_of self.old)) }
        ensures put { OnOk result (out.new.items ≡ out.old.items ++ atom_put (state_of self.old) ++ bracket ∷ []) }
        ensures err { OnErr result ((count_taken self.new ≡ count_taken self.old) × (out.new.items ≡ out.old.items)) }
        ensures capacity { vec_capacity out.old ≤ vec_capacity out.new }
    {
        out.reserve(2)?;
        self.put_atom(out);
        out.push(bracket).unwrap();
        self.is_empty = false;
        self.advance(false);
        Ok(())
    }

    fn open(&mut self, out: &mut Vec<Token>) -> Result<(), AllocError>
        requires { count_taken self.old < 4294967295 }
        ensures state { OnOk result (state_of self.new ≡ opened (state_of self.old)) }
        ensures put { OnOk result (out.new.items ≡ out.old.items ++ open_put (state_of self.old)) }
        ensures err { OnErr result ((count_taken self.new ≡ count_taken self.old) × (out.new.items ≡ out.old.items)) }
        ensures capacity { vec_capacity out.old ≤ vec_capacity out.new }
    {
        let at = self.taken;
        if self.unclosed.len() == NEST_LIMIT {
            self.stop(SexpFault::Nest { at });
            return Ok(());
        }
        self.unclosed.push(at)?;
        self.put_bracket(Token::Left { at }, out)?;
        Ok(())
    }

    fn close(&mut self, out: &mut Vec<Token>) -> Result<(), AllocError>
        requires { count_taken self.old < 4294967295 }
        ensures state { OnOk result (state_of self.new ≡ closed_by (state_of self.old).lists (state_of self.old)) }
        ensures put { OnOk result (out.new.items ≡ out.old.items ++ close_put (state_of self.old).lists (state_of self.old)) }
        ensures err { OnErr result ((count_taken self.new ≡ count_taken self.old) × (out.new.items ≡ out.old.items)) }
        ensures capacity { vec_capacity out.old ≤ vec_capacity out.new }
    {
        let at = self.taken;
        match self.unclosed.pop() {
            None => {
                self.stop(SexpFault::Unopened { at });
                Ok(())
            }
            Some(_) => {
                self.put_bracket(Token::Right { at }, out)?;
                Ok(())
            }
        }
    }

    /// Takes the next byte, where nothing was wrong so far.
    fn read_byte(&mut self, byte: u8, out: &mut Vec<Token>) -> Result<(), AllocError>
        requires { count_taken self.old < 4294967295 }
        ensures state { OnOk result (state_of self.new ≡ next_state byte (state_of self.old)) }
        ensures put { OnOk result (out.new.items ≡ out.old.items ++ next_put byte (state_of self.old)) }
        ensures err { OnErr result ((count_taken self.new ≡ count_taken self.old) × (out.new.items ≡ out.old.items)) }
        ensures capacity { vec_capacity out.old ≤ vec_capacity out.new }
    {
        match class_in(self.comment, byte) {
            Class::Atom => self.lengthen(byte)?,
            Class::Blank => self.pass(false, out)?,
            Class::Comment => self.pass(true, out)?,
            Class::Left => self.open(out)?,
            Class::Right => self.close(out)?,
            Class::Stray => {
                let at = self.taken;
                self.stop(SexpFault::Byte { at });
            }
        }
        Ok(())
    }

    /// Whether the bytes taken hold nothing of a token.
    fn has_no_token(&self) -> bool
        ensures { result ≡ (self.now.is_empty && is_nil self.now.atom) }
    {
        self.is_empty && self.atom.is_empty()
    }

    /// The number of bytes taken. It takes no memory.
    pub fn taken(&self) -> u32
        ensures value { result ≡ count_taken self.now }
        ensures text { (bs : List ℕ) → StandsFor self.now bs → result ≡ length bs }
    {
        self.taken
    }

    /// Takes the next byte, and puts the tokens that it makes whole: an atom by the byte behind it, a bracket at once.
    /// From the first wrong byte or bracket on it puts nothing. After `NoMemory` it has failed.
    pub fn feed(&mut self, byte: u8, out: &mut Vec<Token>) -> Fed
        requires { count_taken self.old < 4294967295 }

        // For each text for which it stood, it now stands for that text with the byte, and `out` grew as its whole tokens.
        ensures stands { result ≡ Fed.Taken → (bs : List ℕ) → StandsFor self.old bs → StandsFor self.new (bs ++ byte ∷ []) }
        ensures put { result ≡ Fed.Taken → (bs : List ℕ) → StandsFor self.old bs → GrowsAlike out.old.items out.new.items (whole_tokens bs) (whole_tokens (bs ++ byte ∷ [])) }
        ensures counted { result ≡ Fed.Taken → count_taken self.new ≡ count_taken self.old + 1 }

        // The lists that are unclosed are at most 256, and as many as the tokens say.
        ensures few { result ≡ Fed.Taken → count_unclosed self.old ≤ 256 → count_unclosed self.new ≤ 256 }
        ensures nested { result ≡ Fed.Taken → out.old.items ≡ [] → count_unclosed self.old ≤ 256 → count_unclosed self.new ≡ depth_behind (count_unclosed self.old) out.new.items }

        // Once memory was wanting it fails for good.
        ensures fails { result ≡ Fed.NoMemory → HasFailed self.new }
        ensures unchanged { result ≡ Fed.NoMemory → (out.new.items ≡ out.old.items) × (count_taken self.new ≡ count_taken self.old) }
        ensures failed { HasFailed self.old → result ≡ Fed.NoMemory }
        ensures capacity { vec_capacity out.old ≤ vec_capacity out.new }
    {
        match self.stopped {
            Some(SexpFault::NoMemory) => Fed::NoMemory,
            Some(_) => {
                self.taken += 1;
                Fed::Taken
            }
            None => match self.read_byte(byte, out) {
                Ok(()) => Fed::Taken,
                Err(_) => {
                    self.stopped = Some(SexpFault::NoMemory);
                    Fed::NoMemory
                }
            },
        }
    }

    /// The fault of the bytes taken, or else the atom that the end makes whole.
    pub fn finish(mut self, out: &mut Vec<Token>) -> Result<(), SexpFault>
        // For each text for which it stands: no fault, and `out` has grown by the rest of its tokens.
        ensures ok { OnOk result ((bs : List ℕ) → StandsFor self bs → IsFaultless bs × GrowsAlike out.old.items out.new.items (whole_tokens bs) (tokens_of bs)) }

        // A fault is the text's, and a text's fault is answered without memory.
        ensures fault { IfErr result (λ f. f ≢ SexpFault.NoMemory → (bs : List ℕ) → StandsFor self bs → IsFault bs f) }
        ensures told { (bs : List ℕ) (f : SexpFault) → StandsFor self bs → IsFault bs f → result ≡ Err f }
        ensures unchanged { OnErr result (out.new.items ≡ out.old.items) }
        ensures failed { HasFailed self → result ≡ Err SexpFault.NoMemory }

        // What the end makes whole is an atom or nothing, and takes no memory where there is room for it.
        ensures last { OnOk result (EndsInAtom out.old.items out.new.items) }
        ensures room { (bs : List ℕ) → StandsFor self bs → vec_len out.old < vec_capacity out.old → result ≢ Err SexpFault.NoMemory }
    {
        if let Some(fault) = self.stopped {
            return Err(fault);
        }
        if let Some(at) = self.unclosed.pop() {
            return Err(SexpFault::Unclosed { at });
        }
        if self.has_no_token() {
            return Err(SexpFault::Empty);
        }
        Ok(self.end_atom(out)?)
    }
}
