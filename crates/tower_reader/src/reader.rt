//! Reads a text, in pieces of any size.
ghost use Rattle.std.specs.Prelude.{◌≡◌, ◌≢◌, ℕ, ◌++◌, ◌∷◌, [], List, OnOk, IfOk, IfErr};
ghost use Rattle.tower_syntax.specs.RawView.{raw_of};
ghost use Rattle.tower_reader.specs.Spelled.{Spells};
ghost use Rattle.tower_reader.specs.Faults.{IsFault};
ghost use Rattle.tower_reader.specs.declared.fault.ReadFault.{ReadFault};
ghost use Rattle.tower_reader.specs.Verdict.{verdict, Gives};
ghost use Rattle.tower_reader.specs.Standing.{StandsFor, HasFailed};

use crate::fault::{ReadFault, fault_of};
use crate::lists::Lists;
use std::alloc::Global;
use tower_sexp::{Fed, Lexer, Token};
use tower_syntax::Raw;
use tower_types::NoMemory;

/// How many bytes a text may have.
const BYTE_LIMIT: u32 = 1_048_576;

/// How many tokens a byte makes whole at most: an atom and a bracket.
const TOKENS: usize = 2;

/// How far a reader has come.
#[derive(Clone, Copy)]
enum Stage {
    Reads,
    /// The text has more bytes than the limit.
    Long,
    /// Memory ran out.
    Failed,
}

/// Reads a text that comes in pieces. Beside the tree of what it has read it keeps the atom that has not ended, and a
/// frame of a fixed size for each unclosed list. Of a list in which something was found it keeps no tree.
#[derive(Drop)]
pub struct Reader {
    lexer: Lexer,
    /// The lists that are unclosed.
    lists: Lists,
    /// Room for the tokens of a byte.
    tokens: Vec<Token>,
    stage: Stage,
}

impl Reader {
    /// A reader that stands for the empty text.
    pub fn new(alloc: Global) -> Result<Reader, NoMemory>
        ensures { IfOk result (λ r. StandsFor r []) }
    {
        let mut tokens = Vec::new(alloc);
        tokens.reserve(TOKENS)?;
        Ok(Reader {
            lexer: Lexer::new(alloc),
            lists: Lists::new(alloc),
            tokens,
            stage: Stage::Reads,
        })
    }

    /// Takes a byte of a text that is within the limit so far.
    fn read_byte(&mut self, byte: u8) -> Result<(), NoMemory>
        requires { self.old.stage ≡ Stage.Reads }
        ensures { OnOk result ((bs : List ℕ) → StandsFor self.old bs → StandsFor self.new (bs ++ byte ∷ [])) }
    {
        if self.lexer.taken() >= BYTE_LIMIT {
            self.stage = Stage::Long;
            return Ok(());
        }
        self.tokens.clear();
        match self.lexer.feed(byte, &mut self.tokens) {
            Fed::Taken => {
                self.lists.read_tokens(self.tokens.as_slice())?;
                Ok(())
            }
            Fed::NoMemory => Err(NoMemory),
        }
    }

    /// Once the text is longer than the limit, the rest is not looked at.
    fn take_piece(&mut self, piece: &[u8]) -> Result<(), NoMemory>
        ensures { OnOk result ((bs : List ℕ) → StandsFor self.old bs → StandsFor self.new (bs ++ piece.now)) }
    {
        for byte in piece {
            match self.stage {
                Stage::Reads => self.read_byte(*byte)?,
                Stage::Long => return Ok(()),
                Stage::Failed => return Err(NoMemory),
            }
        }
        Ok(())
    }

    /// Takes the next piece of the text. After `NoMemory` the reader has failed.
    pub fn feed(&mut self, piece: &[u8]) -> Fed
        // For each text for which it stood, it now stands for that text and the piece behind it.
        ensures stands { result ≡ Fed.Taken → (bs : List ℕ) → StandsFor self.old bs → StandsFor self.new (bs ++ piece.now) }

        // Once memory was wanting it fails for good.
        ensures fails { result ≡ Fed.NoMemory → HasFailed self.new }
        ensures failed { HasFailed self.old → result ≡ Fed.NoMemory }
    {
        if let Stage::Failed = self.stage {
            return Fed::NoMemory;
        }
        match self.take_piece(piece) {
            Ok(()) => Fed::Taken,
            Err(_) => {
                self.stage = Stage::Failed;
                Fed::NoMemory
            }
        }
    }

    /// The verdict on the text, where it is within the limit.
    fn end(self) -> Result<Raw, ReadFault>
        requires { self.stage ≡ Stage.Reads }
        ensures gives { (bs : List ℕ) → StandsFor self bs → Gives result (verdict bs) }
        ensures told { (bs : List ℕ) (f : ReadFault) → StandsFor self bs → verdict bs ≡ Err f → result ≡ Err f }
    {
        let Reader {
            lexer,
            mut lists,
            mut tokens,
            ..
        } = self;
        tokens.clear();
        match lexer.finish(&mut tokens) {
            Err(fault) => Err(fault_of(fault)),
            Ok(()) => {
                lists.read_tokens(tokens.as_slice())?;
                lists.finish()
            }
        }
    }

    fn verdict(self) -> Result<Raw, ReadFault>
        ensures gives { (bs : List ℕ) → StandsFor self bs → Gives result (verdict bs) }
        ensures told { (bs : List ℕ) (f : ReadFault) → StandsFor self bs → verdict bs ≡ Err f → result ≡ Err f }
        ensures failed { HasFailed self → result ≡ Err ReadFault.NoMemory }
    {
        match self.stage {
            Stage::Failed => Err(ReadFault::NoMemory),
            Stage::Long => Err(ReadFault::Long {
                limit: u64::from(BYTE_LIMIT),
            }),
            Stage::Reads => self.end(),
        }
    }

    /// The tree of the text, or its first fault.
    pub fn finish(self) -> Result<Raw, ReadFault>
        // For each text for which it stands:
        ensures ok { IfOk result (λ raw. (bs : List ℕ) → StandsFor self bs → Spells bs (raw_of raw)) }
        ensures fault { IfErr result (λ f. f ≢ ReadFault.NoMemory → (bs : List ℕ) → StandsFor self bs → IsFault bs f) }

        // A text's fault is told without memory.
        ensures told { (bs : List ℕ) (f : ReadFault) → StandsFor self bs → IsFault bs f → result ≡ Err f }
        ensures failed { HasFailed self → result ≡ Err ReadFault.NoMemory }
    {
        self.verdict()
    }
}

/// The tree of a text, or its first fault.
pub fn read_raw(alloc: Global, bytes: &[u8]) -> Result<Raw, ReadFault>
    ensures ok { IfOk result (λ raw. Spells bytes.now (raw_of raw)) }
    ensures fault { IfErr result (λ f. f ≢ ReadFault.NoMemory → IsFault bytes.now f) }
{
    let mut reader = Reader::new(alloc)?;
    match reader.feed(bytes) {
        Fed::Taken => reader.finish(),
        Fed::NoMemory => Err(ReadFault::NoMemory),
    }
}
