//! Reads a whole text.
ghost use Rattle.std.specs.Prelude.{◌≡◌, ◌<◌, ◌^◌, ◌≢◌, length, IfOk, IfErr};
ghost use Rattle.tower_sexp.specs.Marks.{tokens_of};
ghost use Rattle.tower_sexp.specs.Faults.{IsFault, IsFaultless};
ghost use Rattle.tower_sexp.specs.Trees.{Spells, trees_of};

use crate::fault::SexpFault;
use crate::lexer::{Fed, Lexer};
use crate::node::{Node, nodes};
use crate::token::Token;
use sqlite_items::Items;
use std::alloc::Global;

fn tokens(alloc: Global, bytes: &[u8]) -> Result<Vec<Token>, SexpFault>
    requires { length bytes.now < 2 ^ 32 }
    ensures ok { IfOk result (λ tokens. IsFaultless bytes.now × (tokens.items ≡ tokens_of bytes.now)) }
    ensures fault { IfErr result (λ f. f ≢ SexpFault.NoMemory → IsFault bytes.now f) }
{
    let mut lexer = Lexer::new(alloc);
    let mut tokens = Vec::new(alloc);
    for byte in bytes {
        match lexer.feed(*byte, &mut tokens) {
            Fed::Taken => {}
            Fed::NoMemory => return Err(SexpFault::NoMemory),
        }
    }
    lexer.finish(&mut tokens)?;
    Ok(tokens)
}

/// The nodes of a text, or its first fault.
pub fn read(alloc: Global, bytes: &[u8]) -> Result<Items<Node>, SexpFault>
    requires { length bytes.now < 2 ^ 32 }
    // There is no fault, and the tokens of the text spell the nodes.
    ensures nodes { IfOk result (λ nodes. IsFaultless bytes.now × Spells (trees_of nodes) (tokens_of bytes.now)) }
    ensures fault { IfErr result (λ f. f ≢ SexpFault.NoMemory → IsFault bytes.now f) }
{
    let tokens = tokens(alloc, bytes)?;
    Ok(nodes(alloc, tokens)?)
}
