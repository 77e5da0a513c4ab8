//! Tokens.
use sqlite_items::Items;

/// A token, with the offset of its first byte.
#[derive(Debug, Drop)]
pub enum Token {
    Left { at: u32 },
    Right { at: u32 },
    Atom { at: u32, text: Items<u8> },
}
