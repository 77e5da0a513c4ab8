use sqlite_items::Items;

/// A token, with the offset of its first byte. `text` are its bytes: those of an identifier in lower case, those of a
/// string without the quote at its end.
#[derive(Debug, Drop)]
pub struct Token {
    pub at: u32,
    pub text: Items<u8>,
}
