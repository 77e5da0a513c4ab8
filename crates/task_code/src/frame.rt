use sqlite_items::Items;

/// Where a handler's words and buffers stand in a task: addresses of private words, and the number of its first buffer.
#[derive(Debug, Drop)]
pub struct Frame {
    /// The message.
    pub param: u32,
    /// The names of each callback, in the order in which they are bound.
    pub binders: Items<Items<u32>>,
    /// Two words for moving indices, and one that counts the messages that are delivered.
    pub temps: u32,
    /// A message of each emitter.
    pub scratch: Items<u32>,
    pub first_buffer: u32,
    /// Behind the last of its words.
    pub end: u32,
}

/// The frames of the handlers that a task reaches, and the places of their first instructions, by the handler's number.
#[derive(Debug, Drop)]
pub struct Frames {
    pub frames: Items<Option<Frame>>,
    pub entries: Items<u32>,
}
