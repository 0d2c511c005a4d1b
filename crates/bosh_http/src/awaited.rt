/// What a reader of messages waits for, as far as the bytes have come.
#[derive(Clone, Copy, Debug, PartialEq, Eq)]
pub enum Awaited {
    /// The first byte of a message.
    Message,
    /// The rest of its head.
    Head,
    /// The rest of its content, which has so many bytes in all.
    Content(usize),
}
