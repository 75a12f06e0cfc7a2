use op_msg::FrameErr;

/// How a connection ended.
#[derive(Clone, Copy, Debug, PartialEq, Eq)]
pub enum Ended {
    /// The peer ended between two messages.
    Done,
    /// The link failed.
    LinkFault,
    /// The peer sent what is no message, by its length, or by what the Talk closed the connection
    /// on.
    BadFrame { err: FrameErr },
    /// The peer ended inside a message.
    Cut,
    /// The Talk failed.
    TalkFault,
    /// There was no memory.
    Memory,
    /// The Talk closed the connection on a message that can be read.
    Closed,
}
