//! What a system reports of its sockets.

/// That a socket is ready.
#[derive(Clone, Copy, Debug, PartialEq, Eq)]
pub struct Report {
    /// The number that the socket was made with.
    pub number: u64,
    /// A read wouldn't wait, or a client may wait at a listener.
    pub readable: bool,
    /// A write wouldn't wait.
    pub writable: bool,
    /// No bytes come after those that are there: the stream ended or failed.
    pub ending: bool,
    /// Nobody reads what is written any more.
    pub closed: bool,
}
