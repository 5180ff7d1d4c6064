//! The links of a proxy's sessions, and the net that carries them.
ghost use Rattle.std.specs.Prelude.{◌≡◌, ◌≤◌, ◌<◌, ◌+◌, [], ◌∷◌, ℕ, Some, None, IfOk, IsErrOf, OnOk, length, true};
ghost use Rattle.std.specs.Option.{option_map};
ghost use Rattle.link_traits.specs.Journals.{Journal, accepts, listens};
ghost use Rattle.link_traits.specs.Entries.{ready, shut};
ghost use Rattle.link_traits.specs.Views.{NetView, Adds, RoseAt, KeepsOthers, KeepsWishes};
ghost use Rattle.link_traits.specs.Answers.{listen_entry, accept_entry, connect_entry, read_entry, write_entry, no_wishes, client_link, bus_link, AfterAccept};
ghost use Rattle.link_traits.specs.declared.links.Count.{Count};
ghost use Rattle.link_traits.specs.declared.links.Setting.{Setting as SettingValue};
ghost use Rattle.link_traits.specs.declared.links.Wishes.{Wishes};

use thiserror::Error;

/// A side of a session.
#[derive(Clone, Copy, Debug, PartialEq, Eq)]
pub enum Side {
    Client,
    Bus,
}

/// A link of a session.
#[derive(Clone, Copy, Debug, PartialEq, Eq)]
pub struct Link {
    /// The session's number, from 1.
    pub session: u32,
    /// Which of its two links.
    pub side: Side,
}

/// The result of a wait. A listener or a link is a hint: the call that follows may still find nothing.
#[derive(Clone, Copy, Debug, PartialEq, Eq)]
pub enum Ready {
    /// A client may wait at this listener.
    Listener(u32),
    /// This link may be read or written.
    Link(Link),
    /// Nothing more will happen: the script of a net in memory is done, or the starter has closed its end of the pipe.
    Quiet,
    /// The wait failed. The net's own count rises.
    Failed,
}

/// The result of an accept.
#[derive(Clone, Copy, Debug, PartialEq, Eq)]
pub enum Accepted {
    /// A client, with the number of its new session.
    New(u32),
    /// No client waits. The count of waits rises.
    NotReady,
    /// No client could be taken, or no number is left for a session. The listener's count rises.
    Failed,
    /// Memory was refused.
    Memory,
}

/// The result of a read.
#[derive(Clone, Copy, Debug, PartialEq, Eq)]
pub enum Got {
    /// This number of bytes was read.
    Bytes(usize),
    /// No more bytes will be received.
    Finished,
    /// No bytes have been received yet. The count of waits rises.
    NotReady,
    /// The read failed, and gave nothing. The link's count rises.
    Failed,
}

/// The result of a write.
#[derive(Clone, Copy, Debug, PartialEq, Eq)]
pub enum Took {
    /// This number of bytes was taken.
    Bytes(usize),
    /// No byte can be taken yet. The count of waits rises.
    NotReady,
    /// The write failed, and took nothing. The link's count rises.
    Failed,
}

/// What a net does besides carrying links.
#[derive(Clone, Copy, Debug, PartialEq, Eq)]
pub struct Setting {
    /// Whether a listen first removes a socket or an empty regular file at its path.
    pub replaces: bool,
    /// The number of the descriptor of the starter's pipe, or `None` if there is no starter.
    ///
    /// The starter is the program that started this one and holds the reading end of the pipe (`--fd` in
    /// xdg-dbus-proxy(1)). One byte in the pipe says that clients can connect to all paths, and the run ends when the
    /// reading end is closed.
    pub starter: Option<u32>,
}

/// Why a prepare, a listen or a connect failed.
#[derive(Clone, Copy, Debug, PartialEq, Eq, Error)]
pub enum NetFault {
    /// It failed. The count of the session's bus link rises if it was a connect, and else the net's own count.
    #[error("the net failed")]
    Failed,
    /// Memory was refused.
    #[error("out of memory")]
    Memory,
}

/// What a link is watched for.
#[derive(Clone, Copy, Debug, PartialEq, Eq)]
pub struct Wishes {
    pub read: bool,
    pub write: bool,
}

/// A call that gave and took nothing, with its listener, session or link.
#[derive(Clone, Copy, Debug, PartialEq, Eq)]
pub enum Call {
    Listen,
    Accept(u32),
    Connect(u32),
    Read(Link),
    Write(Link),
}

/// What a net counts, up to the greatest `u64` each.
#[derive(Clone, Copy, Debug, PartialEq, Eq)]
pub enum Count {
    /// Its own faults, those of a prepare, a listen and a wait.
    Own,
    /// The faults of a listener.
    Listener(u32),
    /// The faults of a link.
    Link(Link),
    /// Calls that would have waited.
    Waits,
}

/// The links between a proxy, its clients and the bus.
pub trait Net {
    /// What contracts see of the net: its journal while that is known, its counts, the wishes of each link that was
    /// made and isn't shut, and whether nothing more will happen.
    ghost view: { Self → NetView };

    /// What a prepare with this setting makes of the net, if it succeeds.
    ghost takes: { Self → SettingValue → Self → Type 0 };

    /// Applies the setting. It is called before the first listen.
    fn prepare(&mut self, setting: Setting) -> Result<(), NetFault>
        ensures taken { OnOk result (takes self.old setting self.new) }
        ensures told { Adds (view self.old) (view self.new) [] }
        ensures failed { IsErrOf result NetFault.Failed → RoseAt Count.Own (view self.old) (view self.new) }
        ensures wishes { KeepsWishes (view self.old) (view self.new) };

    /// Listens for clients at a path. Listeners are numbered from 0 in the order of their listens; if no number is
    /// left, it fails.
    fn listen(&mut self, path: &str) -> Result<u32, NetFault>
        ensures told { Adds (view self.old) (view self.new) (listen_entry path.now result ∷ []) }
        ensures numbered { IfOk result (λ listener. (before : Journal) → (view self.old).journal ≡ Some before → listener ≡ listens before) }
        ensures failed { IsErrOf result NetFault.Failed → RoseAt Count.Own (view self.old) (view self.new) }
        ensures wishes { KeepsWishes (view self.old) (view self.new) };

    /// Waits until a listener or a link may be ready.
    fn wait(&mut self) -> Ready
        ensures told { Adds (view self.old) (view self.new) (ready result ∷ []) }
        ensures failed { result ≡ Ready.Failed → RoseAt Count.Own (view self.old) (view self.new) }
        ensures quiet { result ≡ Ready.Quiet → (view self.new).script_done ≡ true }
        ensures wishes { KeepsWishes (view self.old) (view self.new) };

    /// Takes a client that waits at a listener. Sessions are numbered from 1 in the order of their accepts; if no
    /// number is left, it fails. The new link has no wish.
    fn accept(&mut self, listener: u32) -> Accepted
        ensures told { Adds (view self.old) (view self.new) (accept_entry listener result ∷ []) }
        ensures numbered { (session : ℕ) → result ≡ Accepted.New session → (before : Journal) → (view self.old).journal ≡ Some before → session ≡ accepts before + 1 }
        ensures failed { result ≡ Accepted.Failed → RoseAt (Count.Listener listener) (view self.old) (view self.new) }
        ensures not_ready { result ≡ Accepted.NotReady → RoseAt Count.Waits (view self.old) (view self.new) }
        ensures new_wishes { (session : ℕ) → result ≡ Accepted.New session → (view self.new).wishes (client_link session) ≡ Some no_wishes }
        ensures wishes { AfterAccept result (view self.old) (view self.new) };

    /// Connects a session to the bus at a path. The new link has no wish.
    fn connect(&mut self, session: u32, path: &str) -> Result<(), NetFault>
        ensures told { Adds (view self.old) (view self.new) (connect_entry session path.now result ∷ []) }
        ensures failed { IsErrOf result NetFault.Failed → RoseAt (Count.Link (bus_link session)) (view self.old) (view self.new) }
        ensures new_wishes { OnOk result ((view self.new).wishes (bus_link session) ≡ Some no_wishes) }
        ensures wishes { KeepsOthers (bus_link session) (view self.old) (view self.new) };

    /// Replaces both wishes of a link. It does nothing for a link that wasn't made or is shut.
    fn want(&mut self, link: Link, read: bool, write: bool)
        ensures told { Adds (view self.old) (view self.new) [] }
        ensures own { (view self.new).wishes link ≡ option_map (λ (_ : Wishes). record { read = read; write = write }) ((view self.old).wishes link) }
        ensures wishes { KeepsOthers link (view self.old) (view self.new) };

    /// Reads into the start of a buffer, at least one byte if the buffer has room for one.
    fn read(&mut self, link: Link, into: &mut [u8]) -> Got
        ensures told { Adds (view self.old) (view self.new) (read_entry link into.new result ∷ []) }
        ensures within { (n : ℕ) → result ≡ Got.Bytes n → n ≤ length into.new }
        ensures progress { (n : ℕ) → result ≡ Got.Bytes n → 0 < length into.new → 0 < n }
        ensures failed { result ≡ Got.Failed → RoseAt (Count.Link link) (view self.old) (view self.new) }
        ensures not_ready { result ≡ Got.NotReady → RoseAt Count.Waits (view self.old) (view self.new) }
        ensures wishes { KeepsWishes (view self.old) (view self.new) };

    /// Writes a prefix of a piece, at least one byte if the piece has one.
    fn write(&mut self, link: Link, piece: &[u8]) -> Took
        ensures told { Adds (view self.old) (view self.new) (write_entry link piece.now result ∷ []) }
        ensures within { (n : ℕ) → result ≡ Took.Bytes n → n ≤ length piece.now }
        ensures progress { (n : ℕ) → result ≡ Took.Bytes n → 0 < length piece.now → 0 < n }
        ensures failed { result ≡ Took.Failed → RoseAt (Count.Link link) (view self.old) (view self.new) }
        ensures not_ready { result ≡ Took.NotReady → RoseAt Count.Waits (view self.old) (view self.new) }
        ensures wishes { KeepsWishes (view self.old) (view self.new) };

    /// Shuts a link, if it was made and isn't shut.
    fn shut(&mut self, link: Link)
        ensures told { Adds (view self.old) (view self.new) (shut link ∷ []) }
        ensures gone { (view self.new).wishes link ≡ None }
        ensures wishes { KeepsOthers link (view self.old) (view self.new) };
}
