//! The definitions of a filtering D-Bus proxy: the history that a session's events make, what is sent to the bus and
//! what the client is shown; the plain types that the other crates use for these; and the laws of the definitions.
//!
//! This crate is mainly there to be read: the crates that depend on it are proved against its `specs`.
#![tactic(auto)]

mod note;
mod visible;

ghost use Rattle.std.specs.Prelude.{◌≡◌, ℕ, [], ◌∷◌, ◌++◌, ◌&&◌, not, false, List, None, IsTrue};
ghost use Rattle.std.specs.List.{AllByRecursion};
ghost use Rattle.policy_args.specs.Policy.{Policy};
ghost use Rattle.policy_view.specs.Closings.{ClosesFirst};
ghost use Rattle.policy_view.specs.Elements.{BringsBytes, DifferAsGiven, TellThePart};
ghost use Rattle.policy_view.specs.History.{Event, Bytes, end_of, history, is_over, line_fault};
ghost use Rattle.policy_view.specs.Laws.{DecideTheSame, GivesTheSame, HiddenChangesNothing, KnowTheSame, OnlyGrows, PassesAll};
ghost use Rattle.policy_view.specs.Sent.{Past};
ghost use Rattle.policy_view.specs.declared.Mode.{Mode as SessionMode};
ghost use Rattle.policy_view.specs.declared.Side.{Side as StreamSide};

use dbus_header::{Instead, Malformed};
use dbus_values::Order;
pub use note::{Note, message_of};
use sasl_watch::LineFault;
use thiserror::Error;
pub use visible::{NameList, Visible};

/// A side of a session.
#[derive(Clone, Copy, Debug, PartialEq, Eq)]
pub enum Side {
    /// The confined application.
    Client,
    /// The message bus.
    Bus,
}

/// How a session treats its two streams.
#[derive(Clone, Copy, Debug, PartialEq, Eq)]
pub struct Mode {
    /// Whether both streams begin with the lines of the authentication protocol. Otherwise they begin with messages.
    pub auth: bool,
    /// Whether messages are filtered.
    pub filter: bool,
    /// Whether each filtered message leaves a note of what was decided on it.
    pub notes: bool,
}

/// Why a message was refused or hidden. The numbers are those of the policy's entries, from 1; 0 is no entry.
#[derive(Clone, Copy, Debug, PartialEq, Eq)]
pub enum Reason {
    /// The policy gives the name no access.
    NotVisible,
    /// The policy only lets the name be seen.
    OnlySee(u32),
    /// No Call or Property rule of the name matches.
    NoRule(u32),
    /// A call to the bus of a member that isn't allowed.
    BusMember,
    /// A call to the bus of an interface that isn't allowed.
    BusInterface,
    /// The name in the call's argument isn't visible.
    ArgNotVisible,
    /// The name in the call's argument may not be talked to.
    ArgNotTalk,
    /// The name in the call's argument may not be owned.
    ArgNotOwn,
    /// The match rule asks for messages that are meant for others.
    Eavesdrop,
    /// No caller waits for this reply of the client.
    NotOutstanding,
    /// The message has an unknown type.
    UnknownType,
    /// The body isn't what the member needs.
    BadArgument,
    /// The sender of a broadcast may not be talked to, and no Broadcast rule matches.
    SenderNotTalk,
    /// The owner of a name changed, and the name isn't visible.
    NameHidden,
    /// No call of the client waits for this reply of the bus.
    NotExpected,
    /// The reply to a call of the proxy's own.
    OwnAnswer,
    /// A header field has a code that the D-Bus Specification doesn't name.
    UnknownField,
}

/// The verdict on a client's message.
#[derive(Clone, Copy, Debug, PartialEq, Eq)]
pub enum Verdict {
    /// It goes to the bus.
    Pass,
    /// A ping is sent to the bus in its place, and the answer to the ping becomes this answer to the client.
    Ping(Instead, Reason),
    /// Nothing is sent to the bus.
    Drop(Reason),
}

/// What the client is shown of a bus message. The numbers are serials of the client.
#[derive(Clone, Copy, Debug, PartialEq, Eq)]
pub enum Showing {
    /// The message, unchanged.
    Whole,
    /// The message, as the reply to the client's call with this serial.
    Reply(u32),
    /// The message, as the reply to the client's call with this serial, with the hidden names removed from its list.
    Cut(u32),
    /// An answer in place of the message, in the byte order of the refused call and to its serial.
    Instead {
        order: Order,
        reply: u32,
        what: Instead,
    },
    /// Nothing.
    Hide(Reason),
}

/// The decision on a message.
#[derive(Clone, Copy, Debug, PartialEq, Eq)]
pub enum Decision {
    Judged(Verdict),
    Shown(Showing),
}

/// What is wrong with the stream of a side.
#[derive(Clone, Copy, Debug, PartialEq, Eq, Error)]
pub enum Fault {
    /// An invalid line (D-Bus Specification, "Authentication Protocol").
    #[error("line: {0}")]
    Line(LineFault),
    /// A message that isn't valid (D-Bus Specification, "Message Format").
    #[error("message: {0}")]
    Message(Malformed),
}

/// Why a session ended.
#[derive(Clone, Copy, Debug, PartialEq, Eq, Error)]
pub enum End {
    /// The client's stream is malformed.
    #[error("the client's stream is malformed: {0}")]
    ClientMalformed(Fault),
    /// The bus's stream is malformed.
    #[error("the bus's stream is malformed: {0}")]
    BusMalformed(Fault),
    /// The client's stream ended.
    #[error("the client's stream ended")]
    ClientEnd,
    /// The bus's stream ended.
    #[error("the bus's stream ended")]
    BusEnd,
    /// No serial is left for a message that must be sent.
    #[error("all serials were given")]
    SerialsSpent,
    /// Memory was refused.
    #[error("out of memory")]
    Memory,
    /// The client's link could not be read.
    #[error("the client's link could not be read")]
    ClientRead,
    /// The client's link could not be written.
    #[error("the client's link could not be written")]
    ClientWrite,
    /// The bus's link could not be read.
    #[error("the bus's link could not be read")]
    BusRead,
    /// The bus's link could not be written.
    #[error("the bus's link could not be written")]
    BusWrite,
    /// The bus could not be connected.
    #[error("the bus could not be connected")]
    BusConnect,
    /// The log could not be written.
    #[error("the log could not be written")]
    LogFault,
}

/// With more events, what either side was given stays, and only more follows it. The same holds of the history's items,
/// the notes, and the visible elements.
pub fn bytes_only_grow()
    ensures { (policy : Policy) (mode : SessionMode) (more events : List Event) → OnlyGrows policy mode more events }
{}

/// The closing of events is the End of their history, with the number of the first event after which the history has
/// it.
pub fn histories_close_once()
    ensures { (policy : Policy) (mode : SessionMode) (events : List Event) → ClosesFirst policy mode events }
{}

/// If a session filters messages, it makes no difference whether a stream is taken in one piece or in two, in lines or
/// in messages, whatever comes before and after: the history is the same, and so are the bytes for either side and the
/// End.
pub fn cuts_change_nothing()
    ensures { (policy : Policy) (mode : SessionMode) (later earlier : List Event) (side : StreamSide) (first second : List ℕ) → IsTrue mode.filter → history policy mode (later ++ Bytes side second ∷ Bytes side first ∷ earlier) ≡ history policy mode (later ++ Bytes side (first ++ second) ∷ earlier) }
{}

/// With or without a filter, it makes no difference to what either side is given, to the notes and to the End whether a
/// stream is taken in one piece or in two, whatever comes before and after. Without a filter, the two histories differ
/// only in how the raw bytes are cut.
pub fn cuts_change_no_bytes()
    ensures { (policy : Policy) (mode : SessionMode) (later earlier : List Event) (side : StreamSide) (first second : List ℕ) → GivesTheSame policy (history policy mode (later ++ Bytes side (first ++ second) ∷ earlier)) (history policy mode (later ++ Bytes side second ∷ Bytes side first ∷ earlier)) }
{}

/// A session that doesn't filter passes everything. After each event, up to and including the one that ends it, the bus
/// has the client's lines, each as the bus must get it, and all bytes after them unchanged; the client has the bus's
/// lines and all bytes after them, unchanged. Without lines, each side has the other's stream, which is what was
/// received up to its limit: no byte is lost, added or changed. With lines, nothing is lost between them and the bytes
/// after them. The proxy sends nothing of its own, and makes no notes. The session goes on with each piece that leaves
/// its side's lines without a fault and for which its stream has room, whatever bytes follow the lines.
pub fn an_unfiltered_session_passes_all()
    ensures at_start { (policy : Policy) (mode : SessionMode) → mode.filter ≡ false → PassesAll policy mode [] }
    ensures with_each_event { (policy : Policy) (mode : SessionMode) (event : Event) (events : List Event) → mode.filter ≡ false → end_of (history policy mode events) ≡ None → PassesAll policy mode (event ∷ events) }
    ensures goes_on { (policy : Policy) (mode : SessionMode) (side : StreamSide) (piece : List ℕ) (events : List Event) → mode.filter ≡ false → end_of (history policy mode events) ≡ None → line_fault mode side (Bytes side piece ∷ events) ≡ None → is_over side events piece ≡ false → end_of (history policy mode (Bytes side piece ∷ events)) ≡ None }
{}

/// Pasts with the same facts, the same sent messages and the same owed replies lead to the same decisions. Each message
/// of the client gets the same verdict and causes the same messages. Each message of the bus that answers the same call
/// is shown in the same way and causes the same messages.
pub fn decisions_rest_on_what_is_known()
    ensures { (policy : Policy) (one other : Past) → KnowTheSame one other → DecideTheSame policy one other }
{}

/// What the policy hides from the client changes nothing. If the visible parts of the histories of two sessions that
/// filter messages are equal, these sessions sent the bus the same messages, showed the client the same messages, gave
/// both sides the same bytes, had the same End and know the same, whatever was hidden in either.
pub fn what_is_hidden_changes_nothing()
    ensures { (policy : Policy) (one_mode other_mode : SessionMode) (one other : List Event) → HiddenChangesNothing policy one_mode other_mode one other }
{}

/// If the events bring bytes, the whole visible part of their history follows from its elements, with messages as
/// frames, and from its End.
pub fn elements_tell_the_part()
    ensures { (policy : Policy) (mode : SessionMode) (events : List Event) → AllByRecursion BringsBytes events → TellThePart policy (history policy mode events) }
{}

/// If the events bring bytes, the visible parts of two histories are equal if their given elements and their Ends are.
/// Otherwise they first differ where these first differ.
pub fn parts_differ_as_given()
    ensures { (policy : Policy) (one_mode other_mode : SessionMode) (one other : List Event) → AllByRecursion BringsBytes one → AllByRecursion BringsBytes other → DifferAsGiven policy (history policy one_mode one) (history policy other_mode other) }
{}
