//! The request that a note's message makes of a well-known name.
ghost use Rattle.std.specs.Prelude.{◌≡◌, ◌++◌, IfOk, IfSome, OnOk, Option, Some as Just, option_map, string_bytes, true};
ghost use Rattle.dbus_header.specs.Read.{message_seen};
ghost use Rattle.dbus_header.specs.Seen.{text_seen};
ghost use Rattle.dbus_names.specs.Texts.{Text};
ghost use Rattle.policy_args.specs.declared.requests.Asked.TheVariants.{Call};
ghost use Rattle.policy_suggest.specs.AskedBy.{asked_as, asked_by, is_peer as is_name_of_peer, of_peer};
ghost use Rattle.policy_suggest.specs.Needs.{need_word};
ghost use Rattle.policy_suggest.specs.Read.{asked_in, asked_of_wanted, is_own_interface, wanted_of};
ghost use Rattle.policy_suggest.specs.Seen.{request_seen, target_seen};
ghost use Rattle.policy_suggest.specs.Suggest.{is_asked, of_method};
ghost use Rattle.policy_view.specs.Verdicts.{demand_of, role_of_bus_call, role_of_call, role_of_signal, text_or_empty};

use crate::targets::Target;
use crate::words::{push_call_word, push_name_word};
use dbus_header::{METHOD_CALL, Message, Places, SIGNAL};
use dbus_names::{Name, is_bus, is_well_known};
use policy_args::Asked;
use policy_view::{Note, Side};
use std::alloc::{AllocError, Global};

/// A request, of which no text is copied.
#[derive(Clone, Copy)]
pub(crate) enum Request<'a> {
    Call {
        name: &'a str,
        path: &'a str,
        interface: Option<&'a str>,
        member: &'a str,
    },
    Signal(&'a str),
    Own(&'a str),
    Owner(&'a str),
}

// What a call of the bus wants of the name that is its first argument.
#[derive(Clone, Copy)]
enum Wanted {
    Owner,
    Signal,
    Own,
}

/// The request that a message of the client makes of a well-known name other than the bus's own, whatever was decided
/// on it: a call or a signal to the name, or a call of the bus that starts it, owns it or asks for its owner. It is
/// None for each other message, and for one of the bus.
pub fn asked(alloc: Global, note: &Note) -> Result<Option<Asked>, AllocError>
    ensures exact { IfOk result (λ asked. asked ≡ asked_by note.now) }
    ensures grammar { IfOk result (λ asked. IfSome asked (λ a. is_asked a ≡ true)) }
{
    let mut places = Places::none();
    match request_of(note, &mut places) {
        Some(request) => Ok(Some(request.to_asked(alloc)?)),
        None => Ok(None),
    }
}

// The request in a note's message. The places of its header's parts are put into `places`.
pub(crate) fn request_of<'a>(note: &'a Note, places: &'a mut Places) -> Option<Request<'a>>
    ensures exact { option_map request_seen result ≡ asked_by note.now }
    ensures grammar { IfSome result (λ request. is_asked (request_seen request) ≡ true) }
{
    match note.side() {
        Side::Client => {
            let message = note.message(places);
            by_message(&message, message.first_text())
        }
        Side::Bus => None,
    }
}

// By what is read of the message, and the first text of its body.
fn by_message<'a>(message: &Message<'a>, first: Option<&'a str>) -> Option<Request<'a>>
    ensures { option_map request_seen result ≡ asked_in (message_seen message.now) (text_seen first.entry) }
{
    match message.kind {
        METHOD_CALL => by_call(message, first),
        SIGNAL => by_signal(message),
        _ => None,
    }
}

fn by_call<'a>(message: &Message<'a>, first: Option<&'a str>) -> Option<Request<'a>>
    ensures { option_map request_seen result ≡ asked_as (role_of_call ((message_seen message.now).parts.destination) ((message_seen message.now).parts.interface)) (text_or_empty ((message_seen message.now).parts.path)) ((message_seen message.now).parts.interface) (text_or_empty ((message_seen message.now).parts.member)) (text_seen first.entry) }
{
    match message.destination() {
        Some(name) if !is_bus(name) => by_call_to(name, message),
        _ => by_call_of_bus(message, first),
    }
}

fn by_call_of_bus<'a>(message: &Message<'a>, first: Option<&'a str>) -> Option<Request<'a>>
    ensures { option_map request_seen result ≡ asked_as (role_of_bus_call ((message_seen message.now).parts.interface)) (text_or_empty ((message_seen message.now).parts.path)) ((message_seen message.now).parts.interface) (text_or_empty ((message_seen message.now).parts.member)) (text_seen first.entry) }
{
    if !is_of_bus(message.interface()) {
        return None;
    }
    by_bus_call(message.member().unwrap_or(""), first)
}

// Whether a call of the bus is one of its own members.
fn is_of_bus(interface: Option<&str>) -> bool
    ensures { result ≡ is_own_interface (text_seen interface.entry) }
{
    match interface {
        Some(interface) => is_bus(interface),
        None => true,
    }
}

fn by_call_to<'a>(name: &'a str, message: &Message<'a>) -> Option<Request<'a>>
    ensures { option_map request_seen result ≡ of_peer name.entry.now (Call name.entry.now (text_or_empty ((message_seen message.now).parts.path)) ((message_seen message.now).parts.interface) (text_or_empty ((message_seen message.now).parts.member))) }
{
    if !is_peer(name) {
        return None;
    }
    Some(Request::Call {
        name,
        path: message.path().unwrap_or(""),
        interface: message.interface(),
        member: message.member().unwrap_or(""),
    })
}

fn by_signal<'a>(message: &Message<'a>) -> Option<Request<'a>>
    ensures { (path : Text) (interface : Option Text) (member : Text) (first : Option Text) → option_map request_seen result ≡ asked_as (role_of_signal ((message_seen message.now).parts.destination)) path interface member first }
{
    match message.destination() {
        Some(name) if is_peer(name) => Some(Request::Signal(name)),
        _ => None,
    }
}

// By the member of the bus that is called, and its first argument.
fn by_bus_call<'a>(member: &str, first: Option<&'a str>) -> Option<Request<'a>>
    ensures { option_map request_seen result ≡ asked_of_wanted (wanted_of (demand_of member.now)) (text_seen first.entry) }
{
    match (wanted_by(member), first) {
        (Some(wanted), Some(name)) if is_peer(name) => Some(match wanted {
            Wanted::Owner => Request::Owner(name),
            Wanted::Signal => Request::Signal(name),
            Wanted::Own => Request::Own(name),
        }),
        _ => None,
    }
}

// What a member of the bus wants of its first argument, if that is a name (D-Bus Specification, "Message Bus
// Messages").
#[tactic(auto, unfolding(policy_view::specs::Verdicts::demand_of))]
fn wanted_by(member: &str) -> Option<Wanted>
    ensures { result ≡ wanted_of (demand_of member.now) }
{
    match member {
        "GetNameOwner"
        | "GetConnectionUnixUser"
        | "GetConnectionUnixProcessID"
        | "GetConnectionCredentials"
        | "GetAdtAuditSessionData"
        | "GetConnectionSELinuxSecurityContext"
        | "NameHasOwner" => Some(Wanted::Owner),
        "StartServiceByName" => Some(Wanted::Signal),
        "RequestName" | "ReleaseName" | "ListQueuedOwners" => Some(Wanted::Own),
        _ => None,
    }
}

// Whether a name is a well-known one other than the bus's own.
fn is_peer(name: &str) -> bool
    ensures { result ≡ is_name_of_peer name.now }
{
    is_well_known(name.as_bytes()) && !is_bus(name)
}

// The text as a name that is kept.
fn name_of(alloc: Global, text: &str) -> Result<Name, AllocError>
    ensures { IfOk result (λ name. name ≡ text.now) }
{
    Ok(Name::new(String::from_str(alloc, text)?))
}

// What the entry for a call is for, if it stands alone.
fn target_of_call<'a>(
    name: &'a str,
    path: &'a str,
    interface: Option<&'a str>,
    member: &'a str,
) -> Target<'a>
    ensures { target_seen result ≡ of_method name.entry.now path.entry.now (text_seen interface.entry) member.entry.now }
{
    match interface {
        Some(interface) => Target {
            name,
            path,
            interface,
            member,
        },
        None => Target::of_path(name, path),
    }
}

impl<'a> Request<'a> {
    // A request that a client's message can make.
    pub(crate) fn of(asked: &'a Asked) -> Option<Request<'a>>
        ensures { is_asked asked.entry.now ≡ true → option_map request_seen result ≡ Just asked.entry.now }
    {
        match asked {
            Asked::Call {
                name,
                path,
                interface,
                member,
            } => Some(Request::Call {
                name: name.as_str(),
                path: path.as_str(),
                interface: match interface {
                    Some(interface) => Some(interface.as_str()),
                    None => None,
                },
                member: member.as_str(),
            }),
            Asked::Signal(name) => Some(Request::Signal(name.as_str())),
            Asked::Own(name) => Some(Request::Own(name.as_str())),
            Asked::Owner(name) => Some(Request::Owner(name.as_str())),
            _ => None,
        }
    }

    // The same request, with texts of its own.
    pub(crate) fn to_asked(self, alloc: Global) -> Result<Asked, AllocError>
        ensures { IfOk result (λ asked. asked ≡ request_seen self.entry) }
    {
        match self {
            Request::Call {
                name,
                path,
                interface,
                member,
            } => Ok(Asked::Call {
                name: name_of(alloc, name)?,
                path: name_of(alloc, path)?,
                interface: match interface {
                    Some(interface) => Some(name_of(alloc, interface)?),
                    None => None,
                },
                member: name_of(alloc, member)?,
            }),
            Request::Signal(name) => Ok(Asked::Signal(name_of(alloc, name)?)),
            Request::Own(name) => Ok(Asked::Own(name_of(alloc, name)?)),
            Request::Owner(name) => Ok(Asked::Owner(name_of(alloc, name)?)),
        }
    }

    // Puts the word of the entry that the request needs, if it stands alone, after a text.
    pub(crate) fn push_word(self, text: &mut String) -> Result<(), AllocError>
        ensures { OnOk result (string_bytes text.new ≡ string_bytes text.old ++ need_word (request_seen self.entry)) }
    {
        match self {
            Request::Call {
                name,
                path,
                interface,
                member,
            } => push_call_word(text, target_of_call(name, path, interface, member)),
            Request::Signal(name) => push_name_word(text, "--talk=", name),
            Request::Own(name) => push_name_word(text, "--own=", name),
            Request::Owner(name) => push_name_word(text, "--see=", name),
        }
    }
}
