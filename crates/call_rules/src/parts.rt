//! The places of the parts of a rule in its text.
ghost use Rattle.std.specs.Prelude.{◌≡◌, ◌≤◌, false, take, drop, length, IfSome, IsCharBoundary, MatchOption, option_map, position};
ghost use Rattle.std.specs.List.{list_any};
ghost use Rattle.call_rules.specs.Parts.{CutsMethod, CutsPlace, CutsRule, IsLastDot, joined, method_in, place_in, rule_in};
ghost use Rattle.call_rules.specs.Rules.{is_at, is_dot, method_of, place_of, rule_of};

use dbus_names::{is_interface, is_member, is_path};

// As METHOD: any member of any interface. After an interface and a dot: any of its members.
const ANY: &[u8] = b"*";

// As PATH: any path. After a path: that path and those below it.
const ALL: &[u8] = b"/*";

const ROOT: &[u8] = b"/";

// The place of one part in the text, in bytes: it begins at `start` and ends before `end`.
#[derive(Clone, Copy)]
pub(crate) struct Part {
    pub(crate) start: usize,
    pub(crate) end: usize,
}

// An absent part matches any.
#[derive(Clone, Copy)]
pub(crate) struct Parts {
    pub(crate) interface: Option<Part>,
    pub(crate) member: Option<Part>,
    pub(crate) path: Option<Part>,
    pub(crate) below: bool,
}

#[derive(Clone, Copy)]
struct Method {
    interface: Option<Part>,
    member: Option<Part>,
}

#[derive(Clone, Copy)]
struct Place {
    path: Option<Part>,
    below: bool,
}

// The parts of the rule in the text.
pub(crate) fn parts_of(text: &str) -> Option<Parts>
    ensures value { option_map (rule_in text.now) result ≡ rule_of text.now }
    ensures cuts { IfSome result (λ parts. CutsRule text.now parts) }
{
    match first_at(text) {
        Some(at) => join(method_of(text, at), place_of(text, at + 1)),
        None => {
            let anywhere = Place {
                path: None,
                below: false,
            };
            join(method_of(text, text.len()), Some(anywhere))
        }
    }
}

fn join(method: Option<Method>, place: Option<Place>) -> Option<Parts>
    ensures { result ≡ joined method place }
{
    match (method, place) {
        (Some(method), Some(place)) => Some(Parts {
            interface: method.interface,
            member: method.member,
            path: place.path,
            below: place.below,
        }),
        _ => None,
    }
}

// What METHOD names, which ends before `end`.
fn method_of(text: &str, end: usize) -> Option<Method>
    requires { IsCharBoundary text.now end }
    ensures value { option_map (method_in text.now) result ≡ method_of (take end text.now) }
    ensures cuts { IfSome result (λ method. CutsMethod text.now method) }
{
    let bytes = text.as_bytes();
    let method = &bytes[..end];
    if method.is_empty() || method == ANY {
        return Some(Method {
            interface: None,
            member: None,
        });
    }
    let dot = match last_dot(text, end) {
        Some(dot) => dot,
        None => return None,
    };
    if !is_interface(&bytes[..dot]) {
        return None;
    }
    let interface = Part { start: 0, end: dot };
    let member = &bytes[dot + 1..end];
    if member == ANY {
        return Some(Method {
            interface: Some(interface),
            member: None,
        });
    }
    if !is_member(member) {
        return None;
    }
    Some(Method {
        interface: Some(interface),
        member: Some(Part {
            start: dot + 1,
            end,
        }),
    })
}

// What PATH names, which begins at `start`.
fn place_of(text: &str, start: usize) -> Option<Place>
    requires { IsCharBoundary text.now start }
    ensures value { option_map (place_in text.now) result ≡ place_of (drop start text.now) }
    ensures cuts { IfSome result (λ place. CutsPlace text.now place) }
{
    let place = &text.as_bytes()[start..];
    if place == ALL {
        return Some(Place {
            path: None,
            below: false,
        });
    }
    let below = place.ends_with(ALL);
    let path = if below {
        &place[..place.len() - ALL.len()]
    } else {
        place
    };
    if !is_path(path) || (below && path == ROOT) {
        return None;
    }
    let end = start + path.len();
    Some(Place {
        path: Some(Part { start, end }),
        below,
    })
}

fn first_at(text: &str) -> Option<usize>
    ensures { result ≡ position is_at text.now }
{
    text.as_bytes().iter().position(|byte| *byte == b'@')
}

// The last dot before `end`.
fn last_dot(text: &str, end: usize) -> Option<usize>
    requires { end ≤ length text.now }
    ensures { MatchOption result (list_any is_dot (take end text.now) ≡ false) (λ dot. IsLastDot text.now end dot) }
{
    let method = &text.as_bytes()[..end];
    method.iter().rposition(|byte| *byte == b'.')
}
