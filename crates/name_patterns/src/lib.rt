//! Patterns of bus names: one well-known name, or a name with all names below it.
//!
//! A pattern is what the option of a policy entry names, as in `--talk=NAME`, where NAME "can also have a wildcard
//! suffix .*" (xdg-dbus-proxy(1), "Filtering"). An index finds the patterns that cover a name without a pass over all.
#![tactic(auto)]

ghost use Rattle.std.specs.Prelude.{◌≡◌, ◌≤◌, true, None, Some, IfOk, IfErr, IsSome, option_map, codes, length};
ghost use Rattle.std.specs.List.{list_all};
ghost use Rattle.dbus_names.specs.Names.{are_joined, is_bus_byte as is_byte_of_name, is_bus_element};
ghost use Rattle.dbus_names.specs.Texts.{behind as behind_front};
ghost use Rattle.name_patterns.specs.Cuts.{before_end, rest_covered};
ghost use Rattle.name_patterns.specs.Patterns.{covers as pattern_covers, is_pattern, is_subtree_name as is_name_of_subtree, pattern_of};
ghost use Rattle.name_patterns.specs.declared.BadPattern.TheVariants.{Form, Memory};

mod covering;
mod index;

pub use covering::Covering;
use dbus_names::is_well_known;
pub use index::{PatternIndex, Steps};
use std::alloc::{AllocError, Global};
use std::marker::Model;
use thiserror::Error;

/// The maximum length of a name (D-Bus Specification, "Message Protocol", "Valid Names").
const LONGEST_NAME: usize = 255;

/// Why a text wasn't read as a pattern.
#[derive(Clone, Copy, Debug, PartialEq, Eq, Error)]
pub enum BadPattern {
    /// The text is neither a well-known bus name nor `N.*` with a name N.
    #[error("the text is no pattern of bus names")]
    Form,
    /// Memory ran out.
    #[error("out of memory")]
    Memory,
}

impl From<AllocError> for BadPattern {
    ghost use Rattle.name_patterns.specs.declared.BadPattern.TheVariants.{Memory};

    ghost from_gives = { λ _ e. e ≡ Memory };

    fn from(_error: AllocError) -> BadPattern {
        BadPattern::Memory
    }
}

/// A well-known bus name, which covers only itself, or `N.*`, which covers N and each name that begins with N and a dot
/// (xdg-dbus-proxy(1), "Filtering").
///
/// N is one or more elements of a well-known name, joined by dots, in at most 255 bytes (D-Bus Specification, "Message
/// Protocol", "Valid Names").
#[derive(Debug, Drop)]
pub struct Pattern {
    name: String,
    exact: bool,
}

impl Model for Pattern {
    ghost use Rattle.std.specs.Prelude.{◌≡◌, true, string_bytes};
    ghost use Rattle.name_patterns.specs.Patterns.{Pattern as PatternValue, is_pattern};

    ghost Value = { PatternValue };

    ghost view = { λ p. record { name = string_bytes p.name; exact = p.exact } };

    ghost invariant = { λ p. is_pattern (record { name = string_bytes p.name; exact = p.exact }) ≡ true };
}

impl Pattern {
    /// Reads a text as a pattern: a well-known bus name, or `N.*` (xdg-dbus-proxy(1), "Filtering").
    ///
    /// The error is `Form` if it is neither, and `Memory` only if memory for the name runs out.
    pub fn read(alloc: Global, text: &str) -> Result<Pattern, BadPattern>
        ensures ok { IfOk result (λ pattern. pattern_of text.now ≡ Some pattern) }
        ensures form { IfErr result (λ why. why ≡ Form → pattern_of text.now ≡ None) }
        ensures memory { IfErr result (λ why. why ≡ Memory → IsSome (pattern_of text.now)) }
    {
        match subtree_name(text) {
            Some(name) if is_subtree_name(name.as_bytes()) => Ok(Pattern {
                name: String::from_str(alloc, name)?,
                exact: false,
            }),
            None if is_well_known(text.as_bytes()) => Ok(Pattern {
                name: String::from_str(alloc, text)?,
                exact: true,
            }),
            _ => Err(BadPattern::Form),
        }
    }

    /// Whether the pattern covers a name: an exact name covers only itself, and `N.*` covers N and each text that
    /// begins with N and a dot (xdg-dbus-proxy(1), "Filtering").
    pub fn covers(&self, name: &str) -> bool
        ensures { result ≡ pattern_covers self.now name.now }
    {
        match behind(self.name.as_bytes(), name.as_bytes()) {
            Some(rest) => is_covered(self.exact, rest),
            None => false,
        }
    }

    /// The exact name, or the N of `N.*`.
    pub fn name(&self) -> &str
        ensures name { result.now ≡ self.now.name }
        ensures short { length result.now ≤ LONGEST_NAME }
        ensures grammar { is_pattern self.now ≡ true }
    {
        self.name.as_str()
    }

    /// Whether the pattern is one name, and not `N.*`.
    pub fn is_exact(&self) -> bool
        ensures { result ≡ self.now.exact }
    {
        self.exact
    }
}

// What follows a prefix of a text.
fn behind<'a>(front: &[u8], text: &'a [u8]) -> Option<&'a [u8]>
    ensures { option_map (λ rest. rest.now) result ≡ behind_front front.now text.now }
{
    text.strip_prefix(front)
}

// Whether a pattern covers its own name, followed by this.
fn is_covered(exact: bool, rest: &[u8]) -> bool
    ensures { result ≡ rest_covered exact (Some rest.now) }
{
    match rest {
        [] => true,
        [b'.', ..] => !exact,
        _ => false,
    }
}

// The text without a `.*` at its end.
fn subtree_name(text: &str) -> Option<&str>
    ensures { option_map (λ name. name.now) result ≡ before_end (codes ".*") text.now }
{
    text.strip_suffix(".*")
}

// Whether the name is one or more elements of a well-known name, joined by dots, in at most 255 bytes.
fn is_subtree_name(name: &[u8]) -> bool
    ensures { result ≡ is_name_of_subtree name.now }
{
    name.len() <= LONGEST_NAME && are_elements(name)
}

fn are_elements(name: &[u8]) -> bool
    ensures { result ≡ are_joined is_bus_element name.now }
{
    name.split(|byte| *byte == b'.')
        .all(|element| is_element(element))
}

// One or more of `[A-Za-z0-9_-]`, not beginning with a digit.
fn is_element(text: &[u8]) -> bool
    ensures { result ≡ is_bus_element text.now }
{
    match text {
        [first, ..] => !first.is_ascii_digit() && are_bytes_of_name(text),
        [] => false,
    }
}

fn are_bytes_of_name(text: &[u8]) -> bool
    ensures { result ≡ list_all is_byte_of_name text.now }
{
    text.iter().all(|byte| is_byte(*byte))
}

fn is_byte(byte: u8) -> bool
    ensures { result ≡ is_byte_of_name byte }
{
    byte.is_ascii_alphanumeric() || byte == b'_' || byte == b'-'
}
