//! A rule, and what it matches.
ghost use Rattle.std.specs.Prelude.{◌≡◌, Some, None, IfOk, IfErr, IfSome, IsSome, option_map};
ghost use Rattle.call_rules.specs.Parts.{IsCut, IsRead, part_in, rule_in};
ghost use Rattle.call_rules.specs.Rules.{matches, part_matches, path_matches, rule_of};

use crate::BadRule;
use crate::parts::{Part, Parts, parts_of};
use std::alloc::{AllocError, Global};
use std::marker::Model;

/// A rule of calls or broadcasts, `[METHOD][@PATH]` (xdg-dbus-proxy(1), `--call`).
///
/// It keeps its text and the places of the parts in it, so reading the parts allocates nothing.
#[derive(Drop)]
pub struct Rule {
    text: String,
    parts: Parts,
}

impl Model for Rule {
    ghost use Rattle.std.specs.Prelude.{string_bytes};
    ghost use Rattle.call_rules.specs.Parts.{IsRead, rule_in};
    ghost use Rattle.call_rules.specs.Rules.{Rule as RuleValue};

    ghost Value = { RuleValue };

    ghost view = { λ r. rule_in (string_bytes r.text) r.parts };

    ghost invariant = { λ r. IsRead (string_bytes r.text) r.parts };
}

impl Rule {
    /// Reads the rule in a text. The error is `Form` if the text isn't a rule, and `Memory` if there is no memory for
    /// it.
    ///
    /// METHOD is empty or `*` for any member of any interface, or else `INTERFACE.MEMBER` or, for any member,
    /// `INTERFACE.*`: it is cut at its last dot. PATH is an object path, or `/*` for all paths, or a path other than
    /// `/` followed by `/*` for that path and all below it. An `@` is followed by a PATH (xdg-dbus-proxy(1), `--call`;
    /// D-Bus Specification, "Message Protocol", "Valid Names").
    pub fn read(alloc: Global, text: &str) -> Result<Rule, BadRule>
        ensures ok { IfOk result (λ rule. rule_of text.now ≡ Some rule) }
        ensures form { IfErr result (λ error. error ≡ BadRule.Form → rule_of text.now ≡ None) }
        ensures memory { IfErr result (λ error. error ≡ BadRule.Memory → IsSome (rule_of text.now)) }
    {
        match parts_of(text) {
            Some(parts) => Ok(Rule::keep(alloc, text, parts)?),
            None => Err(BadRule::Form),
        }
    }

    // The rule with this text and these parts of it.
    pub(crate) fn keep(alloc: Global, text: &str, parts: Parts) -> Result<Rule, AllocError>
        requires { IsRead text.now parts }
        ensures { IfOk result (λ rule. rule ≡ rule_in text.now parts) }
    {
        let text = String::from_str(alloc, text)?;
        Ok(Rule { text, parts })
    }

    /// Whether the rule matches a call of the member, or a signal of that name, at the path.
    ///
    /// Each part that the rule names must be the given one, so a rule that names an interface doesn't match a call
    /// without one (xdg-dbus-proxy(1), "Filtering").
    pub fn matches(&self, path: &str, interface: Option<&str>, member: &str) -> bool
        ensures { result ≡ matches self.now path.now (option_map (λ i. i.now) interface.entry) member.now }
    {
        is_of_path(self.path(), self.is_below(), path)
            && is_of(self.interface(), interface)
            && is_of(self.member(), Some(member))
    }

    /// The text from which the rule was read. Only this text gives this rule.
    pub fn text(&self) -> &str
        ensures text { result.now ≡ self.now.text }
        ensures read { rule_of result.now ≡ Some self.now }
    {
        &self.text
    }

    /// The interface, or `None` for any.
    pub fn interface(&self) -> Option<&str>
        ensures { option_map (λ part. part.now) result ≡ self.now.interface }
    {
        cut(&self.text, self.parts.interface)
    }

    /// The member, or `None` for any.
    pub fn member(&self) -> Option<&str>
        ensures { option_map (λ part. part.now) result ≡ self.now.member }
    {
        cut(&self.text, self.parts.member)
    }

    /// The path, or `None` for any.
    pub fn path(&self) -> Option<&str>
        ensures { option_map (λ part. part.now) result ≡ self.now.path }
    {
        cut(&self.text, self.parts.path)
    }

    /// Whether the rule also holds for all paths below its path.
    pub fn is_below(&self) -> bool
        ensures { result ≡ self.now.below }
    {
        self.parts.below
    }
}

// The text of a part.
fn cut(text: &str, part: Option<Part>) -> Option<&str>
    requires { IfSome part (λ part. IsCut text.now part) }
    ensures { option_map (λ found. found.now) result ≡ option_map (part_in text.now) part }
{
    match part {
        Some(part) => Some(&text[part.start..part.end]),
        None => None,
    }
}

// Whether a given part matches a rule's part.
pub(crate) fn is_of(part: Option<&str>, given: Option<&str>) -> bool
    ensures { result ≡ part_matches (option_map (λ p. p.now) part.entry) (option_map (λ g. g.now) given.entry) }
{
    match (part, given) {
        (None, _) => true,
        (Some(part), Some(given)) => part == given,
        (Some(_), None) => false,
    }
}

// Whether a given path matches a rule's path.
pub(crate) fn is_of_path(path: Option<&str>, below: bool, given: &str) -> bool
    ensures { result ≡ path_matches (option_map (λ p. p.now) path.entry) below given.now }
{
    match path {
        Some(path) => is_in_tree(path.as_bytes(), below, given.as_bytes()),
        None => true,
    }
}

// Whether the given path is this one or, if those below are meant, is below it.
fn is_in_tree(path: &[u8], below: bool, given: &[u8]) -> bool
    ensures { result ≡ path_matches (Some path.now) below given.now }
{
    if !given.starts_with(path) {
        return false;
    }
    match &given[path.len()..] {
        [] => true,
        [next, ..] => below && *next == b'/',
    }
}
