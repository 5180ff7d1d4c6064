//! The entries of a policy, and the words that give them.
ghost use Rattle.std.specs.Prelude.{◌≡◌, option_map};
ghost use Rattle.call_rules.specs.Properties.{property_rule_of};
ghost use Rattle.call_rules.specs.Rules.{rule_of};
ghost use Rattle.policy_args.specs.Gives.{StepGives};
ghost use Rattle.policy_args.specs.Policy.{given_by};
ghost use Rattle.policy_args.specs.Requests.{accesses, broadcasts, calls, grant_permits, rule_matches};
ghost use Rattle.policy_args.specs.Steps.{name_and_rule, name_before, rule_behind};
ghost use Rattle.policy_args.specs.Words.{behind as behind_front, entry_of, name_entry, rule_entry};
ghost use Rattle.policy_args.specs.declared.entry.Grant.TheVariants.{Call as to_call, Broadcast as to_broadcast, Property as to_property};

use crate::refusals::WordRefusal;
use crate::requests::Asked;
use crate::{Level, WordKind};
use call_rules::{PropertyRule, Rule};
use dbus_names::Name;
use name_patterns::{BadPattern, Pattern};
use std::alloc::Global;

// The interface whose methods read and set properties (D-Bus Specification, "org.freedesktop.DBus.Properties").
const PROPERTIES: &str = "org.freedesktop.DBus.Properties";

/// What an entry allows with the names that its pattern covers (xdg-dbus-proxy(1), "Options").
#[derive(Drop)]
pub enum Grant {
    /// `--see=NAME`: the names are visible.
    See,
    /// `--talk=NAME`: their methods may be called, and their signals are passed on.
    Talk,
    /// `--own=NAME`: they may also be owned.
    Own,
    /// `--call=NAME=RULE`: they are visible, and what the rule matches may be called.
    Call(Rule),
    /// `--broadcast=NAME=RULE`: they are visible, and those of their broadcasts are passed on that the rule matches.
    Broadcast(Rule),
    /// `--property=NAME=RULE`: they are visible, and the properties that the rule matches may be read and set.
    Property(PropertyRule),
}

impl Grant {
    /// The level that the grant gives by itself: `See` if it has a rule.
    pub fn level(&self) -> Level
        ensures { result ≡ given_by self.now }
    {
        match self {
            Grant::See | Grant::Call(_) | Grant::Broadcast(_) | Grant::Property(_) => Level::See,
            Grant::Talk => Level::Talk,
            Grant::Own => Level::Own,
        }
    }

    /// Whether the grant by itself permits a request of a name that its entry covers.
    pub fn permits(&self, asked: &Asked) -> bool
        ensures { result ≡ grant_permits self.now asked.now }
    {
        self.level().is_at_least(asked.level()) || self.matches(asked)
    }

    // Whether the grant's rule matches a request, or the call by which it is made.
    pub(crate) fn matches(&self, asked: &Asked) -> bool
        ensures { result ≡ rule_matches asked.now self.now }
    {
        match asked {
            Asked::Call {
                path,
                interface,
                member,
                ..
            } => self.calls(path.as_str(), text_of(interface), member.as_str()),
            Asked::Broadcast {
                path,
                interface,
                member,
                ..
            } => self.broadcasts(path.as_str(), interface.as_str(), member.as_str()),
            Asked::Property {
                path,
                interface,
                access,
                ..
            } => {
                self.calls(path.as_str(), Some(PROPERTIES), access.member())
                    || self.accesses(path.as_str(), interface.as_str(), access.property())
            }
            Asked::Signal(_) | Asked::Own(_) | Asked::Owner(_) => false,
        }
    }

    // Whether the grant's rule matches a call.
    fn calls(&self, path: &str, interface: Option<&str>, member: &str) -> bool
        ensures { result ≡ calls path.now (option_map (λ i. i.now) interface.entry) member.now self.now }
    {
        match self {
            Grant::Call(rule) => rule.matches(path, interface, member),
            _ => false,
        }
    }

    // Whether the grant's rule matches a broadcast.
    fn broadcasts(&self, path: &str, interface: &str, member: &str) -> bool
        ensures { result ≡ broadcasts path.now interface.now member.now self.now }
    {
        match self {
            Grant::Broadcast(rule) => rule.matches(path, Some(interface), member),
            _ => false,
        }
    }

    // Whether the grant's rule matches a request of a property, or of all properties of the interface if none is given.
    fn accesses(&self, path: &str, interface: &str, property: Option<&str>) -> bool
        ensures { result ≡ accesses path.now interface.now (option_map (λ p. p.now) property.entry) self.now }
    {
        match self {
            Grant::Property(rule) => rule.matches(path, interface, property),
            _ => false,
        }
    }
}

// The text of a name.
fn text_of(name: &Option<Name>) -> Option<&str>
    ensures { option_map (λ text. text.now) result ≡ name.now }
{
    match name {
        Some(name) => Some(name.as_str()),
        None => None,
    }
}

/// One entry of a policy.
pub struct Entry {
    /// The names to which the entry applies.
    pub pattern: Pattern,
    /// What it allows with them.
    pub grant: Grant,
}

// Its drop is a call, so that a function that drops one is short to prove.
impl Drop for Entry {
    fn drop(self) {
        let Entry {
            pattern: _pattern,
            grant: _grant,
        } = self;
    }
}

// The entry that a word gives.
pub(crate) fn read_entry(alloc: Global, word: &str) -> Result<Entry, WordRefusal>
    ensures { StepGives (λ e. e) result (entry_of word.now) }
{
    if let Some(name) = behind("--see=", word) {
        return of_name(alloc, name, Grant::See);
    }
    if let Some(name) = behind("--talk=", word) {
        return of_name(alloc, name, Grant::Talk);
    }
    if let Some(name) = behind("--own=", word) {
        return of_name(alloc, name, Grant::Own);
    }
    if let Some(text) = behind("--call=", word) {
        return call(alloc, text);
    }
    if let Some(text) = behind("--broadcast=", word) {
        return broadcast(alloc, text);
    }
    if let Some(text) = behind("--property=", word) {
        return property(alloc, text);
    }
    Err(WordRefusal::Bad(WordKind::UnknownOption))
}

// What follows a prefix of a word.
pub(crate) fn behind<'a>(front: &str, word: &'a str) -> Option<&'a str>
    ensures { option_map (λ text. text.now) result ≡ behind_front front.now word.now }
{
    word.strip_prefix(front)
}

// The entry of an option with NAME only.
fn of_name(alloc: Global, name: &str, grant: Grant) -> Result<Entry, WordRefusal>
    ensures { StepGives (λ e. e) result (name_entry grant name.now) }
{
    match Pattern::read(alloc, name) {
        Ok(pattern) => Ok(Entry { pattern, grant }),
        Err(BadPattern::Form) => Err(WordRefusal::Bad(WordKind::BadName)),
        Err(BadPattern::Memory) => Err(WordRefusal::Memory),
    }
}

// The entry of `--call=`, from what follows.
fn call(alloc: Global, text: &str) -> Result<Entry, WordRefusal>
    ensures { StepGives (λ e. e) result (rule_entry rule_of to_call text.now) }
{
    let (pattern, text) = match split(alloc, text) {
        Ok(parts) => parts,
        Err(refusal) => return Err(refusal),
    };
    let grant = Grant::Call(Rule::read(alloc, text)?);
    Ok(Entry { pattern, grant })
}

// The entry of `--broadcast=`, from what follows.
fn broadcast(alloc: Global, text: &str) -> Result<Entry, WordRefusal>
    ensures { StepGives (λ e. e) result (rule_entry rule_of to_broadcast text.now) }
{
    let (pattern, text) = match split(alloc, text) {
        Ok(parts) => parts,
        Err(refusal) => return Err(refusal),
    };
    let grant = Grant::Broadcast(Rule::read(alloc, text)?);
    Ok(Entry { pattern, grant })
}

// The entry of `--property=`, from what follows.
fn property(alloc: Global, text: &str) -> Result<Entry, WordRefusal>
    ensures { StepGives (λ e. e) result (rule_entry property_rule_of to_property text.now) }
{
    let (pattern, text) = match split(alloc, text) {
        Ok(parts) => parts,
        Err(refusal) => return Err(refusal),
    };
    let grant = Grant::Property(PropertyRule::read(alloc, text)?);
    Ok(Entry { pattern, grant })
}

// NAME, and the text of RULE. A bad NAME is reported whatever follows it.
fn split(alloc: Global, text: &str) -> Result<(Pattern, &str), WordRefusal>
    ensures { StepGives (λ p. (p.0, p.1.now)) result (name_and_rule text.now) }
{
    let (name, rule) = cut(text);
    let pattern = match Pattern::read(alloc, name) {
        Ok(pattern) => pattern,
        Err(BadPattern::Form) => return Err(WordRefusal::Bad(WordKind::BadName)),
        Err(BadPattern::Memory) => return Err(WordRefusal::Memory),
    };
    match rule {
        Some(rule) => Ok((pattern, rule)),
        None => Err(WordRefusal::Bad(WordKind::BadRule)),
    }
}

// The text before the first `=`, and the text after it.
fn cut(text: &str) -> (&str, Option<&str>)
    ensures name { result.0.now ≡ name_before text.now }
    ensures rule { option_map (λ rule. rule.now) result.1 ≡ rule_behind text.now }
{
    match text.split_once('=') {
        Some((name, rule)) => (name, Some(rule)),
        None => (text, None),
    }
}
