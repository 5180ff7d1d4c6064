//! A rule of properties, and which requests it matches.
ghost use Rattle.std.specs.Prelude.{◌≡◌, Some, None, IfOk, IfErr, IsSome, option_map};
ghost use Rattle.call_rules.specs.Properties.{property_matches, property_rule_of};

use crate::BadRule;
use crate::parts::parts_of;
use crate::rule::{Rule, is_of, is_of_path};
use std::alloc::Global;
use std::marker::Model;

/// A rule of properties, `INTERFACE.PROPERTY[@PATH]`: which properties may be read and set by calls of
/// `org.freedesktop.DBus.Properties` (D-Bus Specification, section of that name). xdg-dbus-proxy(1) has no such rule.
///
/// Like a `Rule`, it keeps its text, and reading its parts allocates nothing.
#[derive(Drop)]
pub struct PropertyRule {
    rule: Rule,
}

impl Model for PropertyRule {
    ghost use Rattle.std.specs.Prelude.{◌≡◌, Some, unwrap_or, [], is_some, true};
    ghost use Rattle.call_rules.specs.Properties.{PropertyRule as PropertyRuleValue};
    ghost use Rattle.call_rules.specs.Rules.{rule_of};

    ghost Value = { PropertyRuleValue };

    ghost view = { λ r. record { text = r.rule.text; interface = unwrap_or r.rule.interface []; property = r.rule.member; path = r.rule.path; below = r.rule.below } };

    ghost invariant = { λ r. (is_some r.rule.interface ≡ true) × (rule_of r.rule.text ≡ Some r.rule) };
}

impl PropertyRule {
    /// Reads the rule in a text. The error is `Form` if the text isn't a rule, and `Memory` if there is no memory for
    /// it.
    ///
    /// The text is cut at its last dot before the `@`: before the dot is an interface, and after it a property's name,
    /// in the grammar of a member, or `*` for any property. PATH is that of a `Rule`.
    pub fn read(alloc: Global, text: &str) -> Result<PropertyRule, BadRule>
        ensures ok { IfOk result (λ rule. property_rule_of text.now ≡ Some rule) }
        ensures form { IfErr result (λ error. error ≡ BadRule.Form → property_rule_of text.now ≡ None) }
        ensures memory { IfErr result (λ error. error ≡ BadRule.Memory → IsSome (property_rule_of text.now)) }
    {
        match parts_of(text) {
            Some(parts) if parts.interface.is_some() => {
                let rule = Rule::keep(alloc, text, parts)?;
                Ok(PropertyRule { rule })
            }
            _ => Err(BadRule::Form),
        }
    }

    /// Whether the rule matches a request for the property of an interface at the path, or for all properties of the
    /// interface if no property is given. Only a rule for any property matches a request for all.
    pub fn matches(&self, path: &str, interface: &str, property: Option<&str>) -> bool
        ensures { result ≡ property_matches self.now path.now interface.now (option_map (λ p. p.now) property.entry) }
    {
        is_of_path(self.path(), self.is_below(), path)
            && self.interface() == interface
            && is_of(self.property(), property)
    }

    /// The text from which the rule was read. Only this text gives this rule.
    pub fn text(&self) -> &str
        ensures text { result.now ≡ self.now.text }
        ensures read { property_rule_of result.now ≡ Some self.now }
    {
        self.rule.text()
    }

    /// The interface.
    pub fn interface(&self) -> &str
        ensures { result.now ≡ self.now.interface }
    {
        self.rule.interface().unwrap_or("")
    }

    /// The property, or `None` for any.
    pub fn property(&self) -> Option<&str>
        ensures { option_map (λ part. part.now) result ≡ self.now.property }
    {
        self.rule.member()
    }

    /// The path, or `None` for any.
    pub fn path(&self) -> Option<&str>
        ensures { option_map (λ part. part.now) result ≡ self.now.path }
    {
        self.rule.path()
    }

    /// Whether the rule also holds for all paths below its path.
    pub fn is_below(&self) -> bool
        ensures { result ≡ self.now.below }
    {
        self.rule.is_below()
    }
}
