//! An element that no entry of a policy names.
ghost use Rattle.std.specs.Prelude.{◌≡◌, ◌<◌, [], Some as Just, fold, option_map, IfOk, OnOk, true, string_bytes};
ghost use Rattle.dbus_names.specs.Names.{parts_at};
ghost use Rattle.policy_within.specs.Apart.{are_rooted, has_rooted, is_rooted};
ghost use Rattle.policy_within.specs.Elements.{IsFirstFree, elements, entry_elements, fresh, parts_in, rule_elements, z_word as word_of_number};
ghost use Rattle.policy_within.specs.Steps.{with_text, with_z};

use call_rules::{PropertyRule, Rule};
use indexmap::IndexSet;
use policy_args::{Entry, Grant, Policy};
use std::alloc::{AllocError, Global};
use std::marker::Model;

// Elements that begin with `z`, each once.
#[derive(Drop)]
struct ZWords {
    words: IndexSet<String>,
}

impl Model for ZWords {
    ghost use Rattle.std.specs.Prelude.{List, map, string_bytes};
    ghost use Rattle.dbus_names.specs.Texts.{Text};

    ghost Value = { List Text };

    ghost view = { λ z. map (λ k. string_bytes k) z.words.keys };
}

impl ZWords {
    fn new(alloc: Global) -> ZWords
        ensures { result ≡ [] }
    {
        ZWords {
            words: IndexSet::new(alloc),
        }
    }

    // Adds the elements of an entry.
    fn add_entry(&mut self, alloc: Global, entry: &Entry) -> Result<(), AllocError>
        ensures words { OnOk result (self.new ≡ fold with_z self.old (entry_elements entry.now)) }
        ensures rooted { OnOk result (has_rooted entry.now.grant ≡ true) }
    {
        self.add_parts(alloc, entry.pattern.name(), '.')?;
        match &entry.grant {
            Grant::See | Grant::Talk | Grant::Own => Ok(()),
            Grant::Call(rule) | Grant::Broadcast(rule) => self.add_rule(alloc, rule),
            Grant::Property(rule) => self.add_property_rule(alloc, rule),
        }
    }

    // Adds the elements of a rule of calls or broadcasts.
    fn add_rule(&mut self, alloc: Global, rule: &Rule) -> Result<(), AllocError>
        ensures words { OnOk result (self.new ≡ fold with_z self.old (rule_elements rule.now.interface rule.now.member rule.now.path)) }
        ensures rooted { OnOk result (is_rooted rule.now.path ≡ true) }
    {
        // Its text is in the grammar, so its path isn't empty.
        let _text = rule.text();
        self.add_part(alloc, rule.interface(), '.')?;
        self.add_part(alloc, rule.member(), '.')?;
        self.add_part(alloc, rule.path(), '/')
    }

    // Adds the elements of a rule of properties.
    fn add_property_rule(&mut self, alloc: Global, rule: &PropertyRule) -> Result<(), AllocError>
        ensures words { OnOk result (self.new ≡ fold with_z self.old (rule_elements (Just rule.now.interface) rule.now.property rule.now.path)) }
        ensures rooted { OnOk result (is_rooted rule.now.path ≡ true) }
    {
        let _text = rule.text();
        self.add_parts(alloc, rule.interface(), '.')?;
        self.add_part(alloc, rule.property(), '.')?;
        self.add_part(alloc, rule.path(), '/')
    }

    // Adds the elements of a part, if there is one.
    fn add_part(
        &mut self,
        alloc: Global,
        part: Option<&str>,
        separator: char,
    ) -> Result<(), AllocError>
        requires { separator < 128 }
        ensures { OnOk result (self.new ≡ fold with_z self.old (parts_in separator (option_map (λ t. t.now) part.entry))) }
    {
        match part {
            Some(text) => self.add_parts(alloc, text, separator),
            None => Ok(()),
        }
    }

    // Adds the elements that are joined by a separator.
    fn add_parts(&mut self, alloc: Global, text: &str, separator: char) -> Result<(), AllocError>
        requires { separator < 128 }
        ensures { OnOk result (self.new ≡ fold with_z self.old (parts_at separator text.now)) }
    {
        for element in text.split(separator) {
            self.add(alloc, element)?;
        }
        Ok(())
    }

    // Adds an element, if it begins with `z`.
    fn add(&mut self, alloc: Global, element: &str) -> Result<(), AllocError>
        ensures { OnOk result (self.new ≡ with_z self.old element.now) }
    {
        if element.as_bytes().starts_with(b"z") {
            self.words.insert(String::from_str(alloc, element)?)?;
        }
        Ok(())
    }

    // The first of `z0`, `z1` .. that isn't there.
    fn first_free(&self, alloc: Global) -> Result<String, AllocError>
        ensures { IfOk result (λ word. IsFirstFree self.now (string_bytes word)) }
    {
        let count = self.words.len();
        for number in 0..count {
            let word = z_word(alloc, number)?;
            if !self.words.contains(word.as_str()) {
                return Ok(word);
            }
        }
        z_word(alloc, count)
    }
}

fn z_word(alloc: Global, number: usize) -> Result<String, AllocError>
    ensures { IfOk result (λ word. string_bytes word ≡ word_of_number number) }
{
    Ok(format!(in alloc; "z{number}")?)
}

/// The first of `z0`, `z1` .. that isn't an element of a name, an interface, a member, a property or a path of the
/// policy's entries.
pub(crate) fn fresh_element(alloc: Global, policy: &Policy) -> Result<String, AllocError>
    ensures fresh { IfOk result (λ word. string_bytes word ≡ fresh policy.now.entries) }
    ensures free { OnOk result (IsFirstFree (elements policy.now.entries) (fresh policy.now.entries)) }
    ensures rooted { OnOk result (are_rooted policy.now.entries ≡ true) }
{
    let mut taken = ZWords::new(alloc);
    for index in 0..policy.len() {
        taken.add_entry(alloc, policy.entry(index + 1))?;
    }
    taken.first_free(alloc)
}
