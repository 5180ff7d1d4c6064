//! What is known of the names in requests.
ghost use Rattle.std.specs.Prelude.{◌≡◌, ◌++◌, [], IfOk, OnOk, option_map, string_bytes};
ghost use Rattle.policy_suggest.specs.Facts.{facts_of, gathered, no_facts, noted, of_call, target_by, word_by};
ghost use Rattle.policy_suggest.specs.Seen.{target_seen};

use crate::targets::{Target, Targets};
use crate::words::{push_call_word, push_name_word};
use dbus_names::Name;
use policy_args::Asked;
use std::alloc::{AllocError, Global};

/// The names and paths that decide which entry a request needs.
#[derive(Drop)]
pub(crate) struct Facts<'a> {
    // The names that are to be owned.
    owned: Targets<'a>,
    // The names to which signals go.
    signalled: Targets<'a>,
    // The names that are called.
    called: Targets<'a>,
    // The paths at which a call names no interface.
    opened: Targets<'a>,
}

impl<'a> Facts<'a> {
    // What the requests tell.
    pub(crate) fn of(alloc: Global, asked: &'a [Asked]) -> Result<Facts<'a>, AllocError>
        ensures { IfOk result (λ facts. facts ≡ facts_of asked.entry.now) }
    {
        let mut facts = Facts::new(alloc);
        for request in asked {
            facts.note(request)?;
        }
        Ok(facts)
    }

    fn new(alloc: Global) -> Facts<'a>
        ensures { result ≡ no_facts }
    {
        Facts {
            owned: Targets::new(alloc),
            signalled: Targets::new(alloc),
            called: Targets::new(alloc),
            opened: Targets::new(alloc),
        }
    }

    // What one more request tells.
    fn note(&mut self, request: &'a Asked) -> Result<(), AllocError>
        ensures { OnOk result (self.new ≡ noted self.old request.entry.now) }
    {
        match request {
            Asked::Own(name) => self.owned.insert(Target::of_name(name.as_str())),
            Asked::Signal(name) => self.signalled.insert(Target::of_name(name.as_str())),
            Asked::Call {
                name,
                path,
                interface,
                ..
            } => {
                if interface.is_none() {
                    self.opened
                        .insert(Target::of_path(name.as_str(), path.as_str()))?;
                }
                self.called.insert(Target::of_name(name.as_str()))
            }
            _ => Ok(()),
        }
    }

    // The word of the entry for a target.
    pub(crate) fn word(&self, alloc: Global, target: Target<'a>) -> Result<String, AllocError>
        ensures { IfOk result (λ word. string_bytes word ≡ word_by self.now (target_seen target.entry)) }
    {
        let mut word = String::new(alloc);
        self.push_word(&mut word, target)?;
        Ok(word)
    }

    // Puts that word after a text.
    fn push_word(&self, text: &mut String, target: Target<'a>) -> Result<(), AllocError>
        ensures { OnOk result (string_bytes text.new ≡ string_bytes text.old ++ word_by self.now (target_seen target.entry)) }
    {
        let name = target.name;
        if self.owned.contains(Target::of_name(name)) {
            return push_name_word(text, "--own=", name);
        }
        if self.signalled.contains(Target::of_name(name)) {
            return push_name_word(text, "--talk=", name);
        }
        if target.path.is_empty() {
            return push_name_word(text, "--see=", name);
        }
        push_call_word(text, target)
    }

    // What the entries that the requests need are for.
    pub(crate) fn targets(
        &self,
        alloc: Global,
        asked: &'a [Asked],
    ) -> Result<Targets<'a>, AllocError>
        ensures { IfOk result (λ targets. targets ≡ gathered self.now [] asked.entry.now) }
    {
        let mut targets = Targets::new(alloc);
        for request in asked {
            if let Some(target) = self.target(request) {
                targets.insert(target)?;
            }
        }
        Ok(targets)
    }

    // What the entry that a request needs is for, if it needs one beside the others.
    fn target(&self, request: &'a Asked) -> Option<Target<'a>>
        ensures { option_map target_seen result ≡ target_by self.now request.entry.now }
    {
        let of_name = Target::of_name(request.name());
        if self.owned.contains(of_name) || self.signalled.contains(of_name) {
            return Some(of_name);
        }
        match request {
            Asked::Call {
                name,
                path,
                interface,
                member,
            } => Some(self.call_target(name.as_str(), path.as_str(), interface, member)),
            _ if self.called.contains(of_name) => None,
            _ => Some(of_name),
        }
    }

    // What the entry that a call needs is for.
    fn call_target(
        &self,
        name: &'a str,
        path: &'a str,
        interface: &'a Option<Name>,
        member: &'a Name,
    ) -> Target<'a>
        ensures { target_seen result ≡ of_call self.now name.entry.now path.entry.now interface.entry.now member.entry.now }
    {
        let of_path = Target::of_path(name, path);
        match interface {
            Some(interface) if !self.opened.contains(of_path) => Target {
                name,
                path,
                interface: interface.as_str(),
                member: member.as_str(),
            },
            _ => of_path,
        }
    }
}
