//! Requests as they are gathered.
ghost use Rattle.std.specs.Prelude.{◌≡◌, [], OnOk, true};
ghost use Rattle.std.specs.List.{list_all};
ghost use Rattle.policy_suggest.specs.AskedBy.{asked_by};
ghost use Rattle.policy_suggest.specs.Needs.{listed, with_request, with_requests};
ghost use Rattle.policy_suggest.specs.Seen.{request_seen};
ghost use Rattle.policy_suggest.specs.Suggest.{is_asked};

use crate::requests::{Request, request_of};
use dbus_header::Places;
use indexmap::IndexSet;
use policy_args::Asked;
use policy_view::Note;
use std::alloc::{AllocError, Global};
use std::marker::Model;

/// Requests, of which each is kept once: of those that need the same entry the first.
#[derive(Drop)]
pub struct Requests {
    // The words of the entries that the requests need, in their order.
    words: IndexSet<String>,
    asked: Vec<Asked>,
    // Room for the word of the next request.
    word: String,
}

impl Model for Requests {
    ghost use Rattle.std.specs.Prelude.{◌≡◌, List, map, string_bytes, true};
    ghost use Rattle.std.specs.List.{list_all};
    ghost use Rattle.policy_args.specs.declared.requests.Asked.{Asked as AskedValue};
    ghost use Rattle.policy_suggest.specs.Needs.{need_word};
    ghost use Rattle.policy_suggest.specs.Suggest.{is_asked};

    ghost Value = { List AskedValue };

    ghost view = { λ r. r.asked.items };

    ghost invariant = { λ r. (map (λ w. string_bytes w) r.words.keys ≡ map need_word r.asked.items) × (list_all is_asked r.asked.items ≡ true) };
}

impl Requests {
    /// No request.
    pub fn new(alloc: Global) -> Requests
        ensures { result ≡ [] }
    {
        Requests {
            words: IndexSet::new(alloc),
            asked: Vec::new(alloc),
            word: String::new(alloc),
        }
    }

    /// The requests, in the order in which they came first.
    pub fn as_slice(&self) -> &[Asked]
        ensures requests { result.now ≡ self.now }
        ensures grammar { list_all is_asked self.now ≡ true }
    {
        self.asked.as_slice()
    }

    /// Takes the request that a note's message makes, if it makes one.
    pub fn take(&mut self, alloc: Global, note: &Note) -> Result<(), AllocError>
        ensures added { OnOk result (self.new ≡ with_requests self.old (listed (asked_by note.now))) }
        ensures grammar { list_all is_asked (listed (asked_by note.now)) ≡ true }
    {
        let mut places = Places::none();
        match request_of(note, &mut places) {
            Some(request) => self.add(alloc, request),
            None => Ok(()),
        }
    }

    /// Takes other requests too.
    pub fn join(&mut self, alloc: Global, other: &Requests) -> Result<(), AllocError>
        ensures { OnOk result (self.new ≡ with_requests self.old other.now) }
    {
        for asked in other.as_slice() {
            if let Some(request) = Request::of(asked) {
                self.add(alloc, request)?;
            }
        }
        Ok(())
    }

    // Takes one more request, unless one that needs the same entry is there.
    fn add(&mut self, alloc: Global, request: Request<'_>) -> Result<(), AllocError>
        requires { is_asked (request_seen request) ≡ true }
        ensures { OnOk result (self.new ≡ with_request self.old (request_seen request.entry)) }
    {
        self.word.clear();
        request.push_word(&mut self.word)?;
        if self.words.contains(self.word.as_str()) {
            return Ok(());
        }
        self.asked.reserve(1)?;
        let asked = request.to_asked(alloc)?;
        let word = String::from_str(alloc, self.word.as_str())?;
        self.words.insert(word)?;
        self.asked.push_reserved(asked);
        Ok(())
    }
}
