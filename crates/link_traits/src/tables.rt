//! What a net keeps of its listeners and links beside the sockets or the script: how often each failed, and what each
//! link is watched for.
ghost use Rattle.std.specs.Prelude.{◌≡◌, ◌≤◌, ◌<◌, ◌+◌, ◌*◌, ◌^◌, ◌-◌, ℕ, Some, None, length, vec_len, OnOk, OnErr};
ghost use Rattle.std.specs.Option.{option_map};
ghost use Rattle.link_traits.specs.Numbers.{number_of as link_number};
ghost use Rattle.link_traits.specs.Told.{Rose};
ghost use Rattle.link_traits.specs.Journals.{same_link};

use crate::links::{Count, Link, Side, Wishes};
use std::alloc::{AllocError, Global};
use std::collections::BTreeMap;

/// A link's number, which no other link has.
pub fn number_of(link: Link) -> u64
    ensures number { result ≡ link_number link }
    ensures small { result < 2 ^ 33 }
{
    let side = match link.side {
        Side::Client => 0,
        Side::Bus => 1,
    };
    u64::from(link.session) * 2 + side
}

/// Whether both are the same link.
pub fn is_same(a: Link, b: Link) -> bool
    ensures { result ≡ same_link a b }
{
    let same_side = match (a.side, b.side) {
        (Side::Client, Side::Client) | (Side::Bus, Side::Bus) => true,
        (Side::Client, Side::Bus) | (Side::Bus, Side::Client) => false,
    };
    a.session == b.session && same_side
}

/// A count plus one, or at most its greatest number.
fn raised(count: u64) -> u64
    ensures rose { Rose count result }
    ensures grows { count ≤ result }
{
    count.saturating_add(1)
}

/// What is kept of a link that was made and isn't shut.
#[derive(Clone, Copy)]
pub struct LinkRow {
    /// What the link is watched for.
    pub wishes: Wishes,
    /// The number of its faults.
    pub faults: u64,
}

/// The counts of a net and the wishes of its links.
///
/// No count falls: the count of a listener or a link that isn't there is `absent`. That is at least the count of any
/// link that was shut, and a new listener or link begins with it. So a link that was shut takes no room.
#[derive(Drop)]
pub struct LinkTable {
    /// The net's own faults.
    pub own: u64,
    /// Calls that would have waited.
    pub waits: u64,
    /// The count of each listener and link that isn't there.
    pub absent: u64,
    /// The faults of each listener.
    pub listeners: Vec<u64>,
    /// A row for each link that was made and isn't shut, by the link's number.
    pub links: BTreeMap<u64, LinkRow>,
}

impl LinkTable {
    ghost use Rattle.link_traits.specs.Tables.{count_in, wishes_in, KeepsWishesIn, KeepsOthersIn, KeepsCounts, Grows};
    ghost use Rattle.link_traits.specs.Answers.{no_wishes};
    ghost use Rattle.link_traits.specs.declared.links.Count.{Count};
    ghost use Rattle.link_traits.specs.declared.links.Wishes.{Wishes};

    /// A table without listeners and links.
    pub fn new(alloc: Global) -> LinkTable
        ensures listeners { vec_len result.listeners ≡ 0 }
        ensures links { (link : Link) → wishes_in result link ≡ None }
        ensures counts { (count : Count) → count_in result count ≡ 0 }
    {
        LinkTable {
            own: 0,
            waits: 0,
            absent: 0,
            listeners: Vec::new(alloc),
            links: BTreeMap::new(alloc),
        }
    }

    /// The wishes of a link that was made and isn't shut.
    pub fn wishes(&self, link: Link) -> Option<Wishes>
        ensures { result ≡ wishes_in self.now link }
    {
        match self.links.get(&number_of(link)) {
            Some(row) => Some(row.wishes),
            None => None,
        }
    }

    /// Raises a count, unless it is at its greatest number.
    pub fn raise(&mut self, count: Count)
        ensures rose { Rose (count_in self.old count) (count_in self.new count) }
        ensures grows { Grows self.old self.new }
        ensures wishes { KeepsWishesIn self.old self.new }
        ensures listeners { vec_len self.new.listeners ≡ vec_len self.old.listeners }
    {
        match count {
            Count::Own => self.own = raised(self.own),
            Count::Waits => self.waits = raised(self.waits),
            Count::Listener(listener) => self.raise_listener(listener),
            Count::Link(link) => self.raise_link(link),
        }
    }

    fn raise_listener(&mut self, listener: u32)
        ensures rose { Rose (count_in self.old (Count.Listener listener)) (count_in self.new (Count.Listener listener)) }
        ensures grows { Grows self.old self.new }
        ensures wishes { KeepsWishesIn self.old self.new }
        ensures listeners { vec_len self.new.listeners ≡ vec_len self.old.listeners }
    {
        let place = listener as usize;
        if place < self.listeners.len() {
            self.listeners[place] = raised(self.listeners[place]);
        } else {
            self.absent = raised(self.absent);
        }
    }

    fn raise_link(&mut self, link: Link)
        ensures rose { Rose (count_in self.old (Count.Link link)) (count_in self.new (Count.Link link)) }
        ensures grows { Grows self.old self.new }
        ensures wishes { KeepsWishesIn self.old self.new }
        ensures listeners { vec_len self.new.listeners ≡ vec_len self.old.listeners }
    {
        match self.links.get_mut(&number_of(link)) {
            Some(row) => row.faults = raised(row.faults),
            None => self.absent = raised(self.absent),
        }
    }

    /// Adds the next listener.
    pub fn add_listener(&mut self) -> Result<(), AllocError>
        ensures ok { OnOk result (vec_len self.new.listeners ≡ vec_len self.old.listeners + 1) }
        ensures err { OnErr result (vec_len self.new.listeners ≡ vec_len self.old.listeners) }
        ensures counts { KeepsCounts self.old self.new }
        ensures wishes { KeepsWishesIn self.old self.new }
    {
        self.listeners.push(self.absent)?;
        Ok(())
    }

    /// Adds a link, without a wish.
    pub fn add_link(&mut self, link: Link) -> Result<(), AllocError>
        ensures own { OnOk result (wishes_in self.new link ≡ Some no_wishes) }
        ensures err { OnErr result (KeepsWishesIn self.old self.new) }
        ensures wishes { KeepsOthersIn link self.old self.new }
        ensures counts { KeepsCounts self.old self.new }
        ensures listeners { vec_len self.new.listeners ≡ vec_len self.old.listeners }
    {
        let wishes = Wishes {
            read: false,
            write: false,
        };
        let number = number_of(link);
        let faults = match self.links.get(&number) {
            Some(row) => row.faults,
            None => self.absent,
        };
        self.links.insert(number, LinkRow { wishes, faults })?;
        Ok(())
    }

    /// Replaces the wishes of a link that was made and isn't shut.
    pub fn want(&mut self, link: Link, wishes: Wishes)
        ensures own { wishes_in self.new link ≡ option_map (λ (_ : Wishes). wishes) (wishes_in self.old link) }
        ensures others { KeepsOthersIn link self.old self.new }
        ensures counts { KeepsCounts self.old self.new }
        ensures listeners { vec_len self.new.listeners ≡ vec_len self.old.listeners }
    {
        if let Some(row) = self.links.get_mut(&number_of(link)) {
            row.wishes = wishes;
        }
    }

    /// Removes a link, if it is there.
    pub fn remove_link(&mut self, link: Link)
        ensures gone { wishes_in self.new link ≡ None }
        ensures others { KeepsOthersIn link self.old self.new }
        ensures grows { Grows self.old self.new }
        ensures listeners { vec_len self.new.listeners ≡ vec_len self.old.listeners }
    {
        if let Some(row) = self.links.remove(&number_of(link)) {
            self.absent = self.absent.max(row.faults);
        }
    }
}
