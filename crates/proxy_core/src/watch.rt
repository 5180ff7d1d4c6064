//! Elements of a session's visible part, kept until they are taken.
ghost use Rattle.std.specs.Prelude.{◌≡◌, ◌∷◌, ◌++◌, [], IfNone, IfSome, OnOk, OnErr, if◌then◌else◌, is_some, length, take};
ghost use Rattle.policy_view.specs.declared.visible.Visible.TheVariants as element;
ghost use Rattle.proxy_core.specs.Sessions.{waiting_in};

use bytes::Bytes;
use policy_view::{Side, Visible};
use std::alloc::{AllocError, Global};
use std::collections::VecDeque;
use std::marker::Model;

/// Elements of a session's visible part that wait, in order.
#[derive(Drop)]
pub(crate) struct Watch {
    elements: VecDeque<Visible>,
}

impl Model for Watch {
    ghost use Rattle.std.specs.Prelude.{List};
    ghost use Rattle.policy_view.specs.declared.visible.Visible.{Visible as Element};

    ghost Value = { List Element };

    ghost view = { λ w. w.elements.items };
}

impl Watch {
    /// An empty queue of elements.
    pub(crate) fn new(alloc: Global) -> Watch
        ensures { result ≡ [] }
    {
        Watch {
            elements: VecDeque::new(alloc),
        }
    }

    /// Takes the next element, if one waits.
    pub(crate) fn next(&mut self) -> Option<Visible>
        ensures none { IfNone result ((self.old ≡ []) × (self.new ≡ self.old)) }
        ensures some { IfSome result (λ element. self.old ≡ element ∷ self.new) }
    {
        self.elements.pop_front()
    }

    /// The number of elements that wait.
    pub(crate) fn len(&self) -> usize
        ensures { result ≡ length self.now }
    {
        self.elements.len()
    }

    /// Appends an element.
    pub(crate) fn push(&mut self, element: Visible) -> Result<(), AllocError>
        ensures ok { OnOk result (self.new ≡ self.old ++ element ∷ []) }
        ensures err { OnErr result (self.new ≡ self.old) }
    {
        self.elements.push_back(element)?;
        Ok(())
    }

    /// Appends a line of a side, as received.
    pub(crate) fn push_line(
        &mut self,
        alloc: Global,
        side: Side,
        line: &[u8],
    ) -> Result<(), AllocError>
        ensures ok { OnOk result (self.new ≡ self.old ++ element.Line side line.now ∷ []) }
        ensures err { OnErr result (self.new ≡ self.old) }
    {
        let line = Bytes::copy_from_slice(alloc, line)?;
        self.push(Visible::Line(side, line))
    }

    /// Keeps only the first `n` elements, unless all are to stay.
    pub(crate) fn truncate_unless(&mut self, all: bool, n: usize)
        ensures { self.new ≡ if all then self.old else take n self.old }
    {
        if !all {
            self.elements.truncate(n);
        }
    }
}

/// Takes the next element, if elements are kept and one waits.
pub(crate) fn next_of(watch: &mut Option<Box<Watch>>) -> Option<Visible>
    ensures none { IfNone result ((waiting_in watch.old ≡ []) × (waiting_in watch.new ≡ [])) }
    ensures some { IfSome result (λ element. waiting_in watch.old ≡ element ∷ waiting_in watch.new) }
    ensures watches { is_some watch.new ≡ is_some watch.old }
{
    match watch {
        Some(watch) => watch.next(),
        None => None,
    }
}
