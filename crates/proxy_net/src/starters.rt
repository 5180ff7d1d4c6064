//! The program that started this one.
//!
//! It may hold the reading end of a pipe (`--fd` in xdg-dbus-proxy(1)): one byte in the pipe tells it that clients can
//! connect to all paths, and the run ends once it closes its end.
ghost use Rattle.std.specs.Prelude.{◌≡◌, false, true};
ghost use Rattle.std.specs.List.{list_any};
ghost use Rattle.proxy_net.specs.Starters.{after_reports, is_gone as has_gone, is_present as is_there, is_waiting, reports_end};
ghost use Rattle.proxy_net.specs.Steps.{Steps, IsNoticed};

use crate::reports::Report;
use crate::system::Sockets;

/// The number that the starter's pipe is reported by, above those of all listeners.
pub const STARTER: u64 = 0x3_0000_0000;

/// What is known of the starter.
#[derive(Clone, Copy, Debug, PartialEq, Eq)]
pub enum Starter {
    /// There is none.
    Absent,
    /// It waits for the byte.
    Waiting,
    /// The byte was written.
    Told,
    /// It closed its end of the pipe, or the byte could not be written.
    Gone,
}

impl Starter {
    /// Whether it is gone.
    pub fn is_gone(self) -> bool
        ensures { result ≡ has_gone self }
    {
        match self {
            Starter::Gone => true,
            Starter::Absent | Starter::Waiting | Starter::Told => false,
        }
    }

    /// Whether there is or was one.
    pub fn is_present(self) -> bool
        ensures { result ≡ is_there self }
    {
        match self {
            Starter::Absent => false,
            Starter::Waiting | Starter::Told | Starter::Gone => true,
        }
    }

    /// What is known of it after these reports.
    pub fn after(self, reports: &[Report]) -> Starter
        ensures is { result ≡ after_reports reports.now self }
        ensures present { is_there result ≡ is_there self }
        ensures once { is_waiting self ≡ false → is_waiting result ≡ false }
    {
        if !has_end(reports) {
            return self;
        }
        match self {
            Starter::Absent => Starter::Absent,
            Starter::Waiting | Starter::Told | Starter::Gone => Starter::Gone,
        }
    }

    /// Writes the byte, if it waits for it. What is known of it then is answered.
    pub fn notify<S: Sockets>(self, system: &mut S) -> Starter
        ensures told { Steps (IsNoticed self result) (S.journal system.old) (S.journal system.new) }
        ensures once { is_waiting result ≡ false }
        ensures present { is_there result ≡ is_there self }
        ensures gone { has_gone self ≡ true → has_gone result ≡ true }
    {
        match self {
            Starter::Waiting => match system.notify_starter() {
                Ok(()) => Starter::Told,
                Err(_) => Starter::Gone,
            },
            Starter::Absent | Starter::Told | Starter::Gone => self,
        }
    }
}

/// Whether one of these reports says that the reading end of the starter's pipe is closed.
fn has_end(reports: &[Report]) -> bool
    ensures { result ≡ list_any reports_end reports.now }
{
    let mut rest = reports;
    while let [report, later @ ..] = rest {
        if is_end(report) {
            return true;
        }
        rest = later;
    }
    false
}

fn is_end(report: &Report) -> bool
    ensures { result ≡ reports_end report.now }
{
    report.number == STARTER && report.closed
}
