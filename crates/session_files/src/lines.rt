//! The list of a recording's sessions.
ghost use Rattle.std.specs.Prelude.{◌≡◌, ◌++◌, List, OnOk, IfOk, string_bytes};
ghost use Rattle.explain_log.specs.Lines.{number_word};
ghost use Rattle.recording.specs.Sessions.{What as WhatValue};
ghost use Rattle.recording.specs.SessionsSeen.{IsReadable, sessions_seen};
ghost use Rattle.session_files.specs.Counting.{Counted};
ghost use Rattle.session_files.specs.Listing.{listing_of, session_line};

use crate::counting::{Counts, counts_of};
use recording::Sessions;
use std::alloc::{AllocError, Global};

/// The word for the number of an End, or a dash.
fn end_word(alloc: Global, end: Option<u8>) -> Result<String, AllocError>
    ensures { IfOk result (λ word. string_bytes word ≡ number_word end) }
{
    match end {
        Some(number) => format!(in alloc; "{number}"),
        None => format!(in alloc; "-"),
    }
}

/// Puts the line of a session after others.
fn push_line(
    alloc: Global,
    text: &mut String,
    session: u32,
    counts: &Counts,
) -> Result<(), AllocError>
    ensures { (whats : List WhatValue) → Counted whats counts.now → OnOk result (string_bytes text.new ≡ string_bytes text.old ++ session_line session whats) }
{
    let client = counts.client;
    let bus = counts.bus;
    let events = counts.events;
    let end = end_word(alloc, counts.end)?;
    text.push_str(&format!(in alloc;
        "session {session} client {client} bus {bus} events {events} end {end}\n"
    )?)
}

/// A line for each session of a recording, in ascending order: its number, how many bytes came from the client and from
/// the bus, how many records it has, and the number of the first End that one of them brings, or `-`.
pub fn listing(alloc: Global, sessions: &Sessions) -> Result<String, AllocError>
    requires { IsReadable (sessions_seen sessions.now) }
    ensures { IfOk result (λ text. string_bytes text ≡ listing_of (sessions_seen sessions.now)) }
{
    let all = counts_of(alloc, sessions)?;
    let mut text = String::new(alloc);
    for (session, counts) in &all {
        push_line(alloc, &mut text, *session, counts)?;
    }
    Ok(text)
}
