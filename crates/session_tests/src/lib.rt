//! Tests of sessions: the bytes that wait for either side, and what a replay writes.
#![tactic(auto)]

#[cfg(test)]
mod many_sessions;
#[cfg(test)]
mod name_lists;
#[cfg(test)]
mod notes;
#[cfg(test)]
mod replays;
#[cfg(test)]
mod serials;
#[cfg(test)]
mod sessions;
#[cfg(test)]
mod texts;
#[cfg(test)]
mod twins;
