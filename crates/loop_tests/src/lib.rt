//! Tests of the server of a proxy line, over a net in memory.
#![tactic(auto)]

#[cfg(test)]
mod every_place;
#[cfg(test)]
mod logged;
#[cfg(test)]
mod many;
#[cfg(test)]
mod rich_session;
#[cfg(test)]
mod served;
#[cfg(test)]
mod servers;
