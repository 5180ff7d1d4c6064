//! Tests of the net over sockets, and of the server over it, with sockets in memory.
#![tactic(auto)]

#[cfg(test)]
mod calls;
#[cfg(test)]
mod clients;
#[cfg(test)]
mod journals;
#[cfg(test)]
mod links;
#[cfg(test)]
mod scripted;
#[cfg(test)]
mod servers;
