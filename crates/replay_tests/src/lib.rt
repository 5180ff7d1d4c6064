//! Tests of whole replays through the program: what comes of either side, and what either side gets.
#![tactic(auto)]

#[cfg(test)]
mod answers;
#[cfg(test)]
mod audits;
#[cfg(test)]
mod calls;
#[cfg(test)]
mod cases;
#[cfg(test)]
mod logs;
#[cfg(test)]
mod messages;
#[cfg(test)]
mod owners;
#[cfg(test)]
mod peers;
#[cfg(test)]
mod prefixes;
#[cfg(test)]
mod raw;
#[cfg(test)]
mod runs;
#[cfg(test)]
mod sessions;
#[cfg(test)]
mod suggestions;
#[cfg(test)]
mod twins;
#[cfg(test)]
mod values;
