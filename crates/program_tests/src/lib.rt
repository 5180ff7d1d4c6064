//! Tests of the program's words, files and output, over files and sinks in memory, and of its disk files and standard
//! output.
#![tactic(auto)]

#[cfg(test)]
mod audits;
#[cfg(test)]
mod explaining;
#[cfg(test)]
mod files;
#[cfg(test)]
mod meetings;
#[cfg(test)]
mod messages;
#[cfg(test)]
mod outside;
#[cfg(test)]
mod recorded;
#[cfg(test)]
mod runs;
#[cfg(test)]
mod sampling;
#[cfg(test)]
mod serving;
#[cfg(test)]
mod sessions;
#[cfg(test)]
mod suggestions;
#[cfg(test)]
mod texts;
#[cfg(test)]
mod twins;
#[cfg(test)]
mod withins;
