//! Tests of the parts of a session, one module for each part.
#![tactic(auto)]

#[cfg(test)]
mod elements;
#[cfg(test)]
mod judging;
#[cfg(test)]
mod known;
#[cfg(test)]
mod messages;
#[cfg(test)]
mod name_lists;
#[cfg(test)]
mod own;
#[cfg(test)]
mod own_messages;
#[cfg(test)]
mod policies;
#[cfg(test)]
mod replies;
#[cfg(test)]
mod serials;
#[cfg(test)]
mod showing;
#[cfg(test)]
mod trackers;
#[cfg(test)]
mod whole;
