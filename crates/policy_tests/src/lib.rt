//! Tests of how a policy is read: patterns of names, call rules, and the words of policy files and proxy lines.
#![tactic(auto)]

#[cfg(test)]
mod counts;
#[cfg(test)]
mod patterns;
#[cfg(test)]
mod policies;
#[cfg(test)]
mod rules;
