//! Tests of what messages are made of: names, signatures and values.
#![tactic(auto)]

#[cfg(test)]
mod names;
#[cfg(test)]
mod types;
#[cfg(test)]
mod values;
