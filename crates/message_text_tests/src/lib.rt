//! Tests of messages as texts.
#![tactic(auto)]

#[cfg(test)]
mod changes;
#[cfg(test)]
mod clients;
#[cfg(test)]
mod counts;
#[cfg(test)]
mod cuts;
#[cfg(test)]
mod fields;
#[cfg(test)]
mod lines;
#[cfg(test)]
mod nesting;
#[cfg(test)]
mod numbers;
#[cfg(test)]
mod rows;
#[cfg(test)]
mod shapes;
#[cfg(test)]
mod strings;
#[cfg(test)]
mod values;
