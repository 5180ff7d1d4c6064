//! Tests of samples and of their summaries.
#![tactic(auto)]

#[cfg(test)]
mod rows;
#[cfg(test)]
mod samples;
#[cfg(test)]
mod summaries;
