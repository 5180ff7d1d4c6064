//! How often reading a text gives each answer.
use crate::rows::{Answer, answer_to};
use message_text::BadText;
use std::alloc::{AllocError, Global};

/// The answers of reading a number of texts.
#[derive(Clone, Copy)]
pub(crate) struct Counts {
    read: u32,
    not_valid: u32,
    form: u32,
    printed_otherwise: u32,
}

impl Counts {
    pub(crate) fn new() -> Self {
        Counts {
            read: 0,
            not_valid: 0,
            form: 0,
            printed_otherwise: 0,
        }
    }

    /// Reads one more text.
    pub(crate) fn add(&mut self, alloc: Global, text: &[u8]) -> Result<(), AllocError> {
        let count = match answer_to(alloc, text)? {
            Answer::Read(_) => &mut self.read,
            Answer::PrintedOtherwise => &mut self.printed_otherwise,
            Answer::Refused(BadText::Form) => &mut self.form,
            Answer::Refused(BadText::NotValid) => &mut self.not_valid,
        };
        *count = count.saturating_add(1);
        Ok(())
    }

    /// The counts as they stand in a row.
    pub(crate) fn told(&self, alloc: Global) -> Result<String, AllocError> {
        let Counts {
            read,
            not_valid,
            form,
            printed_otherwise,
        } = *self;
        format!(in alloc;
            "{read} read, {not_valid} NotValid, {form} Form, {printed_otherwise} printed otherwise"
        )
    }
}
