//! Texts with one byte changed.
//!
//! A changed text that gives a message is the text of that message: a message has one text.
use crate::counts::Counts;
use crate::rows::text_in;
use std::alloc::{AllocError, Global};
use std::test::Fail;
use test_tables::wrong_row;

/// A text, and how many of the texts are read that have another byte in place of one of its bytes.
const REPLACED: &str = "\
l 5 0 1|body| => 22 read, 6 NotValid, 3287 Form, 0 printed otherwise
l 1 4 9|1 o \"/a\"|3 s \"C\"|8 g \"nb\"|body -5 true| => 156 read, 189 NotValid, 11640 Form, 0 printed otherwise
B 5 0 1|8 g \"a{sv}gd\"|body [{\"k\" <(yas) (7 [\"\\x0a\" \"%C3%A9\"])>} {\"\\\\\" <x -1>}] \"ay\" 0x00000000000000f0| => 620 read, 169 NotValid, 24456 Form, 0 printed otherwise
";

/// A text, and how many of the texts are read that have one byte more, of any value at any place.
const INSERTED: &str = "\
l 5 0 1|body| => 47 read, 0 NotValid, 3537 Form, 0 printed otherwise
l 1 4 9|1 o \"/a\"|3 s \"C\"|8 g \"nb\"|body -5 true| => 318 read, 261 NotValid, 11709 Form, 0 printed otherwise
B 5 0 1|8 g \"a{sv}gd\"|body [{\"k\" <(yas) (7 [\"\\x0a\" \"%C3%A9\"])>} {\"\\\\\" <x -1>}] \"ay\" 0x00000000000000f0| => 892 read, 237 NotValid, 24471 Form, 0 printed otherwise
";

/// A text, and how many of the texts are read that lack one of its bytes.
const REMOVED: &str = "\
l 5 0 1|body| => 0 read, 0 NotValid, 13 Form, 0 printed otherwise
l 5 0 10|body| => 1 read, 1 NotValid, 12 Form, 0 printed otherwise
l 1 4 9|1 o \"/a\"|3 s \"CD\"|8 g \"nb\"|body -5 true| => 4 read, 1 NotValid, 43 Form, 0 printed otherwise
B 5 0 1|8 g \"a{sv}gd\"|body [{\"k\" <(yas) (77 [\"\\x0a\" \"%C3%A9\"])>} {\"\\\\\" <x -10>}] \"ay\" 0x00000000000000f0| => 7 read, 1 NotValid, 93 Form, 0 printed otherwise
";

fn joined(
    alloc: Global,
    before: &[u8],
    between: &[u8],
    after: &[u8],
) -> Result<Vec<u8>, AllocError> {
    let mut text = Vec::from_slice(alloc, before)?;
    text.extend_from_slice(between)?;
    text.extend_from_slice(after)?;
    Ok(text)
}

/// Reads a text with each byte but one between a prefix and a suffix.
fn read_each_but(
    alloc: Global,
    before: &[u8],
    old: Option<u8>,
    after: &[u8],
    counts: &mut Counts,
) -> Result<(), AllocError> {
    for byte in 0..=u8::MAX {
        if Some(byte) != old {
            counts.add(alloc, &joined(alloc, before, &[byte], after)?)?;
        }
    }
    Ok(())
}

fn told_replaced(alloc: Global, row: &str) -> Result<String, AllocError> {
    let text = text_in(alloc, row)?;
    let mut counts = Counts::new();
    for place in 0..text.len() {
        let (before, rest) = text.split_at_checked(place).unwrap_or((&text, &[]));
        if let Some((old, after)) = rest.split_first() {
            read_each_but(alloc, before, Some(*old), after, &mut counts)?;
        }
    }
    counts.told(alloc)
}

fn told_inserted(alloc: Global, row: &str) -> Result<String, AllocError> {
    let text = text_in(alloc, row)?;
    let mut counts = Counts::new();
    for place in 0..=text.len() {
        let (before, after) = text.split_at_checked(place).unwrap_or((&text, &[]));
        read_each_but(alloc, before, None, after, &mut counts)?;
    }
    counts.told(alloc)
}

fn told_removed(alloc: Global, row: &str) -> Result<String, AllocError> {
    let text = text_in(alloc, row)?;
    let mut counts = Counts::new();
    for place in 0..text.len() {
        let (before, rest) = text.split_at_checked(place).unwrap_or((&text, &[]));
        if let Some((_, after)) = rest.split_first() {
            counts.add(alloc, &joined(alloc, before, &[], after)?)?;
        }
    }
    counts.told(alloc)
}

#[test]
fn a_text_with_another_byte_is_refused_or_another_messages(rt: HostRuntime) -> Result<(), Fail> {
    assert_eq!(rt; wrong_row(rt.alloc(), REPLACED, &told_replaced)?, None);
    Ok(())
}

#[test]
fn a_text_with_one_more_byte_is_refused_or_another_messages(rt: HostRuntime) -> Result<(), Fail> {
    assert_eq!(rt; wrong_row(rt.alloc(), INSERTED, &told_inserted)?, None);
    Ok(())
}

#[test]
fn a_text_with_one_byte_less_is_refused_or_another_messages(rt: HostRuntime) -> Result<(), Fail> {
    assert_eq!(rt; wrong_row(rt.alloc(), REMOVED, &told_removed)?, None);
    Ok(())
}
