//! Which texts are patterns of bus names, and which names they cover.
use name_patterns::{BadPattern, Pattern};
use std::alloc::{AllocError, Global};
use std::test::Fail;
use test_tables::wrong_row;

/// Texts, and the name of the pattern and whether it is exact, or why it is refused.
const PATTERNS: &str = "\
org.foo => org.foo true
org.a.T => org.a.T true
-.a-b_9 => -.a-b_9 true
org.* => org false
org.a.* => org.a false
-.* => - false
org => Form
* => Form
 => Form
.* => Form
:1.5 => Form
:1.* => Form
org.a* => Form
org* => Form
org..* => Form
org.a..* => Form
.org.* => Form
org.7a.* => Form
7.* => Form
org.*.a => Form
org.*.* => Form
org.\u{e9}.* => Form
org.a.*\0 => Form
";

/// The length of a text without its end, and the length of the pattern's name.
const LENGTHS: &str = "\
255 => 255
256 => Form
253 .* => 253
254 .* => 254
255 .* => 255
256 .* => Form
";

/// Patterns and names, and whether the patterns cover them.
const NAMES: &str = "\
org.foo org.foo => true
org.foo.* org.foo => true
org.foo org.foo.bar => false
org.foo.* org.foo.bar => true
org.foo org.foo.bar.baz => false
org.foo.* org.foo.bar.baz => true
org.foo org.foo. => false
org.foo.* org.foo. => true
org.foo org.foobar => false
org.foo.* org.foobar => false
org.foo org.foo-bar => false
org.foo.* org.foo-bar => false
org.foo org.fo => false
org.foo.* org.fo => false
org.foo org => false
org.foo.* org => false
org.foo org.bar => false
org.foo.* org.bar => false
org.foo com.org.foo => false
org.foo.* com.org.foo => false
org.foo :1.5 => false
org.foo.* :1.5 => false
org.foo  => false
org.foo.*  => false
";

fn told_pattern(alloc: Global, text: &str) -> Result<String, AllocError> {
    match Pattern::read(alloc, text) {
        Ok(pattern) => format!(in alloc; "{} {}", pattern.name(), pattern.is_exact()),
        Err(refusal) => told_refusal(alloc, refusal),
    }
}

fn told_refusal(alloc: Global, refusal: BadPattern) -> Result<String, AllocError> {
    match refusal {
        BadPattern::Form => String::from_str(alloc, "Form"),
        BadPattern::Memory => Err(AllocError),
    }
}

fn told_cover(alloc: Global, row: &str) -> Result<String, AllocError> {
    let (text, name) = row.split_once(' ').unwrap_or((row, ""));
    match Pattern::read(alloc, text) {
        Ok(pattern) => format!(in alloc; "{}", pattern.covers(name)),
        Err(refusal) => told_refusal(alloc, refusal),
    }
}

/// The length of the pattern's name, of a text that is a name of two elements, of the given length from 2 on, followed
/// by an end.
fn told_length(alloc: Global, row: &str) -> Result<String, AllocError> {
    let (len, end) = row.split_once(' ').unwrap_or((row, ""));
    let text = long(alloc, len.parse().unwrap_or(0), end)?;
    match Pattern::read(alloc, &text) {
        Ok(pattern) => format!(in alloc; "{}", pattern.name().len()),
        Err(refusal) => told_refusal(alloc, refusal),
    }
}

fn long(alloc: Global, len: usize, end: &str) -> Result<String, AllocError> {
    let mut text = String::from_str(alloc, "a.")?;
    for _ in 2..len {
        text.push('b')?;
    }
    text.push_str(end)?;
    Ok(text)
}

#[test]
fn texts_are_read_as_patterns_or_refused(rt: HostRuntime) -> Result<(), Fail> {
    assert_eq!(rt; wrong_row(rt.alloc(), PATTERNS, &told_pattern)?, None);
    Ok(())
}

#[test]
fn names_have_at_most_255_bytes(rt: HostRuntime) -> Result<(), Fail> {
    assert_eq!(rt; wrong_row(rt.alloc(), LENGTHS, &told_length)?, None);
    Ok(())
}

#[test]
fn patterns_cover_names(rt: HostRuntime) -> Result<(), Fail> {
    assert_eq!(rt; wrong_row(rt.alloc(), NAMES, &told_cover)?, None);
    Ok(())
}

#[test]
fn refusals_are_told(rt: HostRuntime) -> Result<(), Fail> {
    let told = format!(in rt.alloc(); "{}; {}", BadPattern::Form, BadPattern::Memory);
    let expected = "the text is no pattern of bus names; out of memory";
    assert_eq!(rt; told?.as_str(), expected);
    Ok(())
}
