//! Texts that end early.
use crate::counts::Counts;
use crate::rows::{text_in, told_len};
use std::alloc::{AllocError, Global};
use std::test::Fail;
use test_tables::wrong_row;

/// Texts, what their proper prefixes are read as, and the length of the message of the whole. Only the last line begins
/// with `body`, and it ends with the only line feed in it, so that no proper prefix has the form of a text.
const TEXTS: &str = "\
l 5 0 1|body| => 0 read, 0 NotValid, 13 Form, 0 printed otherwise, whole 16 bytes
l 1 0 2|1 o \"/\"|2 s \"org.freedesktop.DBus.Peer\"|3 s \"Ping\"|6 s \"org.freedesktop.DBus\"|body| => 0 read, 0 NotValid, 91 Form, 0 printed otherwise, whole 120 bytes
B 2 1 70|5 u 3|7 s \"org.freedesktop.DBus\"|8 g \"b\"|body false| => 0 read, 0 NotValid, 61 Form, 0 printed otherwise, whole 68 bytes
l 255 255 4294967295|8 g \"ybnqiuxtdhsog\"|body 255 true -32768 65535 \
    -2147483648 4294967295 -9223372036854775808 18446744073709551615 \
    0xfffffffffffffff0 4294967295 \"a\\\"\\\\\\x0a\\x7f%C3%A9%E2%82%AC%F0%9F%98%80\" \"/a/b\" \"a{sv}\"| => 0 read, \
    0 NotValid, 203 Form, 0 printed otherwise, whole 128 bytes
B 5 0 1|200 a{yy} [{1 2} {3 4}]|8 g \"aaya{sv}(y(ss))v\"|body [[] [1 2]] \
    [{\"a\" <u 10>} {\"b\" <a(yv) [(1 <s \"body\\x0a\">)]>}] (1 (\"\" \"a\")) <o \"/\">| => 0 read, 0 NotValid, \
    142 Form, 0 printed otherwise, whole 186 bytes
l 5 0 1|8 g \"ss\"|10 s \"\\x0abody\\x0a\"|body \"body\\x0a\" \"l 5 0 1\\x0abody\\x0a\"| => 0 read, 0 NotValid, 75 Form, 0 printed otherwise, whole 70 bytes
";

fn told_of_prefixes(alloc: Global, row: &str) -> Result<String, AllocError> {
    let text = text_in(alloc, row)?;
    let mut counts = Counts::new();
    for len in 0..text.len() {
        counts.add(alloc, text.get(..len).unwrap_or(&[]))?;
    }
    let prefixes = counts.told(alloc)?;
    let whole = told_len(alloc, &text)?;
    format!(in alloc; "{prefixes}, whole {whole}")
}

#[test]
fn no_proper_prefix_of_a_text_is_read(rt: HostRuntime) -> Result<(), Fail> {
    assert_eq!(rt; wrong_row(rt.alloc(), TEXTS, &told_of_prefixes)?, None);
    Ok(())
}
