//! Which texts are names and paths.
use dbus_names::{
    is_bus_name, is_error_name, is_interface, is_member, is_path, is_unique, is_well_known,
};
use std::alloc::{AllocError, Global};
use std::test::Fail;
use test_tables::wrong_row;

/// Texts, and whether each is a unique name, a well-known name, a bus name, an interface, an error name, a member and a
/// path.
const NAMES: &str = "\
org.freedesktop.DBus => 0111100
org => 0000010
org.a-b.C => 0110000
org.7a.C => 0000000
-.- => 0110000
:1.42 => 1010000
:1 => 0000000
1.42 => 0000000
Foo2 => 0000010
2Foo => 0000000
a.b => 0111100
a..b => 0000000
.a.b => 0000000
a.b. => 0000000
org.\u{e9}.C => 0000000
org.a\0.C => 0000000
 => 0000000
/ => 0000001
/a/b_1 => 0000001
/a/ => 0000000
//a => 0000000
";

fn told_name(alloc: Global, text: &str) -> Result<String, AllocError> {
    let text = text.as_bytes();
    let mut told = String::new(alloc);
    for holds in [
        is_unique(text),
        is_well_known(text),
        is_bus_name(text),
        is_interface(text),
        is_error_name(text),
        is_member(text),
        is_path(text),
    ] {
        told.push_str(if holds { "1" } else { "0" })?;
    }
    Ok(told)
}

#[test]
fn names_and_paths_are_told_apart(rt: HostRuntime) -> Result<(), Fail> {
    assert_eq!(rt; wrong_row(rt.alloc(), NAMES, &told_name)?, None);
    Ok(())
}

#[test]
fn names_have_at_most_255_bytes(rt: HostRuntime) {
    let mut name = [b'a'; 256];
    assert!(rt; is_member(&name[..255]) && !is_member(&name));
    name[2] = b'.';
    assert!(rt; is_interface(&name[..255]) && !is_interface(&name));
    assert!(rt; is_bus_name(&name[..255]) && !is_bus_name(&name));
    name[0] = b':';
    assert!(rt; is_bus_name(&name[..255]) && !is_bus_name(&name));
}
