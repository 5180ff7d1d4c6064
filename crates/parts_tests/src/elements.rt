//! Elements of visible parts, compared.
use bytes::Bytes;
use dbus_names::Name;
use policy_view::{NameList, Side, Visible};
use std::alloc::{AllocError, Global};
use std::test::Fail;

fn name(alloc: Global, text: &str) -> Result<Name, AllocError> {
    Ok(Name::new(String::from_str(alloc, text)?))
}

/// The names in a text, each followed by a comma.
fn names(alloc: Global, text: &str) -> Result<NameList, AllocError> {
    let mut names = Vec::new(alloc);
    for text in text.split_terminator(',') {
        names.push(name(alloc, text)?)?;
    }
    Ok(NameList::new(names))
}

/// The element that a row describes: its kind, a number, and a text, with `-` for none.
fn element(alloc: Global, row: &(&str, u32, &str)) -> Result<Visible, AllocError> {
    let &(kind, number, text) = row;
    let bytes = Bytes::copy_from_slice(alloc, text.as_bytes())?;
    Ok(match kind {
        "line" if number == 0 => Visible::Line(Side::Client, bytes),
        "line" => Visible::Line(Side::Bus, bytes),
        "client" => Visible::Client(bytes),
        "shown" => Visible::Shown(bytes),
        "cut" => Visible::Cut(bytes),
        "owner" if text == "-" => Visible::Owner {
            position: number,
            owner: None,
        },
        "owner" => Visible::Owner {
            position: number,
            owner: Some(name(alloc, text)?),
        },
        "asked" if text == "-" => Visible::Asked {
            position: number,
            names: None,
        },
        "asked" => Visible::Asked {
            position: number,
            names: Some(names(alloc, text)?),
        },
        _ => Visible::Ping {
            position: number,
            serial: if text == "one" { 1 } else { 2 },
        },
    })
}

/// Rows, no two of which describe the same element.
const ROWS: &[(&str, u32, &str)] = &[
    ("line", 0, "AUTH"),
    ("line", 1, "AUTH"),
    ("line", 1, "AUT"),
    ("client", 0, "AUTH"),
    ("shown", 0, "AUTH"),
    ("cut", 0, "AUTH"),
    ("cut", 0, "AUT"),
    ("ping", 2, "one"),
    ("ping", 3, "one"),
    ("ping", 3, "two"),
    ("owner", 3, "-"),
    ("owner", 3, ":1.7"),
    ("owner", 3, ":1.8"),
    ("owner", 4, ":1.7"),
    ("asked", 3, "-"),
    ("asked", 3, ""),
    ("asked", 3, "org.a.A,"),
    ("asked", 3, "org.a.A,org.a.B,"),
    ("asked", 3, "org.a.B,org.a.A,"),
    ("asked", 4, "org.a.A,"),
];

/// The number of rows that describe the same element as this one.
fn same_as(alloc: Global, row: &(&str, u32, &str)) -> Result<usize, AllocError> {
    let mut count = 0_usize;
    for other in ROWS {
        if are_same(alloc, row, other)? {
            count = count.wrapping_add(1);
        }
    }
    Ok(count)
}

/// Whether two rows describe the same element.
fn are_same(
    alloc: Global,
    row: &(&str, u32, &str),
    other: &(&str, u32, &str),
) -> Result<bool, AllocError> {
    Ok(element(alloc, row)?.is_same(&element(alloc, other)?))
}

#[test]
fn an_element_is_the_same_as_itself_alone(rt: HostRuntime) -> Result<(), Fail> {
    for row in ROWS {
        assert!(rt; are_same(rt.alloc(), row, row)?);
        assert_eq!(rt; same_as(rt.alloc(), row)?, 1);
    }
    Ok(())
}
