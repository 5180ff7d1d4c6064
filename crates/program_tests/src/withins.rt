//! Whether one policy is within another: what is printed, and the words and files of runs without an answer.
use crate::runs::{Ended, file, run_over};
use std::alloc::{AllocError, Global};
use std::str;
use std::test::Fail;
use std::thread::Threads;
use test_tables::wrong_row;

/// The words of a policy file and of another, and the status and what is printed, with `;` for the end of a line.
const POLICIES: &str = "\
--call=org.a.C=org.a.I.*@/p/* | --talk=org.a.* => 0 within;entry 1 by 1;
--talk=org.a.* | --call=org.a.C=org.a.I.*@/p/* => 7 not within: signal org.a.z0;
--filter --see=org.a.N | --talk=org.a.N --see=org.a.N => 0 within;entry 1 by 1;
--see=org.a.N --own=org.a.N | --see=org.a.* --own=org.a.N.* => 0 within;entry 1 by 1;entry 2 by 2;
--see=org.a.N | --talk=org.a.M --see=org.a.N => 0 within;entry 1 by 2;
--see=org.a.N --own=org.a.N | --see=org.a.N --talk=org.a.N => 7 not within: own org.a.N;
--talk=org.a.* | --talk=org.a.b --talk=org.a.c.* => 7 not within: signal org.a.z0;
--talk=org.a.* | --see=z0.z1 => 7 not within: signal org.a.z2;
--talk=org.a.* | --call=org.b.C=z0.z2.z1@/z3/z4 => 7 not within: signal org.a.z5;
--talk=org.a.* | --property=org.b.C=z0.z2.z1@/z3/* => 7 not within: signal org.a.z4;
--talk=org | --talk=org => 2 error: policy word 0: BadName;
--talk=org.* | --talk=org.* => 0 within;entry 1 by 1;
--own=org.freedesktop.DBus | --see=org.a.B => 0 within;entry 1 by;
--own=org.freedesktop.DBus.* | --see=org.a.B => 7 not within: own org.freedesktop.DBus.z0;
--filter | --see=org.a.B => 0 within;
--see=org.a.B | --filter => 7 not within: owner org.a.B;
--filter --log --sloppy-names --known-fields --see=org.a.B | --see=org.a.B => 0 within;entry 1 by 1;
--see=org.a.B | --filter --log --sloppy-names --known-fields --see=org.a.B => 0 within;entry 1 by 1;
--start-called --call=org.a.B=* | --call=org.a.B=* => 0 within;entry 1 by 1;
--call=org.a.N=@/p | --call=org.a.N=@/p/* => 0 within;entry 1 by 1;
--call=org.a.N=@/p/* | --call=org.a.N=@/p => 7 not within: call org.a.N /p/z0 z0.z0 z0;
--call=org.a.N=@/p/q/* | --call=org.a.N=@/p/* => 0 within;entry 1 by 1;
--call=org.a.N=@/pq | --call=org.a.N=@/p/* => 7 not within: call org.a.N /pq z0.z0 z0;
--call=org.a.N=@/* | --call=org.a.N=@/p/* => 7 not within: call org.a.N /z0 z0.z0 z0;
--call=org.a.N=@/p/* | --call=org.a.N=@/* => 0 within;entry 1 by 1;
--call=org.a.N=* | --call=org.a.N=org.a.I.* => 7 not within: call org.a.N /z0 z0.z0 z0;
--call=org.a.N=org.a.I.* | --call=org.a.N=* => 0 within;entry 1 by 1;
--call=org.a.N=org.a.I.* | --call=org.a.N=org.a.I.M => 7 not within: call org.a.N /z0 org.a.I z0;
--call=org.a.N=org.a.I.M | --call=org.a.N=org.a.I.* => 0 within;entry 1 by 1;
--call=org.a.N=org.a.I.M@/p | --call=org.a.N=org.a.I.M --call=org.a.N=org.a.I.M@/p => 0 within;entry 1 by 1;
--broadcast=org.a.N=org.a.I.S | --see=org.a.N => 7 not within: broadcast org.a.N /z0 org.a.I S;
--broadcast=org.a.N.*=@/p | --broadcast=org.a.N=@/p => 7 not within: broadcast org.a.N.z0 /p z0.z0 z0;
--property=org.a.N=org.a.I.V | --see=org.a.N => 7 not within: property org.a.N /z0 Get org.a.I V;
--property=org.a.N=org.a.I.V | --call=org.a.N=org.freedesktop.DBus.Properties.* => 0 within;entry 1 by 1;
--property=org.a.N=org.a.I.V | --call=org.a.N=org.freedesktop.DBus.Properties.Set --call=org.a.N=org.freedesktop.DBus.Properties.Get => 0 within;entry 1 by 1 2;
--property=org.a.N=org.a.I.V | --call=org.a.N=org.freedesktop.DBus.Properties.Get => 7 not within: property org.a.N /z0 Set org.a.I V;
--property=org.a.N=org.a.I.* | --call=org.a.N=org.freedesktop.DBus.Properties.Get --call=org.a.N=org.freedesktop.DBus.Properties.Set => 7 not within: property org.a.N /z0 GetAll org.a.I -;
--property=org.a.N=org.a.I.*@/p | --property=org.a.N=org.a.I.V@/p => 7 not within: property org.a.N /p Get org.a.I z0;
";

/// The words of an entry that gives each grant to a name.
const GRANTS: [(&str, &str); 6] = [
    ("--see=", ""),
    ("--talk=", ""),
    ("--own=", ""),
    ("--call=", "=org.a.I.M@/p"),
    ("--broadcast=", "=org.a.I.M@/p"),
    ("--property=", "=org.a.I.M@/p"),
];

/// Whether an entry of each grant, in rows, is within one of each other, in columns, if the names of the first are
/// names of the other.
const IS_WITHIN: [&str; 6] = ["111111", "011000", "001000", "011100", "011010", "011001"];

/// The names of a first and of another entry, and whether those of the first are names of the other.
const NAMES: [(&str, &str, bool); 5] = [
    ("org.a.N", "org.a.N", true),
    ("org.a.N.*", "org.a.N.*", true),
    ("org.a.N", "org.a.*", true),
    ("org.a.N.*", "org.a.N", false),
    ("org.a.N", "org.a.M.*", false),
];

/// Words over a good policy file and a bad one, and the status and the line on standard error.
const FILES: &str = "\
within good => 1 error: usage;
within good good good => 1 error: usage;
within -good good => 1 error: usage;
within bad missing => 2 error: policy word 1: BadName;
within good missing => 4 error: file missing;
within missing bad => 4 error: file missing;
within good bad => 2 error: policy word 1: BadName;
";

/// The bytes of a policy file with these words, which are separated by spaces.
fn words_of(alloc: Global, words: &str) -> Result<Vec<u8>, AllocError> {
    let mut bytes = Vec::new(alloc);
    for word in words.split(' ') {
        bytes.extend_from_slice(word.as_bytes())?;
        bytes.push(0)?;
    }
    Ok(bytes)
}

/// A comparison of two policies.
fn compared<R: Threads + Sync>(
    rt: &R,
    alloc: Global,
    one: &str,
    other: &str,
    room: usize,
) -> Result<Ended, AllocError> {
    let mut files = Vec::new(alloc);
    files.push(file(alloc, "one", &words_of(alloc, one)?)?)?;
    files.push(file(alloc, "other", &words_of(alloc, other)?)?)?;
    run_over(rt, alloc, "within one other", files, room)
}

/// The status and all that was written, with `;` for the end of a line.
fn told(alloc: Global, ended: &Ended) -> Result<String, AllocError> {
    let mut told = format!(in alloc; "{} ", ended.code)?;
    for bytes in [&ended.out.bytes, &ended.err.bytes] {
        for line in str::from_utf8(bytes).unwrap_or("no text").lines() {
            told.push_str(line)?;
            told.push(';')?;
        }
    }
    Ok(told)
}

fn told_policies<R: Threads + Sync>(
    rt: &R,
    alloc: Global,
    row: &str,
) -> Result<String, AllocError> {
    let (one, other) = row.split_once(" | ").unwrap_or((row, ""));
    told(alloc, &compared(rt, alloc, one, other, 1_000)?)
}

fn told_files<R: Threads + Sync>(rt: &R, alloc: Global, words: &str) -> Result<String, AllocError> {
    let mut files = Vec::new(alloc);
    files.push(file(alloc, "good", b"--filter")?)?;
    files.push(file(alloc, "bad", b"--filter\0--see=x")?)?;
    told(alloc, &run_over(rt, alloc, words, files, 100)?)
}

#[test]
fn policies_are_within_others_or_not(rt: HostRuntime) -> Result<(), Fail> {
    assert_eq!(rt;
        wrong_row(
            rt.alloc(),
            POLICIES,
            &|alloc, row| told_policies(&rt, alloc, row)
        )?,
        None
    );
    assert_eq!(rt;
        wrong_row(
            rt.alloc(),
            FILES,
            &|alloc, words| told_files(&rt, alloc, words)
        )?,
        None
    );
    Ok(())
}

/// Whether an entry is within another, as it is printed.
fn is_within<R: Threads + Sync>(
    rt: &R,
    alloc: Global,
    (grant, rule): (&str, &str),
    name: &str,
    (other_grant, other_rule): (&str, &str),
    other_name: &str,
) -> Result<bool, AllocError> {
    let one = format!(in alloc; "{grant}{name}{rule}")?;
    let other = format!(in alloc; "{other_grant}{other_name}{other_rule}")?;
    let ended = compared(rt, alloc, &one, &other, 1_000)?;
    Ok(ended.code == 0 && ended.out.bytes.as_slice() == b"within\nentry 1 by 1\n".as_slice())
}

#[test]
fn each_grant_is_within_the_grants_that_hold_it(rt: HostRuntime) -> Result<(), Fail> {
    for (name, other_name, are_names) in NAMES {
        for (grant, row) in GRANTS.iter().zip(IS_WITHIN) {
            for (other, within) in GRANTS.iter().zip(row.bytes()) {
                assert_eq!(rt;
                    is_within(&rt, rt.alloc(), *grant, name, *other, other_name)?,
                    are_names && within == b'1',
                    "{name} {other_name}"
                );
            }
        }
    }
    Ok(())
}

#[test]
fn answer_is_cut_where_out_has_no_room(rt: HostRuntime) -> Result<(), Fail> {
    for (one, other, text) in [
        ("--see=org.a.N", "--see=org.a.*", "within\nentry 1 by 1\n"),
        (
            "--see=org.a.*",
            "--see=org.a.N",
            "not within: owner org.a.z0\n",
        ),
    ] {
        for room in 0..text.len() {
            let ended = compared(&rt, rt.alloc(), one, other, room)?;
            assert_eq!(rt; ended.code, 6);
            assert_eq!(rt; ended.out.bytes.as_slice(), &text.as_bytes()[..room]);
        }
    }
    Ok(())
}
