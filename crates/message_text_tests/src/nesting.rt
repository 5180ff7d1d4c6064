//! Values inside as many containers as a message may have, and inside one more.
//!
//! A body's value is within at most 64 containers: arrays, structs and variants. A dict entry counts together with its
//! array, and an empty array isn't a container, since nothing is in it. A header field's value stands in a variant, so
//! that 63 are left for it.
use crate::rows::{text_in, told_len};
use std::alloc::{AllocError, Global};
use std::test::Fail;
use test_tables::wrong_row;

/// A text in which the words after the number in `^3 <v ^` are repeated that number of times, and the length of its
/// message.
const NESTED: &str = "\
l 5 0 1|8 g \"v\"|body ^63 <v ^<y 1^64 >^| => 217 bytes
l 5 0 1|8 g \"v\"|body ^64 <v ^<y 1^65 >^| => Form
B 5 0 1|8 g \"v\"|body ^63 <v ^<y 1^64 >^| => 217 bytes
B 5 0 1|8 g \"v\"|body ^64 <v ^<y 1^65 >^| => Form
l 5 0 1|8 g \"v\"|body ^100 <v ^<y 1^101 >^| => Form
l 5 0 1|8 g \"v\"|body ^5000 <v ^<y 1^5001 >^| => Form
l 5 0 1|8 g \"v\"|body ^63 <v ^<ay []^64 >^| => 224 bytes
l 5 0 1|8 g \"v\"|body ^63 <v ^<ay [1]^64 >^| => Form
l 5 0 1|8 g \"v\"|body ^62 <v ^<ay [1]^63 >^| => 221 bytes
l 5 0 1|8 g \"v\"|body ^63 <v ^<(y) (1)^64 >^| => Form
l 5 0 1|8 g \"v\"|body ^62 <v ^<(y) (1)^63 >^| => 217 bytes
l 5 0 1|8 g \"v\"|body ^63 <v ^<a{yy} [{1 2}]^64 >^| => Form
l 5 0 1|8 g \"v\"|body ^62 <v ^<a{yy} [{1 2}]^63 >^| => 226 bytes
l 5 0 1|8 g \"yvy\"|body 1 ^63 <v ^<y 1^64 >^ 2| => 227 bytes
l 5 0 1|8 g \"vv\"|body ^63 <v ^<y 1^64 >^ ^63 <v ^<y 1^64 >^| => 410 bytes
l 5 0 1|8 g \"vv\"|body ^63 <v ^<y 1^64 >^ ^64 <v ^<y 1^65 >^| => Form
l 5 0 1|8 g \"^32 a^^32 (^y^32 )^\"|body ^32 [^^32 (^1^32 )^^32 ]^| => 249 bytes
B 5 0 1|8 g \"^32 a^^32 (^x^32 )^\"|body ^32 [^^32 (^1^32 )^^32 ]^| => 256 bytes
l 5 0 1|8 g \"^32 a(^y^32 )^\"|body ^32 [(^1^32 )]^| => 377 bytes
l 5 0 1|8 g \"^32 (a^y^32 )^\"|body ^32 ([^1^32 ])^| => 373 bytes
l 5 0 1|8 g \"^32 a^^32 (^v^32 )^\"|body ^32 [^^32 (^<y 1>^32 )^^32 ]^| => Form
l 5 0 1|8 g \"^32 a^^31 (^v^31 )^\"|body ^32 [^^31 (^<y 1>^31 )^^32 ]^| => 252 bytes
l 5 0 1|8 g \"^32 a^^31 (^v^31 )^\"|body ^32 [^^31 (^<ay []>^31 )^^32 ]^| => 256 bytes
l 5 0 1|8 g \"^32 a^^31 (^v^31 )^\"|body ^32 [^^31 (^<ay [1]>^31 )^^32 ]^| => Form
l 5 0 1|8 g \"^31 a^^32 (^v^32 )^\"|body ^31 [^^32 (^<y 1>^32 )^^31 ]^| => 252 bytes
l 5 0 1|8 g \"v\"|body <^32 a^^32 (^y^32 )^ ^32 [^^32 (^1^32 )^^32 ]^>| => Form
l 5 0 1|8 g \"v\"|body <^32 a^^31 (^y^31 )^ ^32 [^^31 (^1^31 )^^32 ]^>| => 257 bytes
l 5 0 1|8 g \"v\"|body <^31 a^^32 (^y^32 )^ ^31 [^^32 (^1^32 )^^31 ]^>| => 249 bytes
l 5 0 1|8 g \"^32 a^^32 (^ay^32 )^\"|body| => NotValid
l 5 0 1|8 g \"^31 a^^32 (^ay^32 )^\"|body ^31 [^^32 (^[1]^32 )^^31 ]^| => 253 bytes
l 5 0 1|8 g \"^32 a^y\"|body ^32 [^^32 ]^| => 184 bytes
l 5 0 1|8 g \"^33 a^y\"|body| => NotValid
l 5 0 1|8 g \"^33 a^y\"|body []| => Form
l 5 0 1|8 g \"^32 (^y^32 )^\"|body ^32 (^1^32 )^| => 89 bytes
l 5 0 1|8 g \"^33 (^y^33 )^\"|body| => NotValid
l 5 0 1|8 g \"^33 (^y^33 )^\"|body ^33 (^1^33 )^| => Form
l 5 0 1|8 g \"v\"|body <^33 a^y []>| => Form
l 5 0 1|8 g \"v\"|body <^33 (^y^33 )^ ^33 (^1^33 )^>| => Form
l 5 0 1|8 g \"a{sv}\"|body ^31 [{\"k\" <a{sv} ^[{\"k\" <y 1>}]^31 >}]^| => 794 bytes
l 5 0 1|8 g \"a{sv}\"|body ^31 [{\"k\" <a{sv} ^[{\"k\" <ay []>}]^31 >}]^| => 800 bytes
l 5 0 1|8 g \"a{sv}\"|body ^31 [{\"k\" <a{sv} ^[{\"k\" <v <y 1>>}]^31 >}]^| => Form
l 5 0 1|8 g \"v\"|body <a{sv} ^31 [{\"k\" <a{sv} ^[{\"k\" <y 1>}]^31 >}]^>| => Form
l 5 0 1|8 g \"(v)\"|body ^31 (<(v) ^(<y 1>)^31 >)^| => 284 bytes
l 5 0 1|8 g \"(v)\"|body ^31 (<(v) ^(<ay [1]>)^31 >)^| => Form
l 5 0 1|200 y 1|body| => 24 bytes
l 5 0 1|200 v ^62 <v ^<y 1^63 >^|body| => 216 bytes
l 5 0 1|200 v ^63 <v ^<y 1^64 >^|body| => Form
l 5 0 1|200 v ^62 <v ^<as []^63 >^|body| => 216 bytes
l 5 0 1|200 v ^62 <v ^<as [\"a\"]^63 >^|body| => Form
l 5 0 1|200 ^32 a^^31 (^y^31 )^ ^32 [^^31 (^1^31 )^^32 ]^|body| => 256 bytes
l 5 0 1|200 ^31 a^^32 (^y^32 )^ ^31 [^^32 (^1^32 )^^31 ]^|body| => 248 bytes
l 5 0 1|200 ^32 a^^32 (^y^32 )^ ^32 [^^32 (^1^32 )^^32 ]^|body| => Form
l 5 0 1|200 ^32 a^^32 (^y^32 )^ []|body| => 120 bytes
l 5 0 1|200 ^32 a^^31 (^v^31 )^ ^32 [^^31 (^<y 1>^31 )^^32 ]^|body| => Form
l 5 0 1|200 a{sv} ^30 [{\"k\" <a{sv} ^[{\"k\" <ay [1]>}]^30 >}]^|body| => 776 bytes
l 5 0 1|200 a{sv} ^31 [{\"k\" <a{sv} ^[{\"k\" <y 1>}]^31 >}]^|body| => Form
l 5 0 1|8 g \"v\"|200 v ^62 <v ^<y 1^63 >^|body ^63 <v ^<y 1^64 >^| => 417 bytes
";

/// Signatures with as many codes as one may have and with more, and other texts of such lengths.
const SIGNATURES: &str = "\
l 5 0 1|8 g \"^255 y^\"|body^255  1^| => 535 bytes
l 5 0 1|8 g \"^256 y^\"|body| => NotValid
l 5 0 1|8 g \"^256 y^\"|body^256  1^| => Form
l 5 0 1|8 g \"g\"|body \"^255 y^\"| => 281 bytes
l 5 0 1|8 g \"g\"|body \"^256 y^\"| => NotValid
l 5 0 1|8 g \"g\"|body \"^300 y^\"| => NotValid
l 5 0 1|8 g \"g\"|body \"^70000 y^\"| => NotValid
l 5 0 1|8 g \"g\"|body \"^32 a^^32 (^y^32 )^\"| => 123 bytes
l 5 0 1|8 g \"g\"|body \"^33 a^y\"| => NotValid
l 5 0 1|8 g \"g\"|body \"^33 (^y^33 )^\"| => NotValid
l 5 0 1|8 g \"v\"|body <(^253 y^) (1^252  1^)>| => 541 bytes
l 5 0 1|8 g \"v\"|body <(^254 y^) (1^253  1^)>| => Form
l 5 0 1|8 g \"v\"|body <a(^252 y^) []>| => 288 bytes
l 5 0 1|8 g \"v\"|body <a(^253 y^) []>| => Form
l 5 0 1|200 (^253 y^) (1^252  1^)|body| => 536 bytes
l 5 0 1|200 (^254 y^) (1^253  1^)|body| => Form
l 5 0 1|8 g \"s\"|body \"^70000 a^\"| => 70029 bytes
l 5 0 1|8 g \"ay\"|body [0^70000  1^]| => 70029 bytes
l 1 0 1|1 o \"/\"|3 s \"^255 a^\"|body| => 296 bytes
l 1 0 1|1 o \"/\"|3 s \"^256 a^\"|body| => NotValid
";

fn add_repeated(row: &mut String, part: &str) -> Result<(), AllocError> {
    let (count, words) = part.split_once(' ').unwrap_or(("0", part));
    let count: u32 = count.parse().unwrap_or(0);
    for _ in 0..count {
        row.push_str(words)?;
    }
    Ok(())
}

/// A row with its repeated words.
fn repeated(alloc: Global, row: &str) -> Result<String, AllocError> {
    let mut whole = String::new(alloc);
    let mut is_repeated = false;
    for part in row.split('^') {
        if is_repeated {
            add_repeated(&mut whole, part)?;
        } else {
            whole.push_str(part)?;
        }
        is_repeated = !is_repeated;
    }
    Ok(whole)
}

fn told_nested(alloc: Global, row: &str) -> Result<String, AllocError> {
    let whole = repeated(alloc, row)?;
    told_len(alloc, &text_in(alloc, &whole)?)
}

#[test]
fn values_are_within_64_containers(rt: HostRuntime) -> Result<(), Fail> {
    assert_eq!(rt; wrong_row(rt.alloc(), NESTED, &told_nested)?, None);
    Ok(())
}

#[test]
fn signatures_have_at_most_255_codes(rt: HostRuntime) -> Result<(), Fail> {
    assert_eq!(rt; wrong_row(rt.alloc(), SIGNATURES, &told_nested)?, None);
    Ok(())
}
