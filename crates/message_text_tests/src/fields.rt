//! Header fields, flags and message types.
use crate::counts::Counts;
use crate::rows::{text_in, told};
use std::alloc::{AllocError, Global};
use std::test::Fail;
use test_tables::wrong_row;

/// The body's types are those of the first field of code 8 and type `g` whose value is a valid signature. If the body's
/// values have other types, the text is Form. If they have these, but the fields are those of no valid message, it is
/// NotValid.
const SIGNATURES: &str = "\
l 5 0 1|8 g \"y\"|body 1| => l%05~%01%01~~~%01~~~%07~~~%08%01g~%01y~~%01
l 5 0 1|8 g \"\"|body| => l%05~%01~~~~%01~~~%06~~~%08%01g~~~~~
l 5 0 1|8 g \"\"|body 1| => Form
l 5 0 1|body 1| => Form
l 5 0 1|10 g \"y\"|body| => l%05~%01~~~~%01~~~%07~~~%0A%01g~%01y~~
l 5 0 1|10 g \"y\"|body 1| => Form
l 5 0 1|18 g \"y\"|body 1| => Form
l 5 0 1|10 g \"y\"|8 g \"s\"|11 g \"u\"|body \"a\"| => l%05~%01%06~~~%01~~~%17~~~%0A%01g~%01y~~%08%01g~%01s~~%0B%01g~%01u~~%01~~~a~
l 5 0 1|8 g \"y\"|8 g \"y\"|body 1| => NotValid
l 5 0 1|8 g \"y\"|8 g \"s\"|body 1| => NotValid
l 5 0 1|8 g \"y\"|8 g \"s\"|body \"a\"| => Form
l 5 0 1|8 g \"y\"|8 g \"s\"|body 1 \"a\"| => Form
l 5 0 1|8 g \"\"|8 g \"y\"|body| => NotValid
l 5 0 1|8 g \"\"|8 g \"y\"|body 1| => Form
l 5 0 1|8 g \"z\"|body| => NotValid
l 5 0 1|8 g \"z\"|body 1| => Form
l 5 0 1|8 g \"yz\"|body 1| => Form
l 5 0 1|8 g \"a\"|body| => NotValid
l 5 0 1|8 g \"(\"|body| => NotValid
l 5 0 1|8 g \"()\"|body| => NotValid
l 5 0 1|8 g \"{yy}\"|body| => NotValid
l 5 0 1|8 g \"y \"|body| => NotValid
l 5 0 1|8 g \"y\\x0a\"|body| => NotValid
l 5 0 1|8 g \"%C3%A9\"|body| => NotValid
l 5 0 1|8 g \"z\"|8 g \"y\"|body| => Form
l 5 0 1|8 g \"z\"|8 g \"y\"|body 1| => NotValid
l 5 0 1|8 g \"z\"|8 g \"a\"|8 g \"y\"|8 g \"s\"|body 1| => NotValid
l 5 0 1|8 s \"y\"|body| => NotValid
l 5 0 1|8 s \"y\"|body 1| => Form
l 5 0 1|8 o \"/\"|body| => NotValid
l 5 0 1|8 v <g \"y\">|body| => NotValid
l 5 0 1|8 v <g \"y\">|body 1| => Form
l 5 0 1|8 ag [\"y\"]|body| => NotValid
l 5 0 1|8 ag [\"y\"]|body 1| => Form
l 5 0 1|8 (g) (\"y\")|body 1| => Form
l 5 0 1|8 s \"y\"|8 g \"y\"|body| => Form
l 5 0 1|8 s \"y\"|8 g \"y\"|body 1| => NotValid
l 0 0 1|8 g \"y\"|body 1| => NotValid
l 5 0 0|8 g \"y\"|body 1| => NotValid
l 5 0 0|8 g \"y\"|body \"a\"| => Form
";

/// Fields in any order, some with codes that the D-Bus Specification doesn't name, whose values may be of any type.
const FIELDS: &str = "\
l 1 0 1|3 s \"A\"|1 o \"/\"|body| => l%01~%01~~~~%01~~~%1A~~~%03%01s~%01~~~A~~~~~~~%01%01o~%01~~~/~~~~~~~
l 1 0 1|8 g \"s\"|6 s \":1.2\"|3 s \"A\"|7 s \"a-b.c\"|2 s \"a.b\"|9 u 0|1 o \"/a\"|body \"b\"| => \
    l%01~%01%06~~~%01~~~[~~~%08%01g~%01s~~%06%01s~%04~~~:1.2~~~~%03%01s~%01~~~A~~~~~~~%07%01s~%05~~~a-b.c~~~%02%01s~\
    %03~~~a.b~~~~~%09%01u~~~~~%01%01o~%02~~~/a~~~~~~%01~~~b~
B 3 255 4294967295|5 u 4294967295|4 s \"a.b\"|body| => B%03%FF%01~~~~%FF%FF%FF%FF~~~%14%05%01u~%FF%FF%FF%FF%04%01s~~~~%03a.b~~~~~
l 2 3 9|8 g \"y\"|5 u 1|body 2| => l%02%03%01%01~~~%09~~~%10~~~%08%01g~%01y~~%05%01u~%01~~~%02
l 5 0 1|10 y 1|body| => l%05~%01~~~~%01~~~%05~~~%0A%01y~%01~~~
l 5 0 1|255 a{sv} [{\"a\" <y 1>} {\"b\" <s \"\">}]|body| => l%05~%01~~~~%01~~~1~~~%FF%05a{sv}~!~~~~~~~%01~~~a~%01y~%01~~~~~~%01~~~b~%01s~~~~~~~~~~~~~~~~
l 5 0 1|200 (yv) (1 <ay [2 3]>)|10 b true|255 x -1|10 y 2|10 y 2|body| => \
    l%05~%01~~~~%01~~~=~~~%C8%04(yv)~~%01%02ay~~~~%02~~~%02%03~~%0A%01b~%01~~~%FF%01x~~~~~%FF%FF%FF%FF%FF%FF%FF%FF%0A\
    %01y~%02~~~%0A%01y~%02~~~
B 4 128 1|200 as []|1 o \"/\"|3 s \"A\"|100 v <v <g \"\">>|2 s \"a.b\"|body| => \
    B%04%80%01~~~~~~~%01~~~L%C8%02as~~~~~~~~~~~~%01%01o~~~~%01/~~~~~~~%03%01s~~~~%01A~~~~~~~d%01v~%01v~%01g~~~~~~~%02\
    %01s~~~~%03a.b~~~~~
l 255 254 1|1 o \"/\"|2 s \"a.b\"|3 s \"C\"|4 s \"d.e\"|5 u 6|6 s \"f.g\"|7 s \":h.i\"|8 g \"ay\"|9 u 0|\
    10 d 0x0000000000000000|body [7]| => l%FF%FE%01%05~~~%01~~~%88~~~%01%01o~%01~~~/~~~~~~~%02%01s~%03~~~a.b~~~~~%03\
    %01s~%01~~~C~~~~~~~%04%01s~%03~~~d.e~~~~~%05%01u~%06~~~%06%01s~%03~~~f.g~~~~~%07%01s~%04~~~:h.i~~~~%08%01g~%02ay~\
    %09%01u~~~~~%0A%01d~~~~~~~~~~~~~%01~~~%07
";

/// Fields that no valid message has.
const REFUSED: &str = "\
l 5 0 1|0 y 1|body| => NotValid
l 5 0 1|0 s \"\"|body| => NotValid
l 5 0 1|1 o \"/\"|1 o \"/\"|body| => NotValid
l 5 0 1|1 s \"/\"|body| => NotValid
l 5 0 1|2 s \"a\"|body| => NotValid
l 5 0 1|2 o \"/a/b\"|body| => NotValid
l 5 0 1|2 s \"a.b\"|3 s \"C\"|2 s \"a.b\"|body| => NotValid
l 5 0 1|3 s \"A.B\"|body| => NotValid
l 5 0 1|3 s \"\"|body| => NotValid
l 5 0 1|4 s \"a.1\"|body| => NotValid
l 5 0 1|5 u 0|body| => NotValid
l 5 0 1|5 i 1|body| => NotValid
l 5 0 1|5 t 1|body| => NotValid
l 5 0 1|5 u 1|5 u 2|body| => NotValid
l 5 0 1|6 s \":1\"|body| => NotValid
l 5 0 1|6 s \"a..b\"|body| => NotValid
l 5 0 1|7 s \"1.a\"|body| => NotValid
l 5 0 1|7 s \"\"|body| => NotValid
l 5 0 1|9 u 1|body| => NotValid
l 5 0 1|9 h 0|body| => NotValid
l 5 0 1|9 u 0|9 u 0|body| => NotValid
l 1 0 1|body| => NotValid
l 1 0 1|1 o \"/\"|body| => NotValid
l 1 0 1|3 s \"A\"|body| => NotValid
l 2 0 1|body| => NotValid
l 3 0 1|5 u 1|body| => NotValid
l 3 0 1|4 s \"a.b\"|body| => NotValid
l 4 0 1|1 o \"/\"|3 s \"A\"|body| => NotValid
l 4 0 1|1 o \"/\"|2 s \"a.b\"|body| => NotValid
l 4 0 1|2 s \"a.b\"|3 s \"A\"|body| => NotValid
l 0 0 1|body| => NotValid
l 5 0 0|body| => NotValid
l 1 0 1|3 s \"Ping\"|1 o \"x\"|body| => NotValid
";

/// A text, and how many of the texts with a number from 0 to 256 in the place of `*` are read.
const EACH_NUMBER: &str = "\
l * 0 1|body| => 251 read, 5 NotValid, 1 Form, 0 printed otherwise
B * 255 4294967295|1 o \"/\"|2 s \"a.b\"|3 s \"C\"|4 s \"a.b\"|5 u 1|body| => 255 read, 1 NotValid, 1 Form, 0 printed otherwise
l 5 * 1|body| => 256 read, 0 NotValid, 1 Form, 0 printed otherwise
B 1 * 1|1 o \"/\"|3 s \"A\"|body| => 256 read, 0 NotValid, 1 Form, 0 printed otherwise
l 5 0 *|body| => 256 read, 1 NotValid, 0 Form, 0 printed otherwise
l 5 0 1|* y 1|body| => 246 read, 10 NotValid, 1 Form, 0 printed otherwise
l 5 0 1|* u 1|body| => 247 read, 9 NotValid, 1 Form, 0 printed otherwise
l 5 0 1|* s \"a.b\"|body| => 250 read, 6 NotValid, 1 Form, 0 printed otherwise
l 5 0 1|* s \"A\"|body| => 247 read, 9 NotValid, 1 Form, 0 printed otherwise
l 5 0 1|* s \":1.0\"|body| => 248 read, 8 NotValid, 1 Form, 0 printed otherwise
l 5 0 1|* o \"/\"|body| => 247 read, 9 NotValid, 1 Form, 0 printed otherwise
l 5 0 1|* g \"\"|body| => 247 read, 9 NotValid, 1 Form, 0 printed otherwise
l 5 0 1|* g \"y\"|body 1| => 1 read, 0 NotValid, 256 Form, 0 printed otherwise
l 5 0 1|* v <u 1>|body| => 246 read, 10 NotValid, 1 Form, 0 printed otherwise
l 1 0 1|1 o \"/\"|3 s \"A\"|* s \"a.b\"|body| => 250 read, 6 NotValid, 1 Form, 0 printed otherwise
";

fn told_with_each_number(alloc: Global, row: &str) -> Result<String, AllocError> {
    let (before, after) = row.split_once('*').unwrap_or((row, ""));
    let mut counts = Counts::new();
    for number in 0..=256_u32 {
        let changed = format!(in alloc; "{before}{number}{after}")?;
        counts.add(alloc, &text_in(alloc, &changed)?)?;
    }
    counts.told(alloc)
}

#[test]
fn the_first_signature_field_states_the_bodys_types(rt: HostRuntime) -> Result<(), Fail> {
    assert_eq!(rt; wrong_row(rt.alloc(), SIGNATURES, &told)?, None);
    Ok(())
}

#[test]
fn fields_are_read_in_their_order(rt: HostRuntime) -> Result<(), Fail> {
    assert_eq!(rt; wrong_row(rt.alloc(), FIELDS, &told)?, None);
    Ok(())
}

#[test]
fn fields_of_no_valid_message_are_refused(rt: HostRuntime) -> Result<(), Fail> {
    assert_eq!(rt; wrong_row(rt.alloc(), REFUSED, &told)?, None);
    Ok(())
}

#[test]
fn types_flags_and_codes_of_any_number_are_read(rt: HostRuntime) -> Result<(), Fail> {
    assert_eq!(rt;
        wrong_row(rt.alloc(), EACH_NUMBER, &told_with_each_number)?,
        None
    );
    Ok(())
}
