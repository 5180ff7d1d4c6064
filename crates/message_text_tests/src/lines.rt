//! The lines of a text, and texts that differ from one by a separator.
use crate::rows::told;
use std::test::Fail;
use test_tables::wrong_row;

/// Texts, and the bytes of their messages.
const MESSAGES: &str = "\
l 1 0 2|1 o \"/\"|2 s \"org.freedesktop.DBus.Peer\"|3 s \"Ping\"|6 s \"org.freedesktop.DBus\"|body| => \
    l%01~%01~~~~%02~~~e~~~%01%01o~%01~~~/~~~~~~~%02%01s~%19~~~org.freedesktop.DBus.Peer~~~~~~~%03%01s~%04~~~Ping~~~~\
    %06%01s~%14~~~org.freedesktop.DBus~~~~
l 2 1 70|5 u 3|7 s \"org.freedesktop.DBus\"|8 g \"b\"|body false| => l%02%01%01%04~~~F~~~/~~~%05%01u~%03~~~%07%01s~%14~~~org.freedesktop.DBus~~~~%08%01g~%01b~~~~~~
l 4 0 1|1 o \"/\"|2 s \"a.b\"|3 s \"C\"|8 g \"nixd\"|body -32768 \
    -2147483648 -9223372036854775808 0x0102030405060708| => \
    l%04~%01%18~~~%01~~~:~~~%01%01o~%01~~~/~~~~~~~%02%01s~%03~~~a.b~~~~~%03%01s~%01~~~C~~~~~~~%08%01g~%04nixd~~~~~~~~\
    %80~~~~~%80~~~~~~~%80%01%02%03%04%05%06%07%08
B 2 1 70|5 u 3|8 g \"bqsas\"|body true 65535 \"\\\"\\\\\\x0a%C3%A9\" []| => B%02%01%01~~~%18~~~F~~~%13%05%01u~~~~%03%08%01g~%05bqsas~~~~~~~~~%01%FF%FF~~~~~%05\"\\%0A%C3%A9~~~~~~~
l 5 0 1|body| => l%05~%01~~~~%01~~~~~~~
B 5 0 1|body| => B%05~%01~~~~~~~%01~~~~
l 5 0 1|8 g \"yy\"|body 1 2| => l%05~%01%02~~~%01~~~%08~~~%08%01g~%02yy~%01%02
";

/// Texts that have another form.
const REFUSED: &str = "\
body| => Form
 => Form
| => Form
l 5 0 1| => Form
l 5 0 1|body => Form
l 5 0 1|bod| => Form
l 5 0 1|Body| => Form
l 5 0 1|bodybody| => Form
l 5 0 1| body| => Form
l 5 0 1|body | => Form
l 5 0 1|body|| => Form
l 5 0 1|body|  => Form
l 5 0 1|body|~ => Form
l 5 0 1|body|body| => Form
l 5 0 1|body|l 5 0 1|body| => Form
l 5 0 1|body|8 g \"\"| => Form
l 5 0 1|body%0D| => Form
l 5 0 1%0D|body| => Form
l 5 0 1%0D|body%0D| => Form
l 5 0 1%0Dbody%0D => Form
l 5 0 1||body| => Form
|l 5 0 1|body| => Form
 l 5 0 1|body| => Form
%EF%BB%BFl 5 0 1|body| => Form
l 5 0 1 |body| => Form
l 5 0 1%09|body| => Form
l  5 0 1|body| => Form
l 5  0 1|body| => Form
l 5 0  1|body| => Form
l%095 0 1|body| => Form
l 5%090 1|body| => Form
l 5 0%091|body| => Form
l5 0 1|body| => Form
l,5,0,1|body| => Form
l 5 0|body| => Form
l 5|body| => Form
l|body| => Form
5 0 1|body| => Form
l 5 0 1 1|body| => Form
l 5 0 1 body| => Form
l 5 0 1body| => Form
b 5 0 1|body| => Form
L 5 0 1|body| => Form
ll 5 0 1|body| => Form
little 5 0 1|body| => Form
~ 5 0 1|body| => Form
l 5 0 1|8 g \"yy\"|body 1 2 => Form
l 5 0 1|8 g \"yy\"|body 1  2| => Form
l 5 0 1|8 g \"yy\"|body  1 2| => Form
l 5 0 1|8 g \"yy\"|body 1 2 | => Form
l 5 0 1|8 g \"yy\"|body%091 2| => Form
l 5 0 1|8 g \"yy\"|body 1%092| => Form
l 5 0 1|8 g \"yy\"|body 1,2| => Form
l 5 0 1|8 g \"yy\"|body 1|2| => Form
l 5 0 1|8 g \"yy\"|body1 2| => Form
l 5 0 1|8 g \"yy\"|body|1 2| => Form
l 5 0 1|8 g \"yy\"|body| => Form
l 5 0 1|8 g \"yy\"|body | => Form
l 5 0 1|8 g \"yy\"|body 1| => Form
l 5 0 1|8 g \"yy\"|body 1 | => Form
l 5 0 1|8 g \"yy\"|body 1 2 3| => Form
l 5 0 1|8 g \"yy\"|body 1 2%0D| => Form
l 5 0 1|8 g \"yy\"|body 1 2|%0D| => Form
l 5 0 1|8 g \"yy\"|body 1 2~| => Form
l 5 0 1|8 g \"yy\"|body 1 \"2\"| => Form
l 5 0 1|8 g \"yy\"||body 1 2| => Form
l 5 0 1|8 g \"yy\" |body 1 2| => Form
l 5 0 1|8 g \"yy\"%0D|body 1 2| => Form
l 5 0 1|8 g  \"yy\"|body 1 2| => Form
l 5 0 1|8  g \"yy\"|body 1 2| => Form
l 5 0 1| 8 g \"yy\"|body 1 2| => Form
l 5 0 1|8 g%09\"yy\"|body 1 2| => Form
l 5 0 1|8%09g \"yy\"|body 1 2| => Form
l 5 0 1|8 g\"yy\"|body 1 2| => Form
l 5 0 1|8g \"yy\"|body 1 2| => Form
l 5 0 1|8 \"yy\"|body 1 2| => Form
l 5 0 1|g \"yy\"|body 1 2| => Form
l 5 0 1|8 g yy|body 1 2| => Form
l 5 0 1|8 g|body 1 2| => Form
l 5 0 1|8|body 1 2| => Form
l 5 0 1|8 g |body 1 2| => Form
l 5 0 1|8 g \"yy\" \"yy\"|body 1 2| => Form
l 5 0 1|8 g \"y y\"|body 1 2| => Form
l 5 0 1|8 gg \"yy\" \"yy\"|body 1 2| => Form
l 5 0 1|8  \"yy\"|body 1 2| => Form
l 5 0 1|10 z 1|body| => Form
l 5 0 1|10 a []|body| => Form
l 5 0 1|10 {sv} {\"a\" <y 1>}|body| => Form
l 5 0 1|10 (y (1)|body| => Form
l 5 0 1|10 yy 1 2|body| => Form
l 5 0 1|10 <y 1>|body| => Form
";

#[test]
fn texts_are_read(rt: HostRuntime) -> Result<(), Fail> {
    assert_eq!(rt; wrong_row(rt.alloc(), MESSAGES, &told)?, None);
    Ok(())
}

#[test]
fn texts_of_other_lines_are_refused(rt: HostRuntime) -> Result<(), Fail> {
    assert_eq!(rt; wrong_row(rt.alloc(), REFUSED, &told)?, None);
    Ok(())
}
