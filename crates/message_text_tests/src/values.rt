//! The values of each basic type.
use crate::rows::told;
use std::test::Fail;
use test_tables::wrong_row;

/// A text with the least and the greatest value of a type, and the bytes of its message.
const BOUNDS: &str = "\
l 5 0 1|8 g \"yy\"|body 0 255| => l%05~%01%02~~~%01~~~%08~~~%08%01g~%02yy~~%FF
B 5 0 1|8 g \"yy\"|body 0 255| => B%05~%01~~~%02~~~%01~~~%08%08%01g~%02yy~~%FF
l 5 0 1|8 g \"bb\"|body false true| => l%05~%01%08~~~%01~~~%08~~~%08%01g~%02bb~~~~~%01~~~
B 5 0 1|8 g \"bb\"|body false true| => B%05~%01~~~%08~~~%01~~~%08%08%01g~%02bb~~~~~~~~%01
l 5 0 1|8 g \"nn\"|body -32768 32767| => l%05~%01%04~~~%01~~~%08~~~%08%01g~%02nn~~%80%FF%7F
B 5 0 1|8 g \"nn\"|body -32768 32767| => B%05~%01~~~%04~~~%01~~~%08%08%01g~%02nn~%80~%7F%FF
l 5 0 1|8 g \"qq\"|body 0 65535| => l%05~%01%04~~~%01~~~%08~~~%08%01g~%02qq~~~%FF%FF
B 5 0 1|8 g \"qq\"|body 0 65535| => B%05~%01~~~%04~~~%01~~~%08%08%01g~%02qq~~~%FF%FF
l 5 0 1|8 g \"ii\"|body -2147483648 2147483647| => l%05~%01%08~~~%01~~~%08~~~%08%01g~%02ii~~~~%80%FF%FF%FF%7F
B 5 0 1|8 g \"ii\"|body -2147483648 2147483647| => B%05~%01~~~%08~~~%01~~~%08%08%01g~%02ii~%80~~~%7F%FF%FF%FF
l 5 0 1|8 g \"uu\"|body 0 4294967295| => l%05~%01%08~~~%01~~~%08~~~%08%01g~%02uu~~~~~%FF%FF%FF%FF
B 5 0 1|8 g \"uu\"|body 0 4294967295| => B%05~%01~~~%08~~~%01~~~%08%08%01g~%02uu~~~~~%FF%FF%FF%FF
l 5 0 1|8 g \"xx\"|body -9223372036854775808 9223372036854775807| => l%05~%01%10~~~%01~~~%08~~~%08%01g~%02xx~~~~~~~~%80%FF%FF%FF%FF%FF%FF%FF%7F
B 5 0 1|8 g \"xx\"|body -9223372036854775808 9223372036854775807| => B%05~%01~~~%10~~~%01~~~%08%08%01g~%02xx~%80~~~~~~~%7F%FF%FF%FF%FF%FF%FF%FF
l 5 0 1|8 g \"tt\"|body 0 18446744073709551615| => l%05~%01%10~~~%01~~~%08~~~%08%01g~%02tt~~~~~~~~~%FF%FF%FF%FF%FF%FF%FF%FF
B 5 0 1|8 g \"tt\"|body 0 18446744073709551615| => B%05~%01~~~%10~~~%01~~~%08%08%01g~%02tt~~~~~~~~~%FF%FF%FF%FF%FF%FF%FF%FF
l 5 0 1|8 g \"dd\"|body 0x0000000000000000 0xffffffffffffffff| => l%05~%01%10~~~%01~~~%08~~~%08%01g~%02dd~~~~~~~~~%FF%FF%FF%FF%FF%FF%FF%FF
B 5 0 1|8 g \"dd\"|body 0x0000000000000000 0xffffffffffffffff| => B%05~%01~~~%10~~~%01~~~%08%08%01g~%02dd~~~~~~~~~%FF%FF%FF%FF%FF%FF%FF%FF
l 5 0 1|8 g \"dd\"|body 0xffffffffffffefff 0xffffffffffffef7f| => l%05~%01%10~~~%01~~~%08~~~%08%01g~%02dd~%FF%FF%FF%FF%FF%FF%EF%FF%FF%FF%FF%FF%FF%FF%EF%7F
B 5 0 1|8 g \"dd\"|body 0xffefffffffffffff 0x7fefffffffffffff| => B%05~%01~~~%10~~~%01~~~%08%08%01g~%02dd~%FF%EF%FF%FF%FF%FF%FF%FF%7F%EF%FF%FF%FF%FF%FF%FF
l 5 0 1|8 g \"hh\"|body 0 4294967295| => l%05~%01%08~~~%01~~~%08~~~%08%01g~%02hh~~~~~%FF%FF%FF%FF
B 5 0 1|8 g \"hh\"|body 0 4294967295| => B%05~%01~~~%08~~~%01~~~%08%08%01g~%02hh~~~~~%FF%FF%FF%FF
l 5 0 1|8 g \"ss\"|body \"\" \"%F4%8F%BF%BF\"| => l%05~%01%11~~~%01~~~%08~~~%08%01g~%02ss~~~~~~~~~%04~~~%F4%8F%BF%BF~
B 5 0 1|8 g \"ss\"|body \"\" \"%F4%8F%BF%BF\"| => B%05~%01~~~%11~~~%01~~~%08%08%01g~%02ss~~~~~~~~~~~~%04%F4%8F%BF%BF~
l 5 0 1|8 g \"oo\"|body \"/\" \"/0/_z/Z9\"| => l%05~%01%15~~~%01~~~%08~~~%08%01g~%02oo~%01~~~/~~~%08~~~/0/_z/Z9~
B 5 0 1|8 g \"oo\"|body \"/\" \"/0/_z/Z9\"| => B%05~%01~~~%15~~~%01~~~%08%08%01g~%02oo~~~~%01/~~~~~~%08/0/_z/Z9~
l 5 0 1|8 g \"gg\"|body \"\" \"ybnqiuxtdhsogva{s(ai)}\"| => l%05~%01%1A~~~%01~~~%08~~~%08%01g~%02gg~~~%16ybnqiuxtdhsogva{s(ai)}~
B 5 0 1|8 g \"gg\"|body \"\" \"ybnqiuxtdhsogva{s(ai)}\"| => B%05~%01~~~%1A~~~%01~~~%08%08%01g~%02gg~~~%16ybnqiuxtdhsogva{s(ai)}~
";

/// Texts of values that zeros precede, up to a multiple of their alignment, and the bytes of their messages.
const ALIGNED: &str = "\
l 5 0 1|8 g \"ynyiyxydysyoyg\"|body 1 -2 3 -4 5 -6 7 0x0000000000002040 9 \"a\" 10 \"/\" 11 \"s\"| => \
    l%05~%01>~~~%01~~~%14~~~%08%01g~%0Eynyiyxydysyoyg~~~~~%01~%FE%FF%03~~~%FC%FF%FF%FF%05~~~%FA%FF%FF%FF%FF%FF%FF%FF\
    %07~~~~~~~~~~~~~ @%09~~~%01~~~a~%0A~%01~~~/~%0B%01s~
B 5 0 1|8 g \"ynyiyxydysyoyg\"|body 1 -2 3 -4 5 -6 7 0x4020000000000000 9 \"a\" 10 \"/\" 11 \"s\"| => \
    B%05~%01~~~>~~~%01~~~%14%08%01g~%0Eynyiyxydysyoyg~~~~~%01~%FF%FE%03~~~%FF%FF%FF%FC%05~~~%FF%FF%FF%FF%FF%FF%FF%FA\
    %07~~~~~~~@ ~~~~~~%09~~~~~~%01a~%0A~~~~%01/~%0B%01s~
l 5 0 1|8 g \"yyyyyyybyyyyyt\"|body 1 2 3 4 5 6 7 true 8 9 10 11 12 72623859790382856| => \
    l%05~%01 ~~~%01~~~%14~~~%08%01g~%0Eyyyyyyybyyyyyt~~~~~%01%02%03%04%05%06%07~%01~~~%08%09%0A%0B%0C~~~~~~~%08%07%06\
    %05%04%03%02%01
B 5 0 1|8 g \"yyyyyyybyyyyyt\"|body 1 2 3 4 5 6 7 true 8 9 10 11 12 72623859790382856| => \
    B%05~%01~~~ ~~~%01~~~%14%08%01g~%0Eyyyyyyybyyyyyt~~~~~%01%02%03%04%05%06%07~~~~%01%08%09%0A%0B%0C~~~~~~~%01%02%03\
    %04%05%06%07%08
";

#[test]
fn the_least_and_the_greatest_value_of_each_type_are_read(rt: HostRuntime) -> Result<(), Fail> {
    assert_eq!(rt; wrong_row(rt.alloc(), BOUNDS, &told)?, None);
    Ok(())
}

#[test]
fn values_are_aligned_by_zeros(rt: HostRuntime) -> Result<(), Fail> {
    assert_eq!(rt; wrong_row(rt.alloc(), ALIGNED, &told)?, None);
    Ok(())
}
