//! Texts in quotes.
use crate::rows::told;
use std::test::Fail;
use test_tables::wrong_row;

/// Strings of each kind of character, and the bytes of their messages.
const CHARACTERS: &str = "\
l 5 0 1|8 g \"s\"|body \" !#$%25&'()*+,-./0123456789:;<=>?@\"| => l%05~%01%25~~~%01~~~%07~~~%08%01g~%01s~~ ~~~ !#$%25&'()*+,-./0123456789:;<=>?@~
l 5 0 1|8 g \"s\"|body \"ABCDEFGHIJKLMNOPQRSTUVWXYZ[]^_`\"| => l%05~%01$~~~%01~~~%07~~~%08%01g~%01s~~%1F~~~ABCDEFGHIJKLMNOPQRSTUVWXYZ[]^_`~
l 5 0 1|8 g \"s\"|body \"abcdefghijklmnopqrstuvwxyz{%7C}%7E\"| => l%05~%01#~~~%01~~~%07~~~%08%01g~%01s~~%1E~~~abcdefghijklmnopqrstuvwxyz{|}%7E~
l 5 0 1|8 g \"s\"|body \"\\\"\"| => l%05~%01%06~~~%01~~~%07~~~%08%01g~%01s~~%01~~~\"~
l 5 0 1|8 g \"s\"|body \"\\\\\"| => l%05~%01%06~~~%01~~~%07~~~%08%01g~%01s~~%01~~~\\~
l 5 0 1|8 g \"s\"|body \"\\\"\\\\\\\"\\\\\\\\\\\"\\\"\"| => l%05~%01%0C~~~%01~~~%07~~~%08%01g~%01s~~%07~~~\"\\\"\\\\\"\"~
l 5 0 1|8 g \"s\"|body \"\\\\x0a\"| => l%05~%01%09~~~%01~~~%07~~~%08%01g~%01s~~%04~~~\\x0a~
l 5 0 1|8 g \"s\"|body \"\\x01\\x02\\x03\\x04\\x05\\x06\\x07\\x08\\x09\\x0a\\x0b\\x0c\\x0d\\x0e\\x0f\"| => l%05~%01%14~~~%01~~~%07~~~%08%01g~%01s~~%0F~~~%01%02%03%04%05%06%07%08%09%0A%0B%0C%0D%0E%0F~
l 5 0 1|8 g \"s\"|body \"\\x10\\x11\\x12\\x13\\x14\\x15\\x16\\x17\\x18\\x19\\x1a\\x1b\\x1c\\x1d\\x1e\\x1f\\x7f\"| => \
    l%05~%01%16~~~%01~~~%07~~~%08%01g~%01s~~%11~~~%10%11%12%13%14%15%16%17%18%19%1A%1B%1C%1D%1E%1F%7F~
l 5 0 1|8 g \"s\"|body \"\\x0a0\\x7f7\"| => l%05~%01%09~~~%01~~~%07~~~%08%01g~%01s~~%04~~~%0A0%7F7~
l 5 0 1|8 g \"s\"|body \"%C2%80%C2%85%C3%A9%DF%BF\"| => l%05~%01%0D~~~%01~~~%07~~~%08%01g~%01s~~%08~~~%C2%80%C2%85%C3%A9%DF%BF~
l 5 0 1|8 g \"s\"|body \"%E0%A0%80%E2%80%A8%E2%82%AC%ED%9F%BF%EE%80%80%EF%BB%BF%EF%BF%BE%EF%BF%BF\"| => \
    l%05~%01%1D~~~%01~~~%07~~~%08%01g~%01s~~%18~~~%E0%A0%80%E2%80%A8%E2%82%AC%ED%9F%BF%EE%80%80%EF%BB%BF%EF%BF%BE%EF\
    %BF%BF~
l 5 0 1|8 g \"s\"|body \"%F0%90%80%80%F0%9F%98%80%F4%8F%BF%BF\"| => l%05~%01%11~~~%01~~~%07~~~%08%01g~%01s~~%0C~~~%F0%90%80%80%F0%9F%98%80%F4%8F%BF%BF~
B 5 0 1|8 g \"s\"|body \"a%C3%A9%E2%82%AC%F0%9F%98%80\\x0a\"| => B%05~%01~~~%10~~~%01~~~%07%08%01g~%01s~~~~~%0Ba%C3%A9%E2%82%AC%F0%9F%98%80%0A~
l 5 0 1|10 s \"%F0%9F%98%80\\\"\\\\\\x7f\"|body| => l%05~%01~~~~%01~~~%10~~~%0A%01s~%07~~~%F0%9F%98%80\"\\%7F~
";

/// A NUL can be spelled in quotes, but no string, path or signature of a message has one.
const NULS: &str = "\
l 5 0 1|8 g \"s\"|body \"\\x00\"| => NotValid
l 5 0 1|8 g \"s\"|body \"a\\x00b\"| => NotValid
l 5 0 1|8 g \"o\"|body \"/\\x00\"| => NotValid
l 5 0 1|8 g \"g\"|body \"y\\x00\"| => NotValid
l 5 0 1|8 g \"v\"|body <s \"\\x00\">| => NotValid
l 5 0 1|10 s \"\\x00\"|body| => NotValid
l 5 0 1|8 g \"\\x00\"|body| => NotValid
l 5 0 1|8 g \"s\"|body \"~\"| => Form
";

/// Other escapes, bytes that have to be escaped and texts that aren't UTF-8 are Form. Paths and signatures that aren't
/// valid are NotValid.
const REFUSED: &str = "\
l 5 0 1|8 g \"s\"|body \"%09\"| => Form
l 5 0 1|8 g \"s\"|body \"%0D\"| => Form
l 5 0 1|8 g \"s\"|body \"|\"| => Form
l 5 0 1|8 g \"s\"|body \"%1F\"| => Form
l 5 0 1|8 g \"s\"|body \"%7F\"| => Form
l 5 0 1|8 g \"s\"|body \"\"\"| => Form
l 5 0 1|8 g \"s\"|body \"\\\"| => Form
l 5 0 1|8 g \"s\"|body \"\\a\"| => Form
l 5 0 1|8 g \"s\"|body \"\\n\"| => Form
l 5 0 1|8 g \"s\"|body \"\\t\"| => Form
l 5 0 1|8 g \"s\"|body \"\\'\"| => Form
l 5 0 1|8 g \"s\"|body \"\\/\"| => Form
l 5 0 1|8 g \"s\"|body \"\\0\"| => Form
l 5 0 1|8 g \"s\"|body \"\\u000a\"| => Form
l 5 0 1|8 g \"s\"|body \"\\x\"| => Form
l 5 0 1|8 g \"s\"|body \"\\x0\"| => Form
l 5 0 1|8 g \"s\"|body \"\\x0g\"| => Form
l 5 0 1|8 g \"s\"|body \"\\xa\"| => Form
l 5 0 1|8 g \"s\"|body \"\\x0A\"| => Form
l 5 0 1|8 g \"s\"|body \"\\X0a\"| => Form
l 5 0 1|8 g \"s\"|body \"\\x1F\"| => Form
l 5 0 1|8 g \"s\"|body \"\\x7F\"| => Form
l 5 0 1|8 g \"s\"|body \"\\x20\"| => Form
l 5 0 1|8 g \"s\"|body \"\\x22\"| => Form
l 5 0 1|8 g \"s\"|body \"\\x5c\"| => Form
l 5 0 1|8 g \"s\"|body \"\\x61\"| => Form
l 5 0 1|8 g \"s\"|body \"\\x7e\"| => Form
l 5 0 1|8 g \"s\"|body \"\\x80\"| => Form
l 5 0 1|8 g \"s\"|body \"\\xc3\\xa9\"| => Form
l 5 0 1|8 g \"s\"|body \"\\xff\"| => Form
l 5 0 1|8 g \"s\"|body 'a'| => Form
l 5 0 1|8 g \"s\"|body a| => Form
l 5 0 1|8 g \"s\"|body \"a| => Form
l 5 0 1|8 g \"s\"|body a\"| => Form
l 5 0 1|8 g \"s\"|body \"a\"b| => Form
l 5 0 1|8 g \"s\"|body \"a\"\"b\"| => Form
l 5 0 1|8 g \"s\"|body %E2%80%9Ca%E2%80%9D| => Form
l 5 0 1|8 g \"s\"|body \"%80\"| => Form
l 5 0 1|8 g \"s\"|body \"%BF\"| => Form
l 5 0 1|8 g \"s\"|body \"%C3\"| => Form
l 5 0 1|8 g \"s\"|body \"%C3\\xa9\"| => Form
l 5 0 1|8 g \"s\"|body \"%E2%82\"| => Form
l 5 0 1|8 g \"s\"|body \"%F0%9F%98\"| => Form
l 5 0 1|8 g \"s\"|body \"%C0%80\"| => Form
l 5 0 1|8 g \"s\"|body \"%C1%BF\"| => Form
l 5 0 1|8 g \"s\"|body \"%E0%80%80\"| => Form
l 5 0 1|8 g \"s\"|body \"%E0%9F%BF\"| => Form
l 5 0 1|8 g \"s\"|body \"%ED%A0%80\"| => Form
l 5 0 1|8 g \"s\"|body \"%ED%BF%BF\"| => Form
l 5 0 1|8 g \"s\"|body \"%F0%8F%BF%BF\"| => Form
l 5 0 1|8 g \"s\"|body \"%F4%90%80%80\"| => Form
l 5 0 1|8 g \"s\"|body \"%F5%80%80%80\"| => Form
l 5 0 1|8 g \"s\"|body \"%FE\"| => Form
l 5 0 1|8 g \"s\"|body \"%FF\"| => Form
l 5 0 1|8 g \"o\"|body \"%FF\"| => Form
l 5 0 1|8 g \"g\"|body \"%FF\"| => Form
l 5 0 1|8 g \"g\"|body \"%C3%A9\"| => NotValid
l 5 0 1|8 g \"g\"|body \"\\x0a\"| => NotValid
l 5 0 1|8 g \"g\"|body \"z\"| => NotValid
l 5 0 1|8 g \"g\"|body \"a\"| => NotValid
l 5 0 1|8 g \"g\"|body \"()\"| => NotValid
l 5 0 1|8 g \"g\"|body \"{sv}\"| => NotValid
l 5 0 1|8 g \"g\"|body \"a{vs}\"| => NotValid
l 5 0 1|8 g \"o\"|body \"\"| => NotValid
l 5 0 1|8 g \"o\"|body \"a\"| => NotValid
l 5 0 1|8 g \"o\"|body \"/a/\"| => NotValid
l 5 0 1|8 g \"o\"|body \"//\"| => NotValid
l 5 0 1|8 g \"o\"|body \"/%C3%A9\"| => NotValid
l 5 0 1|8 g \"o\"|body \"/\\x0a\"| => NotValid
";

#[test]
fn characters_are_escaped_only_if_they_have_to_be(rt: HostRuntime) -> Result<(), Fail> {
    assert_eq!(rt; wrong_row(rt.alloc(), CHARACTERS, &told)?, None);
    Ok(())
}

#[test]
fn no_valid_message_has_a_nul_in_a_text(rt: HostRuntime) -> Result<(), Fail> {
    assert_eq!(rt; wrong_row(rt.alloc(), NULS, &told)?, None);
    Ok(())
}

#[test]
fn other_escapes_and_other_bytes_in_quotes_are_refused(rt: HostRuntime) -> Result<(), Fail> {
    assert_eq!(rt; wrong_row(rt.alloc(), REFUSED, &told)?, None);
    Ok(())
}
