//! What a client is shown of messages of the bus.
use crate::known::{Known, everything, everything_under};
use crate::messages::message;
use crate::whole::is_whole;
use dbus_header::{Message, Places, decode};
use policy_view::Showing;
use std::alloc::{AllocError, Global};
use std::test::Fail;
use test_tables::wrong_row;
use verdicts::show;

/// Messages of the bus, and what is shown.
const SHOWN: &str = "\
type_9 from=:1.2 => Hide(UnknownType)
return reply=8 from=:1.2 => Hide(NotExpected)
error error=org.a.E reply=8 from=:1.2 => Hide(NotExpected)
return reply=1 from=:1.9 => Reply(11)
error error=org.a.E reply=1 from=:1.9 => Reply(11)
return reply=2 signature=s text=:1.6 => Reply(12)
error error=org.a.E reply=2 => Reply(12)
return reply=3 signature=as no_texts => Cut(13)
return reply=3 signature=s text=org.a.See => Hide(BadArgument)
return reply=3 signature=asas no_texts no_texts => Hide(BadArgument)
return reply=3 => Hide(BadArgument)
error error=org.a.E reply=3 signature=s text=no => Reply(13)
return reply=4 => Instead { order: Big, reply: 14, what: False }
error error=org.a.E reply=4 => Instead { order: Big, reply: 14, what: False }
return reply=5 => Hide(OwnAnswer)
error error=org.a.E reply=6 => Hide(OwnAnswer)
return reply=6 signature=s text=:1.1 => Hide(OwnAnswer)
return reply=7 signature=as no_texts => Hide(OwnAnswer)
call path=/ member=A from=:1.9 to=:1.6 => Whole
call path=/ member=A from=:1.9 => Whole
call path=/ member=A reply=5 from=:1.9 => Whole
signal path=/ interface=org.freedesktop.DBus member=NameOwnerChanged from=org.freedesktop.DBus signature=sss text=org.a.See text= text=:1.1 => Whole
signal path=/ interface=org.freedesktop.DBus member=NameOwnerChanged from=org.freedesktop.DBus signature=sss text=org.a.No text= text=:1.9 => Hide(NameHidden)
signal path=/ interface=org.freedesktop.DBus member=NameOwnerChanged from=org.freedesktop.DBus signature=sss text=:1.5 text=:1.5 text= => Whole
signal path=/ interface=org.freedesktop.DBus member=NameOwnerChanged from=org.freedesktop.DBus signature=sss text=:1.9 text=:1.5 text=:1.1 => Hide(NameHidden)
signal path=/ interface=org.freedesktop.DBus member=NameOwnerChanged from=org.freedesktop.DBus signature=ss text=org.a.See text= => Hide(BadArgument)
signal path=/ interface=org.freedesktop.DBus member=NameOwnerChanged from=org.freedesktop.DBus signature=ssss text=org.a.See text= text= text= => Hide(BadArgument)
signal path=/ interface=org.freedesktop.DBus member=NameOwnerChanged from=org.freedesktop.DBus => Hide(BadArgument)
signal path=/ interface=org.freedesktop.DBus member=NameOwnerChanged from=org.freedesktop.DBus to=:1.6 signature=sss text=org.a.No text= text=:1.9 => Hide(NameHidden)
signal path=/ interface=org.freedesktop.DBus member=NameOwnerChanged from=:1.1 signature=sss text=org.a.See text= text=:1.1 => Hide(SenderNotTalk)
signal path=/ interface=org.freedesktop.DBus member=NameOwnerChanged from=:1.2 signature=sss text=org.a.No text= text=:1.1 => Whole
signal path=/ interface=org.freedesktop.DBus member=NameAcquired from=org.freedesktop.DBus to=:1.6 signature=s text=org.a.No => Whole
signal path=/ interface=org.freedesktop.DBus member=NameAcquired from=org.freedesktop.DBus signature=s text=org.a.No => Whole
signal path=/ interface=org.a.I member=S from=:1.9 to=:1.6 => Whole
signal path=/ interface=org.a.I member=S from=:1.2 => Whole
signal path=/ interface=org.a.I member=S from=:1.3 => Whole
signal path=/ interface=org.a.I member=S from=:1.6 => Whole
signal path=/p interface=org.a.I member=A from=:1.4 => Hide(SenderNotTalk)
signal path=/p interface=org.a.I member=S from=:1.7 => Whole
signal path=/ interface=org.a.I member=S from=:1.7 => Hide(SenderNotTalk)
signal path=/p interface=org.a.I member=T from=:1.7 => Hide(SenderNotTalk)
signal path=/p interface=org.a.I member=S from=:1.1 => Hide(SenderNotTalk)
signal path=/p interface=org.a.I member=S from=:1.5 => Hide(SenderNotTalk)
signal path=/p interface=org.a.I member=S from=:1.9 => Hide(SenderNotTalk)
signal path=/p interface=org.a.I member=S => Hide(SenderNotTalk)
signal path=/p interface=org.a.I member=S reply=1 => Hide(SenderNotTalk)
";

/// Owner changes, and what is shown if those of all unique names are shown.
const SLOPPY: &str = "\
signal path=/ interface=org.freedesktop.DBus member=NameOwnerChanged from=org.freedesktop.DBus signature=sss text=:1.31 text= text=:1.31 => Whole
signal path=/ interface=org.freedesktop.DBus member=NameOwnerChanged from=org.freedesktop.DBus signature=sss text=:1.31 text=:1.31 text= => Whole
signal path=/ interface=org.freedesktop.DBus member=NameOwnerChanged from=org.freedesktop.DBus to=:1.6 signature=sss text=:1.31 text= text=:1.31 => Whole
signal path=/ interface=org.freedesktop.DBus member=NameOwnerChanged from=org.freedesktop.DBus signature=sss text=org.a.No text= text=:1.31 => Hide(NameHidden)
signal path=/ interface=org.freedesktop.DBus member=NameOwnerChanged from=org.freedesktop.DBus signature=sss text=org.a.See text= text=:1.31 => Whole
signal path=/ interface=org.freedesktop.DBus member=NameOwnerChanged from=org.freedesktop.DBus signature=sss text=no-name text= text=:1.31 => Hide(NameHidden)
signal path=/ interface=org.freedesktop.DBus member=NameOwnerChanged from=org.freedesktop.DBus signature=sss text=: text= text=:1.31 => Hide(NameHidden)
signal path=/ interface=org.freedesktop.DBus member=NameOwnerChanged from=org.freedesktop.DBus signature=ss text=:1.31 text= => Hide(BadArgument)
signal path=/ interface=org.freedesktop.DBus member=NameOwnerChanged from=org.freedesktop.DBus signature=s text=:1.31 => Hide(BadArgument)
signal path=/ interface=org.freedesktop.DBus member=NameOwnerChanged from=:1.9 signature=sss text=:1.31 text= text=:1.31 => Hide(SenderNotTalk)
signal path=/ interface=org.a.I member=S from=:1.9 => Hide(SenderNotTalk)
";

/// What is shown of the message that a row describes, if it is valid.
fn shown(alloc: Global, known: &Known, row: &str) -> Result<Option<Showing>, AllocError> {
    let bytes = message(alloc, row)?;
    if !is_whole(&bytes) {
        return Ok(None);
    }
    let mut places = Places::none();
    match decode(&bytes, &mut places) {
        Ok(message) => Ok(Some(showing_by(known, &message))),
        Err(_) => Ok(None),
    }
}

/// What is shown of a message, by what is known.
fn showing_by(known: &Known, message: &Message<'_>) -> Showing {
    let kind = known.ledger.peek(message.reply_serial().unwrap_or(0));
    show(&known.options.policy, &known.tracker, kind, message)
}

fn told_showing(alloc: Global, row: &str) -> Result<String, AllocError> {
    match shown(alloc, &everything(alloc)?, row)? {
        Some(showing) => format!(in alloc; "{showing:?}"),
        None => String::from_str(alloc, "malformed"),
    }
}

fn told_sloppy(alloc: Global, row: &str) -> Result<String, AllocError> {
    match shown(alloc, &everything_under(alloc, "--sloppy-names")?, row)? {
        Some(showing) => format!(in alloc; "{showing:?}"),
        None => String::from_str(alloc, "malformed"),
    }
}

#[test]
fn owner_changes_of_unique_names_are_shown_if_the_policy_says_so(
    rt: HostRuntime,
) -> Result<(), Fail> {
    assert_eq!(rt; wrong_row(rt.alloc(), SLOPPY, &told_sloppy)?, None);
    Ok(())
}

#[test]
fn messages_are_shown_by_what_they_are(rt: HostRuntime) -> Result<(), Fail> {
    assert_eq!(rt; wrong_row(rt.alloc(), SHOWN, &told_showing)?, None);
    Ok(())
}
