//! Verdicts on messages of a client.
use crate::known::{Known, everything, everything_under, nothing};
use crate::messages::message;
use crate::whole::is_whole;
use dbus_header::{Message, Places, decode};
use policy_view::Verdict;
use std::alloc::{AllocError, Global};
use std::test::Fail;
use test_tables::wrong_row;
use verdicts::judge;

/// The flags of a call of `org.a.T` and the words of a policy, and the verdict.
///
/// Entries are numbered from 1, also those for other names, and `--filter` gives none. The rule of a Broadcast entry
/// doesn't apply to calls.
const CALLS: &str = "\
call => Ping(ServiceUnknown, NotVisible)
no_reply => Drop(NotVisible)
no_start => Ping(NameHasNoOwner, NotVisible)
both => Drop(NotVisible)
call --see=org.a.T => Ping(AccessDenied, OnlySee(1))
no_reply --see=org.a.T => Drop(OnlySee(1))
no_start --see=org.a.T => Ping(AccessDenied, OnlySee(1))
both --see=org.a.T => Drop(OnlySee(1))
call --talk=org.a.T => Pass
both --talk=org.a.T => Pass
call --own=org.a.T => Pass
both --own=org.a.T => Pass
call --talk=org.a.U => Ping(ServiceUnknown, NotVisible)
call --filter --see=org.a.U --see=org.a.T --see=org.a.* => Ping(AccessDenied, OnlySee(2))
no_reply --call=org.a.T=org.a.I.B --call=org.a.T=org.a.I.A => Pass
call --see=org.a.T --call=org.a.T=org.a.I.B --call=org.a.T=org.a.I.C => Ping(AccessDenied, NoRule(2))
call --call=org.a.U=org.a.I.A --see=org.a.T => Ping(AccessDenied, OnlySee(2))
call --broadcast=org.a.T=org.a.I.A@/p => Ping(AccessDenied, OnlySee(1))
no_reply --broadcast=org.a.T=org.a.I.A@/p --call=org.a.T=org.a.I.B => Drop(NoRule(2))
call --see=org.a.T --property=org.a.T=org.a.I.A@/p => Ping(AccessDenied, NoRule(2))
call --see=org.a.* --talk=org.a.T => Pass
call --talk=org.a.* --see=org.a.T => Pass
call --own=org.a.T.* --see=org.a.T => Pass
call --call=org.a.*=org.a.I.A --see=org.a.T => Pass
call --see=org.a.* --call=org.a.T=org.a.I.B => Ping(AccessDenied, NoRule(2))
";

/// The path, the interface and the member of a call of `org.a.C`, and the verdict. The name is seen, and calls of it
/// that match `org.a.I.*@/p/*` or `org.a.J.M` pass.
const RULES: &str = "\
path=/p interface=org.a.I member=A => Pass
path=/p/q interface=org.a.I member=B => Pass
path=/pq interface=org.a.I member=A => Ping(AccessDenied, NoRule(2))
path=/ interface=org.a.I member=A => Ping(AccessDenied, NoRule(2))
path=/p interface=org.a.J member=A => Ping(AccessDenied, NoRule(2))
path=/p member=A => Ping(AccessDenied, NoRule(2))
path=/pq interface=org.a.J member=M => Pass
path=/pq member=M => Ping(AccessDenied, NoRule(2))
";

/// Calls of `org.freedesktop.DBus.Properties` to `org.a.C`, and calls of `org.a.I.M`, and the verdict. The name is
/// seen, and requests of `org.a.I.Volume@/p/*` and of all properties of `org.a.J` pass.
const PROPERTIES: &str = "\
call path=/p member=Get signature=ss text=org.a.I text=Volume => Pass
call path=/p/q member=Get signature=ss text=org.a.I text=Volume => Pass
call path=/p member=Set signature=ssv text=org.a.I text=Volume variant=7 => Pass
call path=/p/q member=Set signature=ssv text=org.a.I text=Volume variant=7 => Pass
no_reply path=/p member=Set signature=ssv text=org.a.I text=Volume variant=7 => Pass
no_start path=/p member=Get signature=ss text=org.a.I text=Volume => Pass
call path=/ member=Get signature=ss text=org.a.I text=Volume => Ping(AccessDenied, NoRule(2))
call path=/pq member=Get signature=ss text=org.a.I text=Volume => Ping(AccessDenied, NoRule(2))
call path=/ member=Set signature=ssv text=org.a.I text=Volume variant=7 => Ping(AccessDenied, NoRule(2))
call path=/pq member=Set signature=ssv text=org.a.I text=Volume variant=7 => Ping(AccessDenied, NoRule(2))
call path=/p member=Get signature=ss text=org.a.I text=Mute => Ping(AccessDenied, NoRule(2))
call path=/p member=Set signature=ssv text=org.a.I text=Mute variant=7 => Ping(AccessDenied, NoRule(2))
call path=/p member=Get signature=ss text=org.a.I text=volume => Ping(AccessDenied, NoRule(2))
call path=/p member=Get signature=ss text=org.a.I text=Volum => Ping(AccessDenied, NoRule(2))
call path=/p member=Get signature=ss text=org.a.I text=Volume2 => Ping(AccessDenied, NoRule(2))
call path=/p member=Get signature=ss text=org.a.I text=Volume.Left => Ping(AccessDenied, NoRule(2))
call path=/p member=Get signature=ss text=org.a text=I.Volume => Ping(AccessDenied, NoRule(2))
call path=/p member=Get signature=ss text=org.a.I text= => Ping(AccessDenied, NoRule(2))
call path=/p member=Get signature=ss text=org.a.I text=* => Ping(AccessDenied, NoRule(2))
call path=/p member=Get signature=ss text=org.a.K text=Volume => Ping(AccessDenied, NoRule(2))
call path=/p member=Get signature=ss text=org.a.I.J text=Volume => Ping(AccessDenied, NoRule(2))
call path=/p member=Get signature=ss text=org.a text=Volume => Ping(AccessDenied, NoRule(2))
call path=/p member=Get signature=ss text= text=Volume => Ping(AccessDenied, NoRule(2))
call path=/p member=Get signature=ss text=no-interface text=Volume => Ping(AccessDenied, NoRule(2))
call path=/p member=Get signature=ss text=Volume text=org.a.I => Ping(AccessDenied, NoRule(2))
call path=/p member=Get signature=ss text=org.freedesktop.DBus.Properties text=Volume => Ping(AccessDenied, NoRule(2))
call path=/pq member=Get signature=ss text=org.a.J text=Volume => Pass
call path=/ member=Get signature=ss text=org.a.J text=Mute => Pass
call path=/ member=Set signature=ssv text=org.a.J text=Mute variant=7 => Pass
call path=/ member=Get signature=ss text=org.a.J text=Mute.Left => Pass
call path=/ member=Get signature=ss text=org.a.J text= => Pass
call path=/ member=Get signature=ss text=org.a text=J.Mute => Ping(AccessDenied, NoRule(2))
call path=/ member=Get signature=ss text=org.a.J.K text=Mute => Ping(AccessDenied, NoRule(2))
call path=/p member=GetAll signature=s text=org.a.I => Ping(AccessDenied, NoRule(2))
call path=/pq member=GetAll signature=s text=org.a.J => Pass
no_reply path=/p member=GetAll signature=s text=org.a.J => Pass
call path=/p member=GetAll signature=s text= => Ping(AccessDenied, NoRule(2))
call path=/p member=GetAll signature=s text=org.a.J.* => Ping(AccessDenied, NoRule(2))
call path=/p member=GetAll signature=ss text=org.a.J text=Mute => Ping(AccessDenied, NoRule(2))
call path=/p member=GetAll signature=ss text=org.a.I text=Volume => Ping(AccessDenied, NoRule(2))
call path=/p member=GetAll signature=u number=7 => Ping(AccessDenied, NoRule(2))
call path=/p member=GetAll => Ping(AccessDenied, NoRule(2))
call path=/p member=Get signature=s text=org.a.J => Ping(AccessDenied, NoRule(2))
call path=/p member=Get signature=sss text=org.a.I text=Volume text=x => Ping(AccessDenied, NoRule(2))
call path=/p member=Get signature=sss text=org.a.J text=Mute text=x => Ping(AccessDenied, NoRule(2))
call path=/p member=Get signature=ssv text=org.a.I text=Volume variant=7 => Ping(AccessDenied, NoRule(2))
call path=/p member=Get signature=vs variant=7 text=Volume => Ping(AccessDenied, NoRule(2))
call path=/p member=Get signature=(ss) text=org.a.J text=Mute => Ping(AccessDenied, NoRule(2))
call path=/p member=Get signature=u number=7 => Ping(AccessDenied, NoRule(2))
call path=/p member=Get => Ping(AccessDenied, NoRule(2))
call path=/p member=Set signature=ss text=org.a.I text=Volume => Ping(AccessDenied, NoRule(2))
call path=/p member=Set signature=ssu text=org.a.I text=Volume number=7 => Ping(AccessDenied, NoRule(2))
call path=/p member=Set signature=ssu text=org.a.J text=Mute number=7 => Ping(AccessDenied, NoRule(2))
call path=/p member=Set signature=ssvv text=org.a.J text=Mute variant=7 variant=7 => Ping(AccessDenied, NoRule(2))
call path=/p member=Set => Ping(AccessDenied, NoRule(2))
call path=/p member=PropertiesChanged signature=ss text=org.a.J text=Mute => Ping(AccessDenied, NoRule(2))
call path=/p member=get signature=ss text=org.a.J text=Mute => Ping(AccessDenied, NoRule(2))
call path=/p member=Gets signature=ss text=org.a.J text=Mute => Ping(AccessDenied, NoRule(2))
call path=/p member=SetAll signature=s text=org.a.J => Ping(AccessDenied, NoRule(2))
call path=/p member=M signature=ss text=org.a.J text=Mute => Ping(AccessDenied, NoRule(2))
no_reply path=/p member=Get signature=ss text=org.a.I text=Mute => Drop(NoRule(2))
no_reply path=/p member=Set signature=ssv text=org.a.I text=Mute variant=7 => Drop(NoRule(2))
no_reply path=/p member=GetAll signature=s text=org.a.I => Drop(NoRule(2))
no_start path=/p member=Get signature=ss text=org.a.I text=Mute => Ping(AccessDenied, NoRule(2))
";

/// Calls to the same name with another interface or none, and the verdict.
const NO_REQUESTS: &str = "\
call path=/p member=Get signature=ss text=org.a.I text=Volume => Ping(AccessDenied, NoRule(2))
call path=/p member=Set signature=ssv text=org.a.I text=Volume variant=7 => Ping(AccessDenied, NoRule(2))
call path=/p member=GetAll signature=s text=org.a.J => Ping(AccessDenied, NoRule(2))
call path=/p interface=org.a.I member=Get signature=ss text=org.a.I text=Volume => Ping(AccessDenied, NoRule(2))
call path=/p interface=org.a.J member=Get signature=ss text=org.a.J text=Mute => Ping(AccessDenied, NoRule(2))
call path=/p interface=org.a.J member=GetAll signature=s text=org.a.J => Ping(AccessDenied, NoRule(2))
call path=/p interface=org.a.I member=Volume => Ping(AccessDenied, NoRule(2))
call path=/p interface=org.freedesktop.DBus.Propertie member=Get signature=ss text=org.a.J text=Mute => Ping(AccessDenied, NoRule(2))
call path=/p interface=org.freedesktop.DBus.Properties2 member=Get signature=ss text=org.a.J text=Mute => Ping(AccessDenied, NoRule(2))
call path=/p interface=org.freedesktop.DBus.properties member=Set signature=ssv text=org.a.J text=Mute variant=7 => Ping(AccessDenied, NoRule(2))
call path=/p interface=org.freedesktop.DBus member=GetAll signature=s text=org.a.J => Ping(AccessDenied, NoRule(2))
no_reply path=/p interface=org.a.I member=Get signature=ss text=org.a.I text=Volume => Drop(NoRule(2))
call path=/pq interface=org.a.I member=M signature=ss text=org.a.K text=Mute => Pass
";

/// The flags of a call that requests `org.a.I.Volume` of `org.a.T` at `/p`, and the words of a policy, and the verdict.
const REQUESTS: &str = "\
call --property=org.a.T=org.a.I.Volume => Pass
call --property=org.a.*=org.a.I.Volume => Pass
call --property=org.a.*=org.a.I.*@/* --see=org.a.T => Pass
both --see=org.a.T --property=org.a.T=org.a.I.Volume@/p => Pass
call --property=org.a.T=org.a.I.Mute --property=org.a.T=org.a.I.Volume => Pass
call --property=org.a.T=org.a.I.Volume@/q --property=org.a.T=org.a.I.*@/p => Pass
call --call=org.a.T=org.freedesktop.DBus.Properties.Get => Pass
call --property=org.a.T=org.a.I.Mute --call=org.a.T=org.freedesktop.DBus.Properties.* => Pass
call --see=org.a.T --property=org.a.T=org.a.I.Mute => Ping(AccessDenied, NoRule(2))
no_reply --see=org.a.T --property=org.a.T=org.a.I.Mute => Drop(NoRule(2))
call --property=org.a.T=org.a.I.Mute --see=org.a.T --call=org.a.T=org.a.I.M => Ping(AccessDenied, NoRule(1))
call --see=org.a.T --property=org.a.T=org.a.I.Mute --call=org.a.T=org.a.I.M => Ping(AccessDenied, NoRule(2))
call --see=org.a.T --call=org.a.T=org.a.I.M --property=org.a.T=org.a.I.Mute => Ping(AccessDenied, NoRule(2))
call --see=org.a.T --broadcast=org.a.T=* --property=org.a.T=org.a.I.Mute --property=org.a.T=org.a.J.* => Ping(AccessDenied, NoRule(3))
call --property=org.a.U=org.a.I.* --see=org.a.T --property=org.a.T=org.a.I.Mute => Ping(AccessDenied, NoRule(3))
call --see=org.a.* --see=org.a.T --property=org.a.*=org.a.I.Mute => Ping(AccessDenied, NoRule(3))
call --property=org.a.T=org.a.I.Volume@/q => Ping(AccessDenied, NoRule(1))
call --property=org.a.T=org.freedesktop.DBus.Properties.Get => Ping(AccessDenied, NoRule(1))
call --call=org.a.T=org.a.I.Volume => Ping(AccessDenied, NoRule(1))
call --call=org.a.T=org.freedesktop.DBus.Properties.Set => Ping(AccessDenied, NoRule(1))
call --broadcast=org.a.T=org.a.I.Volume => Ping(AccessDenied, OnlySee(1))
call --see=org.a.T --property=org.a.U=org.a.I.Volume => Ping(AccessDenied, OnlySee(1))
call --property=org.a.U=org.a.I.Volume --see=org.a.T => Ping(AccessDenied, OnlySee(2))
call --property=org.a.U=org.a.I.Volume => Ping(ServiceUnknown, NotVisible)
no_start --property=org.a.U=org.a.I.Volume => Ping(NameHasNoOwner, NotVisible)
no_reply --property=org.a.U=org.a.I.Volume => Drop(NotVisible)
call --talk=org.a.T --property=org.a.T=org.a.I.Mute => Pass
call --property=org.a.T=org.a.I.Mute --talk=org.a.T => Pass
call --property=org.a.T=org.a.I.Mute --own=org.a.* => Pass
call --known-fields --property=org.a.T=org.a.I.Volume => Pass
";

/// Messages, and the verdict. Property entry 8 applies to `org.a.I.Volume` of `org.a.See`, which `:1.1` owns.
const OWNERS_PROPERTIES: &str = "\
call path=/p interface=org.freedesktop.DBus.Properties member=Get to=:1.1 signature=ss text=org.a.I text=Volume => Pass
call path=/p interface=org.freedesktop.DBus.Properties member=Set to=:1.1 signature=ssv text=org.a.I text=Volume variant=7 => Pass
call path=/p interface=org.freedesktop.DBus.Properties member=Get to=org.a.See signature=ss text=org.a.I text=Volume => Pass
call path=/p interface=org.freedesktop.DBus.Properties member=Get to=:1.1 signature=ss text=org.a.I text=Mute => Ping(AccessDenied, NoRule(8))
call path=/p interface=org.freedesktop.DBus.Properties member=GetAll to=:1.1 signature=s text=org.a.I => Ping(AccessDenied, NoRule(8))
call path=/p interface=org.freedesktop.DBus.Properties member=Get to=org.a.See signature=ss text=org.a.I text=Mute => Ping(AccessDenied, NoRule(8))
no_reply path=/p interface=org.freedesktop.DBus.Properties member=Get to=:1.1 signature=ss text=org.a.I text=Mute => Drop(NoRule(8))
call path=/p interface=org.a.I member=Volume to=:1.1 => Ping(AccessDenied, NoRule(8))
signal path=/p interface=org.freedesktop.DBus.Properties member=Get to=:1.1 signature=ss text=org.a.I text=Volume => Drop(OnlySee(1))
call path=/p interface=org.freedesktop.DBus.Properties member=Get to=:1.2 signature=ss text=org.a.I text=Mute => Pass
call path=/p interface=org.freedesktop.DBus.Properties member=Get to=:1.4 signature=ss text=org.a.I text=Volume => Ping(AccessDenied, NoRule(5))
call path=/p interface=org.freedesktop.DBus.Properties member=Get to=:1.5 signature=ss text=org.a.I text=Volume => Ping(AccessDenied, OnlySee(0))
call path=/p interface=org.freedesktop.DBus.Properties member=Get to=:1.7 signature=ss text=org.a.I text=Volume => Ping(AccessDenied, OnlySee(7))
call path=/p interface=org.freedesktop.DBus.Properties member=Get to=:1.9 signature=ss text=org.a.I text=Volume => Ping(NameHasNoOwner, NotVisible)
call path=/p interface=org.freedesktop.DBus.Properties member=Get to=org.a.No signature=ss text=org.a.I text=Volume => Ping(ServiceUnknown, NotVisible)
call path=/p interface=org.freedesktop.DBus.Properties member=Get to=org.freedesktop.DBus signature=ss text=org.a.I text=Mute => Pass
call path=/p interface=org.freedesktop.DBus.Properties member=Set signature=ssv text=org.a.I text=Mute variant=7 => Pass
call path=/p member=Get to=org.freedesktop.DBus signature=ss text=org.a.I text=Volume => Ping(AccessDenied, BusMember)
";

/// Members of the bus, and the verdicts on calls whose text is a hidden name, a seen one, one that may be talked to and
/// one that may be owned.
const MEMBERS: &str = "\
Hello => Pass Pass Pass Pass
GetId => Pass Pass Pass Pass
ListNames => Pass Pass Pass Pass
ListActivatableNames => Pass Pass Pass Pass
AddMatch => Pass Pass Pass Pass
RemoveMatch => Pass Pass Pass Pass
GetNameOwner => Ping(NameHasNoOwner, ArgNotVisible) Pass Pass Pass
GetConnectionUnixUser => Ping(NameHasNoOwner, ArgNotVisible) Pass Pass Pass
GetConnectionUnixProcessID => Ping(NameHasNoOwner, ArgNotVisible) Pass Pass Pass
GetConnectionCredentials => Ping(NameHasNoOwner, ArgNotVisible) Pass Pass Pass
GetAdtAuditSessionData => Ping(NameHasNoOwner, ArgNotVisible) Pass Pass Pass
GetConnectionSELinuxSecurityContext => Ping(NameHasNoOwner, ArgNotVisible) Pass Pass Pass
NameHasOwner => Ping(False, ArgNotVisible) Pass Pass Pass
StartServiceByName => Ping(ServiceUnknown, ArgNotTalk) Ping(AccessDenied, ArgNotTalk) Pass Pass
RequestName => Ping(AccessDenied, ArgNotOwn) Ping(AccessDenied, ArgNotOwn) Ping(AccessDenied, ArgNotOwn) Pass
ReleaseName => Ping(AccessDenied, ArgNotOwn) Ping(AccessDenied, ArgNotOwn) Ping(AccessDenied, ArgNotOwn) Pass
ListQueuedOwners => Ping(AccessDenied, ArgNotOwn) Ping(AccessDenied, ArgNotOwn) Ping(AccessDenied, ArgNotOwn) Pass
UpdateActivationEnvironment => Ping(AccessDenied, BusMember) Ping(AccessDenied, BusMember) Ping(AccessDenied, BusMember) Ping(AccessDenied, BusMember)
BecomeMonitor => Ping(AccessDenied, BusMember) Ping(AccessDenied, BusMember) Ping(AccessDenied, BusMember) Ping(AccessDenied, BusMember)
hello => Ping(AccessDenied, BusMember) Ping(AccessDenied, BusMember) Ping(AccessDenied, BusMember) Ping(AccessDenied, BusMember)
GetNameOwner2 => Ping(AccessDenied, BusMember) Ping(AccessDenied, BusMember) Ping(AccessDenied, BusMember) Ping(AccessDenied, BusMember)
";

/// Members of the bus, and the same verdicts if the call has its flag NO_REPLY_EXPECTED set.
const UNANSWERED: &str = "\
Hello => Pass Pass Pass Pass
AddMatch => Pass Pass Pass Pass
GetNameOwner => Drop(ArgNotVisible) Pass Pass Pass
NameHasOwner => Drop(ArgNotVisible) Pass Pass Pass
StartServiceByName => Drop(ArgNotTalk) Drop(ArgNotTalk) Pass Pass
RequestName => Drop(ArgNotOwn) Drop(ArgNotOwn) Drop(ArgNotOwn) Pass
ReleaseName => Drop(ArgNotOwn) Drop(ArgNotOwn) Drop(ArgNotOwn) Pass
BecomeMonitor => Drop(BusMember) Drop(BusMember) Drop(BusMember) Drop(BusMember)
";

/// Words of a policy, the text of a call of StartServiceByName, and the verdict.
const STARTS: &str = "\
--call=org.a.C=* org.a.C => Ping(AccessDenied, ArgNotTalk)
--start-called --call=org.a.C=* org.a.C => Pass
--start-called --call=org.a.C=org.x.I.M@/p org.a.C => Pass
--start-called --call=org.a.*=* org.a.C.D => Pass
--start-called --see=org.a.* --call=org.a.C=* org.a.C => Pass
--start-called --see=org.a.* --call=org.a.C=* org.a.D => Ping(AccessDenied, ArgNotTalk)
--start-called --see=org.a.* --call=org.a.C=* org.b.C => Ping(ServiceUnknown, ArgNotTalk)
--start-called --call=org.a.C=* org.a.C.D => Ping(ServiceUnknown, ArgNotTalk)
--start-called --see=org.a.C org.a.C => Ping(AccessDenied, ArgNotTalk)
--start-called --broadcast=org.a.C=* org.a.C => Ping(AccessDenied, ArgNotTalk)
--start-called --property=org.a.C=org.x.I.P org.a.C => Ping(AccessDenied, ArgNotTalk)
--start-called --talk=org.a.C org.a.C => Pass
--start-called org.a.C => Ping(ServiceUnknown, ArgNotTalk)
--start-called --call=org.a.C=* org..C => Ping(ServiceUnknown, ArgNotTalk)
";

/// Members of the bus, and the verdicts on calls without a body, with a number as the body, and with a body that begins
/// with a number.
const WITHOUT_TEXT: &str = "\
Hello => Pass Pass Pass
GetId => Pass Pass Pass
ListNames => Pass Pass Pass
ListActivatableNames => Pass Pass Pass
AddMatch => Ping(AccessDenied, BadArgument) Ping(AccessDenied, BadArgument) Ping(AccessDenied, BadArgument)
RemoveMatch => Ping(AccessDenied, BadArgument) Ping(AccessDenied, BadArgument) Ping(AccessDenied, BadArgument)
GetNameOwner => Ping(AccessDenied, BadArgument) Ping(AccessDenied, BadArgument) Ping(AccessDenied, BadArgument)
GetConnectionUnixUser => Ping(AccessDenied, BadArgument) Ping(AccessDenied, BadArgument) Ping(AccessDenied, BadArgument)
GetConnectionUnixProcessID => Ping(AccessDenied, BadArgument) Ping(AccessDenied, BadArgument) Ping(AccessDenied, BadArgument)
GetConnectionCredentials => Ping(AccessDenied, BadArgument) Ping(AccessDenied, BadArgument) Ping(AccessDenied, BadArgument)
GetAdtAuditSessionData => Ping(AccessDenied, BadArgument) Ping(AccessDenied, BadArgument) Ping(AccessDenied, BadArgument)
GetConnectionSELinuxSecurityContext => Ping(AccessDenied, BadArgument) Ping(AccessDenied, BadArgument) Ping(AccessDenied, BadArgument)
NameHasOwner => Ping(AccessDenied, BadArgument) Ping(AccessDenied, BadArgument) Ping(AccessDenied, BadArgument)
StartServiceByName => Ping(AccessDenied, BadArgument) Ping(AccessDenied, BadArgument) Ping(AccessDenied, BadArgument)
RequestName => Ping(AccessDenied, BadArgument) Ping(AccessDenied, BadArgument) Ping(AccessDenied, BadArgument)
ReleaseName => Ping(AccessDenied, BadArgument) Ping(AccessDenied, BadArgument) Ping(AccessDenied, BadArgument)
ListQueuedOwners => Ping(AccessDenied, BadArgument) Ping(AccessDenied, BadArgument) Ping(AccessDenied, BadArgument)
BecomeMonitor => Ping(AccessDenied, BusMember) Ping(AccessDenied, BusMember) Ping(AccessDenied, BusMember)
";

/// Other messages, and the verdict.
const OTHERS: &str = "\
type_9 to=org.a.Talk => Drop(UnknownType)
type_9 to=org.freedesktop.DBus => Drop(UnknownType)
type_9 => Drop(UnknownType)
return to=:1.2 reply=5 => Pass
error error=org.a.E to=:1.2 reply=5 => Pass
return to=:1.2 reply=6 => Drop(NotOutstanding)
return to=:1.3 reply=5 => Drop(NotOutstanding)
return reply=5 => Drop(NotOutstanding)
error error=org.a.E to=org.a.Talk reply=5 => Drop(NotOutstanding)
signal path=/ interface=org.a.I member=S => Pass
signal path=/ interface=org.a.I member=S to=org.a.Talk => Pass
signal path=/ interface=org.a.I member=S to=org.a.Own => Pass
signal path=/ interface=org.a.I member=S to=:1.2 => Pass
signal path=/ interface=org.a.I member=S to=:1.6 => Pass
signal path=/ interface=org.a.I member=S to=org.a.See => Drop(OnlySee(1))
signal path=/ interface=org.a.I member=S to=:1.1 => Drop(OnlySee(1))
signal path=/ interface=org.a.I member=S to=:1.4 => Drop(OnlySee(4))
signal path=/ interface=org.a.I member=S to=:1.5 => Drop(OnlySee(0))
signal path=/ interface=org.a.I member=S to=:1.9 => Drop(NotVisible)
signal path=/ interface=org.a.I member=S to=org.a.No => Drop(NotVisible)
call path=/ interface=org.freedesktop.DBus.Peer member=Ping => Pass
call path=/ interface=org.freedesktop.DBus.Peer member=Ping to=org.freedesktop.DBus => Pass
call path=/ interface=org.freedesktop.DBus.Properties member=GetAll to=org.freedesktop.DBus => Pass
call path=/ interface=org.freedesktop.DBus.Introspectable member=Introspect to=org.freedesktop.DBus => Pass
call path=/ interface=org.freedesktop.DBus.Monitoring member=BecomeMonitor to=org.freedesktop.DBus => Ping(AccessDenied, BusInterface)
call path=/ interface=org.a.I member=Hello => Ping(AccessDenied, BusInterface)
no_reply path=/ interface=org.a.I member=Hello => Drop(BusInterface)
call path=/ interface=org.freedesktop.DBus member=Hello => Pass
call path=/ member=Hello => Pass
call path=/ member=BecomeMonitor => Ping(AccessDenied, BusMember)
call path=/ member=AddMatch signature=s text=eavesdrop=true => Ping(AccessDenied, Eavesdrop)
call path=/ member=AddMatch signature=s text=type='signal',eavesdrop=true => Ping(AccessDenied, Eavesdrop)
call path=/ member=AddMatch signature=s text=arg0='xeavesdropx' => Ping(AccessDenied, Eavesdrop)
call path=/ member=AddMatch signature=s text=arg0='eavesdro',member='p' => Pass
call path=/ member=AddMatch signature=s text=eavesdro => Pass
call path=/ member=AddMatch signature=s text= => Pass
call path=/ member=RemoveMatch signature=s text=eeavesdrop => Ping(AccessDenied, Eavesdrop)
no_reply path=/ member=AddMatch signature=s text=eavesdrop=true => Drop(Eavesdrop)
call path=/ member=GetNameOwner signature=s text=:1.5 => Pass
call path=/ member=GetNameOwner signature=s text=:1.9 => Ping(NameHasNoOwner, ArgNotVisible)
call path=/ member=GetNameOwner signature=s text=org.freedesktop.DBus => Pass
call path=/ member=GetNameOwner signature=s text=no-name => Ping(NameHasNoOwner, ArgNotVisible)
call path=/ member=RequestName signature=su text=org.a.Own number=4 => Pass
call path=/ member=RequestName signature=su text=org.a.Talk number=4 => Ping(AccessDenied, ArgNotOwn)
call path=/ member=ReleaseName signature=s text=org.freedesktop.DBus => Ping(AccessDenied, ArgNotOwn)
call path=/ member=A to=:1.2 => Pass
call path=/ member=A to=:1.6 => Pass
call path=/p interface=org.a.I member=A to=:1.4 => Pass
call path=/ interface=org.a.J member=B to=:1.4 => Pass
call path=/ interface=org.a.I member=A to=:1.4 => Ping(AccessDenied, NoRule(5))
call path=/p interface=org.a.I member=A to=:1.1 => Ping(AccessDenied, OnlySee(1))
call path=/p interface=org.a.I member=S to=:1.7 => Ping(AccessDenied, OnlySee(7))
call path=/ member=A to=:1.5 => Ping(AccessDenied, OnlySee(0))
no_reply path=/ member=A to=:1.5 => Drop(OnlySee(0))
call path=/ member=A to=:1.9 => Ping(NameHasNoOwner, NotVisible)
no_start path=/ member=A to=:1.9 => Ping(NameHasNoOwner, NotVisible)
call path=/ member=A to=org.a.No => Ping(ServiceUnknown, NotVisible)
call path=/ interface=org.freedesktop.DBus.Peer member=Ping to=org.a.No => Ping(ServiceUnknown, NotVisible)
";

/// Messages, and the verdict if only known header fields may pass. No header field has the code of a field named
/// `unknown` or `greatest`.
const KNOWN_FIELDS: &str = "\
call path=/ member=A to=org.a.Talk => Pass
call path=/ member=A to=org.a.Talk unknown=/x => Ping(AccessDenied, UnknownField)
call unknown=/x path=/ member=A to=org.a.Talk => Ping(AccessDenied, UnknownField)
call path=/ member=A to=org.a.Talk greatest=x => Ping(AccessDenied, UnknownField)
call path=/ member=A to=org.a.Talk unknown=/x unknown=/x => Ping(AccessDenied, UnknownField)
no_reply path=/ member=A to=org.a.Talk unknown=/x => Drop(UnknownField)
no_start path=/ member=A to=org.a.Talk unknown=/x => Ping(AccessDenied, UnknownField)
call path=/ member=A to=org.a.See unknown=/x => Ping(AccessDenied, UnknownField)
call path=/ member=A to=org.a.No unknown=/x => Ping(AccessDenied, UnknownField)
call path=/ member=Hello unknown=/x => Ping(AccessDenied, UnknownField)
call path=/ interface=org.freedesktop.DBus.Peer member=Ping unknown=/x => Ping(AccessDenied, UnknownField)
signal path=/ interface=org.a.I member=S => Pass
signal path=/ interface=org.a.I member=S unknown=/x => Drop(UnknownField)
signal path=/ interface=org.a.I member=S to=org.a.Talk unknown=/x => Drop(UnknownField)
return to=:1.2 reply=5 => Pass
return to=:1.2 reply=5 unknown=/x => Drop(UnknownField)
error error=org.a.E to=:1.2 reply=5 unknown=/x => Drop(UnknownField)
type_9 unknown=/x => Drop(UnknownField)
type_9 => Drop(UnknownType)
";

/// Messages, and the verdict if any header fields may pass.
const ANY_FIELDS: &str = "\
call path=/ member=A to=org.a.Talk unknown=/x => Pass
signal path=/ interface=org.a.I member=S unknown=/x => Pass
return to=:1.2 reply=5 greatest=x => Pass
type_9 unknown=/x => Drop(UnknownType)
";

/// The verdict on the message that a row describes, if it is valid.
fn verdict_on(alloc: Global, known: &Known, row: &str) -> Result<Option<Verdict>, AllocError> {
    let bytes = message(alloc, row)?;
    if !is_whole(&bytes) {
        return Ok(None);
    }
    let mut places = Places::none();
    match decode(&bytes, &mut places) {
        Ok(message) => Ok(Some(verdict_by(known, &message))),
        Err(_) => Ok(None),
    }
}

/// The verdict on a message, by what is known.
fn verdict_by(known: &Known, message: &Message<'_>) -> Verdict {
    judge(
        &known.options.policy,
        &known.tracker,
        &known.ledger,
        message,
    )
}

fn told(alloc: Global, known: &Known, row: &str) -> Result<String, AllocError> {
    match verdict_on(alloc, known, row)? {
        Some(verdict) => format!(in alloc; "{verdict:?}"),
        None => String::from_str(alloc, "malformed"),
    }
}

/// The verdict on the message of a row under a policy of these words, with nothing known.
fn told_under(alloc: Global, words: &str, row: &str) -> Result<String, AllocError> {
    told(alloc, &nothing(alloc, words)?, row)
}

fn told_call(alloc: Global, row: &str) -> Result<String, AllocError> {
    let (kind, words) = row.split_once(' ').unwrap_or((row, ""));
    let row = format!(in alloc; "{kind} path=/p interface=org.a.I member=A to=org.a.T")?;
    told_under(alloc, words, &row)
}

fn told_rule(alloc: Global, row: &str) -> Result<String, AllocError> {
    let words = "--see=org.a.C --call=org.a.C=org.a.I.*@/p/* --call=org.a.C=org.a.J.M";
    let row = format!(in alloc; "call {row} to=org.a.C")?;
    told_under(alloc, words, &row)
}

fn told_property(alloc: Global, row: &str) -> Result<String, AllocError> {
    let row = format!(in alloc; "{row} interface=org.freedesktop.DBus.Properties")?;
    told_no_request(alloc, &row)
}

fn told_no_request(alloc: Global, row: &str) -> Result<String, AllocError> {
    let words = "--see=org.a.C --property=org.a.C=org.a.I.Volume@/p/* --call=org.a.C=org.a.I.M \
        --property=org.a.C=org.a.J.*";
    let row = format!(in alloc; "{row} to=org.a.C")?;
    told_under(alloc, words, &row)
}

fn told_request(alloc: Global, row: &str) -> Result<String, AllocError> {
    let (kind, words) = row.split_once(' ').unwrap_or((row, ""));
    let row = format!(in alloc;
        "{kind} path=/p interface=org.freedesktop.DBus.Properties member=Get to=org.a.T signature=ss text=org.a.I text=Volume"
    )?;
    told_under(alloc, words, &row)
}

/// The verdict on the message of a row under `WORDS` and further words, with all that is known.
fn told_with_all(alloc: Global, words: &str, row: &str) -> Result<String, AllocError> {
    told(alloc, &everything_under(alloc, words)?, row)
}

fn told_with_a_property(alloc: Global, row: &str) -> Result<String, AllocError> {
    told_with_all(alloc, "--property=org.a.See=org.a.I.Volume", row)
}

fn told_other(alloc: Global, row: &str) -> Result<String, AllocError> {
    told_with_all(alloc, "", row)
}

fn told_with_known_fields(alloc: Global, row: &str) -> Result<String, AllocError> {
    told_with_all(alloc, "--known-fields", row)
}

fn told_start(alloc: Global, row: &str) -> Result<String, AllocError> {
    let (words, name) = row.rsplit_once(' ').unwrap_or(("", row));
    let row = format!(in alloc;
        "call path=/ member=StartServiceByName signature=su text={name} number=0"
    )?;
    told_under(alloc, words, &row)
}

/// The verdicts on calls of the bus with each of these bodies.
fn told_bodies(alloc: Global, call: &str, bodies: &[&str]) -> Result<String, AllocError> {
    let known = everything(alloc)?;
    let mut all = String::new(alloc);
    for body in bodies {
        add_told(alloc, &mut all, &known, call, body)?;
    }
    Ok(all)
}

/// Adds the verdict on a call with a body.
fn add_told(
    alloc: Global,
    all: &mut String,
    known: &Known,
    call: &str,
    body: &str,
) -> Result<(), AllocError> {
    let row = format!(in alloc; "{call}{body}")?;
    let verdict = told(alloc, known, &row)?;
    if !all.is_empty() {
        all.push(' ')?;
    }
    all.push_str(&verdict)
}

fn told_levels(alloc: Global, call: &str) -> Result<String, AllocError> {
    let bodies = [
        " signature=s text=org.a.No",
        " signature=s text=org.a.See",
        " signature=s text=org.a.Talk",
        " signature=s text=org.a.Own",
    ];
    told_bodies(alloc, call, &bodies)
}

fn told_member(alloc: Global, member: &str) -> Result<String, AllocError> {
    let call = format!(in alloc;
        "call path=/ interface=org.freedesktop.DBus member={member} to=org.freedesktop.DBus"
    )?;
    told_levels(alloc, &call)
}

fn told_bare_member(alloc: Global, member: &str) -> Result<String, AllocError> {
    let call = format!(in alloc; "call path=/ member={member}")?;
    told_levels(alloc, &call)
}

fn told_unanswered(alloc: Global, member: &str) -> Result<String, AllocError> {
    let call = format!(in alloc; "no_reply path=/ member={member} to=org.freedesktop.DBus")?;
    told_levels(alloc, &call)
}

fn told_without_text(alloc: Global, member: &str) -> Result<String, AllocError> {
    let call = format!(in alloc; "call path=/ interface=org.freedesktop.DBus member={member}")?;
    let bodies = [
        "",
        " signature=u number=7",
        " signature=us number=7 text=org.a.Own",
    ];
    told_bodies(alloc, &call, &bodies)
}

#[test]
fn calls_are_judged_by_the_entries_of_their_name(rt: HostRuntime) -> Result<(), Fail> {
    assert_eq!(rt; wrong_row(rt.alloc(), CALLS, &told_call)?, None);
    Ok(())
}

#[test]
fn rules_are_asked_of_path_interface_and_member(rt: HostRuntime) -> Result<(), Fail> {
    assert_eq!(rt; wrong_row(rt.alloc(), RULES, &told_rule)?, None);
    Ok(())
}

#[test]
fn property_rules_are_asked_of_path_and_body(rt: HostRuntime) -> Result<(), Fail> {
    assert_eq!(rt; wrong_row(rt.alloc(), PROPERTIES, &told_property)?, None);
    assert_eq!(rt; wrong_row(rt.alloc(), NO_REQUESTS, &told_no_request)?, None);
    Ok(())
}

#[test]
fn property_requests_are_judged_by_the_entries_of_their_name(rt: HostRuntime) -> Result<(), Fail> {
    assert_eq!(rt; wrong_row(rt.alloc(), REQUESTS, &told_request)?, None);
    assert_eq!(rt;
        wrong_row(rt.alloc(), OWNERS_PROPERTIES, &told_with_a_property)?,
        None
    );
    Ok(())
}

#[test]
fn members_of_the_bus_are_judged_by_the_level_of_their_text(rt: HostRuntime) -> Result<(), Fail> {
    assert_eq!(rt; wrong_row(rt.alloc(), MEMBERS, &told_member)?, None);
    assert_eq!(rt; wrong_row(rt.alloc(), MEMBERS, &told_bare_member)?, None);
    assert_eq!(rt; wrong_row(rt.alloc(), UNANSWERED, &told_unanswered)?, None);
    Ok(())
}

#[test]
fn names_that_may_be_called_may_be_started_if_the_policy_says_so(
    rt: HostRuntime,
) -> Result<(), Fail> {
    assert_eq!(rt; wrong_row(rt.alloc(), STARTS, &told_start)?, None);
    Ok(())
}

#[test]
fn members_of_the_bus_that_take_a_text_are_given_one(rt: HostRuntime) -> Result<(), Fail> {
    assert_eq!(rt;
        wrong_row(rt.alloc(), WITHOUT_TEXT, &told_without_text)?,
        None
    );
    Ok(())
}

#[test]
fn messages_are_judged_by_what_they_are(rt: HostRuntime) -> Result<(), Fail> {
    assert_eq!(rt; wrong_row(rt.alloc(), OTHERS, &told_other)?, None);
    Ok(())
}

#[test]
fn header_fields_of_unknown_codes_are_refused_if_the_policy_says_so(
    rt: HostRuntime,
) -> Result<(), Fail> {
    assert_eq!(rt;
        wrong_row(rt.alloc(), KNOWN_FIELDS, &told_with_known_fields)?,
        None
    );
    assert_eq!(rt; wrong_row(rt.alloc(), ANY_FIELDS, &told_other)?, None);
    Ok(())
}
