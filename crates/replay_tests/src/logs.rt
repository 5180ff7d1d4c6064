//! Logs: a line for each message, in order, on standard error.
use crate::cases::assert_cases;

/// Sessions with a log, and without one.
const LOGS: [&str; 8] = [
    // A header field of an unknown code is refused if the policy says so.
    "\
policy --filter --log --known-fields --talk=org.a.T
client call 10 path=/x interface=org.a.I member=M destination=org.a.T unknown=/y
client signal 11 path=/x interface=org.a.I member=S unknown=/y
to_bus ping 1
log 1 c 1 call serial=10 reply=- from=- dest=org.a.T path=/x iface=org.a.I member=M ping UnknownField 0 AccessDenied
log 1 c 2 signal serial=11 reply=- from=- dest=- path=/x iface=org.a.I member=S drop UnknownField 0
",
    // A call that wants no reply is dropped.
    "\
policy --filter --log
client call_without_reply 10 path=/x interface=org.h.I member=M destination=org.h.X
log 1 c 1 call serial=10 reply=- from=- dest=org.h.X path=/x iface=org.h.I member=M drop NotVisible 0
",
    // Requests of properties that pass and that are refused.
    "\
policy --filter --log --property=org.a.C=org.a.I.Volume@/p
client call 10 path=/p interface=org.freedesktop.DBus.Properties member=Get destination=org.a.C | ss org.a.I Volume
client call 11 path=/p interface=org.freedesktop.DBus.Properties member=Set destination=org.a.C | ssv org.a.I Mute 1
to_bus call 1 path=/p interface=org.freedesktop.DBus.Properties member=Get destination=org.a.C | ss org.a.I Volume
to_bus ping 2
log 1 c 1 call serial=10 reply=- from=- dest=org.a.C path=/p iface=org.freedesktop.DBus.Properties member=Get pass
log 1 c 2 call serial=11 reply=- from=- dest=org.a.C path=/p iface=org.freedesktop.DBus.Properties member=Set ping NoRule 1 AccessDenied
",
    // Messages of both sides, of every kind of decision.
    "\
policy --filter --log --see=org.a.S --call=org.a.C=org.a.I.N
client call 10 path=/x interface=org.h.I member=M destination=org.h.X
client call 11 path=/x interface=org.a.I member=M destination=org.a.S
client call 12 path=/x interface=org.a.I member=M destination=org.a.C
client call 13 path=/x interface=org.a.I member=N destination=org.a.C
client bus 14 ListNames
client return 15 reply=3 destination=:1.7
client type_9 16 path=/p
bus ret 101 1
bus return 102 reply=4 destination=:1.40 sender=:1.7
bus ret 103 5 | as [org.freedesktop.DBus,:1.40,org.h.X,org.a.S]
bus return 104 reply=9 destination=:1.40 sender=:1.7
bus signal 105 path=/h interface=org.h.I member=S sender=:1.60
bus owner_change 106 org.h.X '' :1.60
bus ret 107 2
bus call 108 path=/c interface=org.b.I member=B destination=:1.40 sender=:1.7
client return 17 reply=108 destination=:1.7
to_bus ping 1
to_bus ping 2
to_bus ping 3
to_bus call 4 path=/x interface=org.a.I member=N destination=org.a.C
to_bus bus 5 ListNames
to_bus return 6 reply=108 destination=:1.7
to_client unknown 101 10
to_client return 102 reply=13 destination=:1.40 sender=:1.7
to_client ret 103 14 | as [org.freedesktop.DBus,org.a.S]
to_client denied 107 11
to_client call 108 path=/c interface=org.b.I member=B destination=:1.40 sender=:1.7
log 1 c 1 call serial=10 reply=- from=- dest=org.h.X path=/x iface=org.h.I member=M ping NotVisible 0 ServiceUnknown
log 1 c 2 call serial=11 reply=- from=- dest=org.a.S path=/x iface=org.a.I member=M ping OnlySee 1 AccessDenied
log 1 c 3 call serial=12 reply=- from=- dest=org.a.C path=/x iface=org.a.I member=M ping NoRule 2 AccessDenied
log 1 c 4 call serial=13 reply=- from=- dest=org.a.C path=/x iface=org.a.I member=N pass
log 1 c 5 call serial=14 reply=- from=- dest=org.freedesktop.DBus path=/org/freedesktop/DBus iface=org.freedesktop.DBus member=ListNames pass
log 1 c 6 return serial=15 reply=3 from=- dest=:1.7 path=- iface=- member=- drop NotOutstanding 0
log 1 c 7 type9 serial=16 reply=- from=- dest=- path=/p iface=- member=- drop UnknownType 0
log 1 b 8 return serial=101 reply=1 from=org.freedesktop.DBus dest=:1.40 path=- iface=- member=- instead ServiceUnknown
log 1 b 9 return serial=102 reply=4 from=:1.7 dest=:1.40 path=- iface=- member=- show
log 1 b 10 return serial=103 reply=5 from=org.freedesktop.DBus dest=:1.40 path=- iface=- member=- cut
log 1 b 11 return serial=104 reply=9 from=:1.7 dest=:1.40 path=- iface=- member=- hide NotExpected 0
log 1 b 12 signal serial=105 reply=- from=:1.60 dest=- path=/h iface=org.h.I member=S hide SenderNotTalk 0
log 1 b 13 signal serial=106 reply=- from=org.freedesktop.DBus dest=- path=/org/freedesktop/DBus iface=org.freedesktop.DBus member=NameOwnerChanged hide NameHidden 0
log 1 b 14 return serial=107 reply=2 from=org.freedesktop.DBus dest=:1.40 path=- iface=- member=- instead AccessDenied
log 1 b 15 call serial=108 reply=- from=:1.7 dest=:1.40 path=/c iface=org.b.I member=B show
log 1 c 16 return serial=17 reply=108 from=- dest=:1.7 path=- iface=- member=- pass
",
    // Lines of authentication have none, and answers to the proxy's own calls are hidden.
    "\
policy --filter --log --talk=org.a.T
lines
client bytes ~AUTH EXTERNAL%0D%0ABEGIN%0D%0A
bus bytes OK 00112233445566778899aabbccddeeff%0D%0A
client bus 1 Hello
bus ret 1 1 | s :1.40
bus ret 2 2
bus ret 3 3 | s :1.7
client_ends
to_bus bytes ~AUTH EXTERNAL%0D%0ABEGIN%0D%0A
to_bus bus 1 Hello
to_bus add_match 2 org.a.T
to_bus get_owner 3 org.a.T
to_client bytes OK 00112233445566778899aabbccddeeff%0D%0A
to_client ret 1 1 | s :1.40
end %03
log 1 c 1 call serial=1 reply=- from=- dest=org.freedesktop.DBus path=/org/freedesktop/DBus iface=org.freedesktop.DBus member=Hello pass
log 1 b 2 return serial=1 reply=1 from=org.freedesktop.DBus dest=:1.40 path=- iface=- member=- show
log 1 b 3 return serial=2 reply=2 from=org.freedesktop.DBus dest=:1.40 path=- iface=- member=- hide OwnAnswer 0
log 1 b 4 return serial=3 reply=3 from=org.freedesktop.DBus dest=:1.40 path=- iface=- member=- hide OwnAnswer 0
",
    // What came before a fault has its line, and the fault has none.
    "\
policy --filter --log
client call_without_reply 10 path=/x interface=org.h.I member=M destination=org.h.X
client bytes not a message at all
client call_without_reply 11 path=/x interface=org.h.I member=M destination=org.h.X
end %01%01%01~~~~~~~~
log 1 c 1 call serial=10 reply=- from=- dest=org.h.X path=/x iface=org.h.I member=M drop NotVisible 0
",
    // Without a filter there are no messages, and the bytes go on.
    "\
policy --log
client call_without_reply 10 path=/x interface=org.h.I member=M destination=org.h.X
to_bus call_without_reply 10 path=/x interface=org.h.I member=M destination=org.h.X
",
    // Nothing is told if no log is asked for.
    "\
policy --filter
client call_without_reply 10 path=/x interface=org.h.I member=M destination=org.h.X
",
];

#[test]
fn messages_have_their_lines(rt: HostRuntime) {
    assert_cases(&rt, rt.alloc(), &LOGS);
}
