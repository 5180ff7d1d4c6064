//! Calls of the client, and what is malformed.
use crate::cases::assert_cases;

/// Calls, pings in place of refused calls, and the answers of the bus.
const CALLS: [&str; 11] = [
    // Replies reach their own calls of a serial that is used twice, each once.
    "\
policy --filter --talk=org.a.T
client call 7 path=/p interface=org.a.I member=A destination=org.a.T
client call 7 path=/p interface=org.a.I member=B destination=org.a.T
bus return 60 reply=2 destination=:1.40 sender=:1.7
bus return 61 reply=1 destination=:1.40 sender=:1.7
bus return 62 reply=1 destination=:1.40 sender=:1.7
to_bus call 1 path=/p interface=org.a.I member=A destination=org.a.T
to_bus call 2 path=/p interface=org.a.I member=B destination=org.a.T
to_client return 60 reply=7 destination=:1.40 sender=:1.7
to_client return 61 reply=7 destination=:1.40 sender=:1.7
",
    // An error stands in the place of the answer to its ping.
    "\
policy --filter --talk=org.a.T
client call 1 path=/p interface=org.a.I member=A destination=org.a.T
client call 2 path=/p interface=org.a.I member=A destination=org.h.X
client call 3 path=/p interface=org.a.I member=B destination=org.a.T
bus return 50 reply=3 destination=:1.40 sender=:1.7
bus return 51 reply=2 destination=:1.40 sender=org.freedesktop.DBus
bus return 52 reply=1 destination=:1.40 sender=:1.7
to_bus call 1 path=/p interface=org.a.I member=A destination=org.a.T
to_bus ping 2
to_bus call 3 path=/p interface=org.a.I member=B destination=org.a.T
to_client return 50 reply=3 destination=:1.40 sender=:1.7
to_client unknown 51 2
to_client return 52 reply=1 destination=:1.40 sender=:1.7
",
    // Call rules decide the calls of a name that is only seen.
    "\
policy --filter --call=org.a.C=org.a.I.*@/p/*
client call 1 path=/p/q interface=org.a.I member=M destination=org.a.C
client call 2 path=/p interface=org.a.I member=M destination=org.a.C
client call 3 path=/pq interface=org.a.I member=M destination=org.a.C
client call 4 path=/p member=M destination=org.a.C
bus return 80 reply=4 destination=:1.40 sender=org.freedesktop.DBus
bus return 81 reply=3 destination=:1.40 sender=org.freedesktop.DBus
bus return 82 reply=2 destination=:1.40 sender=:1.7
to_bus call 1 path=/p/q interface=org.a.I member=M destination=org.a.C
to_bus call 2 path=/p interface=org.a.I member=M destination=org.a.C
to_bus ping 3
to_bus ping 4
to_client denied 80 4
to_client denied 81 3
to_client return 82 reply=2 destination=:1.40 sender=:1.7
",
    // Property rules decide the requests of properties.
    "\
policy --filter --property=org.a.C=org.a.I.Volume@/p
client call 1 path=/p interface=org.freedesktop.DBus.Properties member=Get destination=org.a.C | ss org.a.I Volume
client call 2 path=/p interface=org.freedesktop.DBus.Properties member=Get destination=org.a.C | ss org.a.I Mute
client call 3 path=/p interface=org.freedesktop.DBus.Properties member=GetAll destination=org.a.C | s org.a.I
client call 4 path=/p interface=org.freedesktop.DBus.Properties member=Set destination=org.a.C | ssv org.a.I Volume 1
bus return 80 reply=3 destination=:1.40 sender=org.freedesktop.DBus
bus return 81 reply=1 destination=:1.40 sender=:1.7 | v 50
bus return 82 reply=2 destination=:1.40 sender=org.freedesktop.DBus
bus return 83 reply=4 destination=:1.40 sender=:1.7
to_bus call 1 path=/p interface=org.freedesktop.DBus.Properties member=Get destination=org.a.C | ss org.a.I Volume
to_bus ping 2
to_bus ping 3
to_bus call 4 path=/p interface=org.freedesktop.DBus.Properties member=Set destination=org.a.C | ssv org.a.I Volume 1
to_client denied 80 3
to_client return 81 reply=1 destination=:1.40 sender=:1.7 | v 50
to_client denied 82 2
to_client return 83 reply=4 destination=:1.40 sender=:1.7
",
    // The body of a request is read in the order of its message.
    "\
policy --filter --property=org.a.C=org.a.I.Volume@/p
client bytes B%01~%01~~~%17%01%02%03%04~~~`%01%01o~~~~%02/p~~~~~~%02%01s~~~~%1Forg.freedesktop.DBus.Properties~%03%01s~~~~%03Get~~~~~%06%01s~~~~%07org.a.C~%08%01g~%02ss~~~~%07org.a.I~~~~%06Volume~
client bytes B%01~%01~~~%15%01%02%03%05~~~`%01%01o~~~~%02/p~~~~~~%02%01s~~~~%1Forg.freedesktop.DBus.Properties~%03%01s~~~~%03Get~~~~~%06%01s~~~~%07org.a.C~%08%01g~%02ss~~~~%07org.a.I~~~~%04Mute~
to_bus bytes B%01~%01~~~%17~~~%01~~~`%01%01o~~~~%02/p~~~~~~%02%01s~~~~%1Forg.freedesktop.DBus.Properties~%03%01s~~~~%03Get~~~~~%06%01s~~~~%07org.a.C~%08%01g~%02ss~~~~%07org.a.I~~~~%06Volume~
to_bus ping 2
",
    // The greatest level decides a call.
    "\
policy --filter --see=org.a.* --talk=org.a.T --own=org.o.O --broadcast=org.b.B=
client call 1 path=/p interface=org.a.I member=M destination=org.a.T
client call 2 path=/p interface=org.a.I member=M destination=org.a.S
client call 3 path=/p interface=org.a.I member=M destination=org.o.O
client call 4 path=/p interface=org.a.I member=M destination=org.b.B
client call 5 path=/p interface=org.a.I member=M destination=org.ab
bus return 80 reply=2 destination=:1.40 sender=org.freedesktop.DBus
bus return 81 reply=4 destination=:1.40 sender=org.freedesktop.DBus
bus return 82 reply=5 destination=:1.40 sender=org.freedesktop.DBus
to_bus call 1 path=/p interface=org.a.I member=M destination=org.a.T
to_bus ping 2
to_bus call 3 path=/p interface=org.a.I member=M destination=org.o.O
to_bus ping 4
to_bus ping 5
to_client denied 80 2
to_client denied 81 4
to_client unknown 82 5
",
    // A refused call that wants no answer is dropped.
    "\
policy --filter --see=org.a.S
client call_without_reply 1 path=/p interface=org.a.I member=M destination=org.a.S
client call_without_reply 2 path=/p interface=org.a.I member=M destination=org.h.X
",
    // A hidden name is unknown; one that may not be started, and a unique one, has no owner.
    "\
policy --filter --talk=org.a.T
client call 10 path=/x interface=org.h.I member=M destination=org.h.X
client call_without_start 11 path=/x interface=org.h.I member=M destination=org.h.X
client call 12 path=/x interface=org.h.I member=M destination=:1.99
bus ret 101 1
bus ret 102 2
bus ret 103 3
to_bus ping 1
to_bus ping 2
to_bus ping 3
to_client unknown 101 10
to_client no_owner 102 11
to_client no_owner 103 12
",
    // A ping's answer is used up, also by an error.
    "\
policy --filter
client call 5 path=/x interface=org.h.I member=M destination=org.h.X
bus error 90 error_name=org.freedesktop.DBus.Error.UnknownMethod reply=1 destination=:1.40 sender=org.freedesktop.DBus | s no
bus ret 91 1
to_bus ping 1
to_client unknown 90 5
",
    // Serials are written in each message's order and place.
    "\
policy --filter --talk=a.b
client bytes B%01~%01~~~~%01%02%03%04~~~,%01%01o~~~~%01/~~~~~~~%03%01s~~~~%01M~~~~~~~%06%01s~~~~%03a.b~~~~~
bus bytes l%02%01%01~~~~%09~~~%18~~~%07%01s~%04~~~:1.7~~~~%05%01u~%01~~~
to_bus bytes B%01~%01~~~~~~~%01~~~,%01%01o~~~~%01/~~~~~~~%03%01s~~~~%01M~~~~~~~%06%01s~~~~%03a.b~~~~~
to_client bytes l%02%01%01~~~~%09~~~%18~~~%07%01s~%04~~~:1.7~~~~%05%01u~%04%03%02%01
",
    // Nothing comes.
    "\
policy --filter
",
];

/// Calls to the bus, by their interface, their member and their first text.
const BUS_CALLS: [&str; 7] = [
    // Nobody eavesdrops, and the credentials of a hidden name have no owner.
    "\
policy --filter
client bus 1 AddMatch | s eavesdrop='true'
client bus 2 GetConnectionCredentials | s :1.99
client call 3 path=/org/freedesktop/DBus member=Hello destination=org.freedesktop.DBus
bus ret 5 1
bus ret 6 2
to_bus ping 1
to_bus ping 2
to_bus call 3 path=/org/freedesktop/DBus member=Hello destination=org.freedesktop.DBus
to_client denied 5 1
to_client no_owner 6 2
",
    // Names are requested by the policy's leave alone.
    "\
policy --filter --own=org.a.Me
client bus 1 RequestName | su org.a.Me 0
client bus 2 RequestName | su org.a.You 0
client bus 3 NameHasOwner | s org.h.X
bus ret 70 3
bus ret 71 2
bus ret 72 1 | u 1
to_bus bus 1 RequestName | su org.a.Me 0
to_bus ping 2
to_bus ping 3
to_client false 70 3
to_client denied 71 2
to_client ret 72 1 | u 1
",
    // A text has to stand first in the body if one is asked of.
    "\
policy --filter --own=org.a.Me
client bus 1 AddMatch
client bus 2 RemoveMatch | u 7
client bus 3 RequestName | us 0 org.a.Me
client bus 4 NameHasOwner | as [org.a.Me]
client bus 5 AddMatch | s type='signal'
client bus 6 RemoveMatch | s path='/eavesdropper'
client bus 7 NameHasOwner | ss org.a.Me org.h.X
bus ret 61 1
bus ret 62 2
bus ret 63 3
bus ret 64 4
bus ret 66 6
to_bus ping 1
to_bus ping 2
to_bus ping 3
to_bus ping 4
to_bus bus 5 AddMatch | s type='signal'
to_bus ping 6
to_bus bus 7 NameHasOwner | ss org.a.Me org.h.X
to_client denied 61 1
to_client denied 62 2
to_client denied 63 3
to_client denied 64 4
to_client denied 66 6
",
    // A name is asked for at See, started at Talk and released at Own.
    "\
policy --filter --see=org.s.S --talk=org.t.T --own=org.o.O
client bus 11 GetNameOwner | s org.s.S
client bus 12 StartServiceByName | su org.s.S 0
client bus 13 StartServiceByName | su org.t.T 0
client bus 14 StartServiceByName | su org.h.X 0
client bus 15 ReleaseName | s org.t.T
client bus 16 ListQueuedOwners | s org.o.O
client bus 17 NameHasOwner | s org.s.S
client bus 18 GetConnectionUnixUser | s org.freedesktop.DBus
client bus 19 GetConnectionUnixUser | s org.h.X
bus ret 52 2
bus ret 54 4
bus ret 55 5
bus ret 59 9
to_bus bus 1 GetNameOwner | s org.s.S
to_bus ping 2
to_bus bus 3 StartServiceByName | su org.t.T 0
to_bus ping 4
to_bus ping 5
to_bus bus 6 ListQueuedOwners | s org.o.O
to_bus bus 7 NameHasOwner | s org.s.S
to_bus bus 8 GetConnectionUnixUser | s org.freedesktop.DBus
to_bus ping 9
to_client denied 52 12
to_client unknown 54 14
to_client denied 55 15
to_client no_owner 59 19
",
    // The standard interfaces are free; another one, and a member that isn't listed, is denied. A call without a
    // destination is one to the bus.
    "\
policy --filter
client bus 1 BecomeMonitor | asu [] 0
client call 2 path=/org/freedesktop/DBus interface=org.freedesktop.DBus.Debug.Stats member=GetStats destination=org.freedesktop.DBus
client call 3 path=/ interface=org.freedesktop.DBus.Peer member=Ping destination=org.freedesktop.DBus
client call 4 path=/ interface=org.freedesktop.DBus.Properties member=GetAll destination=org.freedesktop.DBus | s org.freedesktop.DBus
client call 5 path=/ interface=org.freedesktop.DBus.Introspectable member=Introspect
client call 6 path=/ member=UpdateActivationEnvironment destination=org.freedesktop.DBus
client call_without_reply 7 path=/ member=ReloadConfig destination=org.freedesktop.DBus
client call 8 path=/ member=GetId
bus ret 91 1
bus ret 92 2
bus ret 96 6
to_bus ping 1
to_bus ping 2
to_bus call 3 path=/ interface=org.freedesktop.DBus.Peer member=Ping destination=org.freedesktop.DBus
to_bus call 4 path=/ interface=org.freedesktop.DBus.Properties member=GetAll destination=org.freedesktop.DBus | s org.freedesktop.DBus
to_bus call 5 path=/ interface=org.freedesktop.DBus.Introspectable member=Introspect
to_bus ping 6
to_bus call 7 path=/ member=GetId
to_client denied 91 1
to_client denied 92 2
to_client denied 96 6
",
    // Whether a hidden name has an owner is answered in the order of the call.
    "\
policy --filter
client bus 3 NameHasOwner | s org.h.X
client bytes B%01~%01~~~%0C%01%02%03%04~~~%7F%01%01o~~~~%15/org/freedesktop/DBus~~~%02%01s~~~~%14org.freedesktop.DBus\
    ~~~~%03%01s~~~~%0CNameHasOwner~~~~%06%01s~~~~%14org.freedesktop.DBus~~~~%08%01g~%01s~~~~~%07org.h.X~
bus ret 70 1
bus ret 71 2
to_bus ping 1
to_bus ping 2
to_client false 70 3
to_client bytes B%02%01%01~~~%04~~~G~~~/%05%01u~%01%02%03%04%07%01s~~~~%14org.freedesktop.DBus~~~~%08%01g~%01b~~~~~~
",
    // An answer that was asked for comes, one that was not doesn't.
    "\
policy --filter
bus ret 9 1
client bus 4 GetId
bus ret 10 1 | s ab
to_bus bus 1 GetId
to_client ret 10 4 | s ab
",
];

/// Malformed messages, and messages of a type that nobody knows.
const ENDS: [&str; 5] = [
    "\
policy --filter --talk=org.a.T
client call 9 path=/p interface=org.a.I member=A destination=org.a.T
client bytes %FF%FF%FF%FF%FF%FF%FF%FF%FF%FF%FF%FF%FF%FF%FF%FF
to_bus call 1 path=/p interface=org.a.I member=A destination=org.a.T
end %01%01%01~~~~~~~~
",
    "\
policy --filter --talk=org.a.T
client type_9 9 path=/p interface=org.a.I member=A destination=org.a.T
",
    "\
policy --filter --talk=org.a.T
bus type_9 9 path=/p interface=org.a.I member=A destination=:1.40 sender=org.a.T
",
    "\
policy --filter --talk=org.a.T
client bytes l%01~%01%F1%FF%FF%07%01~~~~~~~
end %01%01%04%04~~~~~~~
",
    "\
policy --filter --talk=org.a.T
client bytes l%01~%01%F0%FF%FF%07%01~~~~~~~
",
];

#[test]
fn calls_and_their_answers_go_to_either_side(rt: HostRuntime) {
    assert_cases(&rt, rt.alloc(), &CALLS);
}

#[test]
fn calls_to_the_bus_pass_by_their_member(rt: HostRuntime) {
    assert_cases(&rt, rt.alloc(), &BUS_CALLS);
}

#[test]
fn what_is_malformed_ends_the_session(rt: HostRuntime) {
    assert_cases(&rt, rt.alloc(), &ENDS);
}
