//! Answers of the bus to calls of the client.
use crate::cases::assert_cases;

/// Lists of names, which are cut to those that the client sees.
const LISTS: [&str; 4] = [
    // A list keeps the names that the client sees, in their order.
    "\
policy --filter --see=org.a.*
client bus 7 ListNames
client bus 2 ListNames
bus ret 30 1 | as [org.freedesktop.DBus,org.h.N0,org.a.A,org.h.N1,org.a.B]
bus ret 31 2 | as [org.h.X]
to_bus bus 1 ListNames
to_bus bus 2 ListNames
to_client ret 30 7 | as [org.freedesktop.DBus,org.a.A,org.a.B]
to_client bytes l%02%01%01%04~~~%1F~~~@~~~%05%01u~%02~~~%06%01s~%05~~~:1.40~~~%07%01s~%14~~~org.freedesktop.DBus~~~~%08%01g~%02as~~~~~
",
    // Unique names are kept if they are known, and a list that may be started is cut too.
    "\
policy --filter --talk=org.a.T
bus call 9 path=/o interface=org.c.I member=M destination=:1.40 sender=:1.30
bus owner_change 1 org.a.T '' :1.7
client bus 1 ListNames
client bus 2 ListActivatableNames
client call 3 path=/ member=ListNames
bus ret 30 1 | as [:1.30,:1.31,:1.7,:1.8,org.a.T]
bus ret 31 2 | as [org.a.T,org.h.X,org.a.T,x,'']
bus ret 32 3 | as [org.h.X,org.a.T]
to_bus bus 1 ListNames
to_bus bus 2 ListActivatableNames
to_bus call 3 path=/ member=ListNames
to_client call 9 path=/o interface=org.c.I member=M destination=:1.40 sender=:1.30
to_client owner_change 1 org.a.T '' :1.7
to_client ret 30 1 | as [:1.30,:1.7,org.a.T]
to_client ret 31 2 | as [org.a.T,org.a.T]
to_client ret 32 3 | as [org.a.T]
",
    // An error in place of a list comes whole, another body is hidden, and nothing comes twice.
    "\
policy --filter --see=org.a.*
client bus 5 ListNames
client bus 6 ListNames
client bus 7 ListActivatableNames
bus error 30 error_name=org.freedesktop.DBus.Error.Failed reply=1 destination=:1.40 sender=org.freedesktop.DBus | as [org.h.X]
bus ret 31 2 | s org.h.X
bus ret 32 2 | as [org.a.A]
bus ret 33 3 | asas [org.h.X] []
to_bus bus 1 ListNames
to_bus bus 2 ListNames
to_bus bus 3 ListActivatableNames
to_client error 30 error_name=org.freedesktop.DBus.Error.Failed reply=5 destination=:1.40 sender=org.freedesktop.DBus | as [org.h.X]
",
    // Lists that others give, and that other interfaces give, come whole.
    "\
policy --filter --talk=org.a.T
client call 4 path=/ interface=org.freedesktop.DBus.Peer member=ListNames destination=org.freedesktop.DBus
client call 5 path=/ interface=org.freedesktop.DBus member=ListNames destination=org.a.T
bus ret 30 1 | as [org.h.X]
bus return 31 reply=2 destination=:1.40 sender=:1.7 | as [org.h.Y]
to_bus call 1 path=/ interface=org.freedesktop.DBus.Peer member=ListNames destination=org.freedesktop.DBus
to_bus call 2 path=/ interface=org.freedesktop.DBus member=ListNames destination=org.a.T
to_client ret 30 4 | as [org.h.X]
to_client return 31 reply=5 destination=:1.40 sender=:1.7 | as [org.h.Y]
",
];

/// Replies to calls.
const REPLIES: [&str; 3] = [
    // An error is an answer.
    "\
policy --filter --talk=org.a.T
client call 9 path=/p interface=org.a.I member=M destination=org.a.T
bus error 60 error_name=org.a.Error reply=1 destination=:1.40 sender=:1.7 | su no 7
bus return 61 reply=1 destination=:1.40 sender=:1.7
to_bus call 1 path=/p interface=org.a.I member=M destination=org.a.T
to_client error 60 error_name=org.a.Error reply=9 destination=:1.40 sender=:1.7 | su no 7
",
    // What wants no reply has no answer.
    "\
policy --filter --talk=org.a.T
client call_without_reply 1 path=/p interface=org.a.I member=M destination=org.a.T
client signal 2 path=/p interface=org.a.I member=S
bus return 60 reply=1 destination=:1.40 sender=:1.7
bus return 61 reply=2 destination=:1.40 sender=:1.7
to_bus call_without_reply 1 path=/p interface=org.a.I member=M destination=org.a.T
to_bus signal 2 path=/p interface=org.a.I member=S
",
    // A reply serial in a signal or a call of the bus answers nothing, and stays as it is.
    "\
policy --filter --talk=org.a.T
client call 9 path=/p interface=org.a.I member=M destination=org.a.T
bus signal 60 path=/p interface=org.a.I member=S reply=1 destination=:1.40 sender=:1.7
bus call 61 path=/p interface=org.a.I member=M reply=1 destination=:1.40 sender=:1.7
bus return 62 reply=1 destination=:1.40 sender=:1.7
to_bus call 1 path=/p interface=org.a.I member=M destination=org.a.T
to_client signal 60 path=/p interface=org.a.I member=S reply=1 destination=:1.40 sender=:1.7
to_client call 61 path=/p interface=org.a.I member=M reply=1 destination=:1.40 sender=:1.7
to_client return 62 reply=9 destination=:1.40 sender=:1.7
",
];

#[test]
fn lists_of_names_are_cut(rt: HostRuntime) {
    assert_cases(&rt, rt.alloc(), &LISTS);
}

#[test]
fn replies_answer_their_calls(rt: HostRuntime) {
    assert_cases(&rt, rt.alloc(), &REPLIES);
}
