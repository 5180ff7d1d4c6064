//! Calls and signals of peers, the replies of the client to them, and its own signals.
use crate::cases::assert_cases;

/// Calls of peers, and the replies that are owed to them.
const CALLS: [&str; 6] = [
    // Each call of a peer is answered once.
    "\
policy --filter
bus call 7 path=/o interface=org.c.I member=M destination=:1.40 sender=:1.5
bus call 7 path=/o interface=org.c.I member=M destination=:1.40 sender=:1.6
client return 1 reply=7 destination=:1.5
client return 2 reply=7 destination=:1.5
client return 3 reply=7 destination=:1.6
to_bus return 1 reply=7 destination=:1.5
to_bus return 2 reply=7 destination=:1.6
to_client call 7 path=/o interface=org.c.I member=M destination=:1.40 sender=:1.5
to_client call 7 path=/o interface=org.c.I member=M destination=:1.40 sender=:1.6
",
    // A peer that calls twice with one serial is answered twice, also by errors.
    "\
policy --filter
bus call 7 path=/o interface=org.c.I member=M destination=:1.40 sender=:1.5
bus call 7 path=/o interface=org.c.I member=M destination=:1.40 sender=:1.5
client return 1 reply=7 destination=:1.5 | s a
client error 2 error_name=org.a.Error reply=7 destination=:1.5 | s no
client return 3 reply=7 destination=:1.5
bus call 7 path=/o interface=org.c.I member=M destination=:1.40 sender=:1.5
client return 4 reply=7 destination=:1.5
to_bus return 1 reply=7 destination=:1.5 | s a
to_bus error 2 error_name=org.a.Error reply=7 destination=:1.5 | s no
to_bus return 3 reply=7 destination=:1.5
to_client call 7 path=/o interface=org.c.I member=M destination=:1.40 sender=:1.5
to_client call 7 path=/o interface=org.c.I member=M destination=:1.40 sender=:1.5
to_client call 7 path=/o interface=org.c.I member=M destination=:1.40 sender=:1.5
",
    // A reply to another peer, to nobody or to another serial isn't owed.
    "\
policy --filter --talk=org.a.T
bus call 7 path=/o interface=org.c.I member=M destination=:1.40 sender=:1.5
client return 1 reply=7 destination=:1.6
client return 2 reply=7
client return 3 reply=8 destination=:1.5
client error 4 error_name=org.a.Error reply=7 destination=org.a.T
client return 5 reply=7 destination=:1.5
to_bus return 1 reply=7 destination=:1.5
to_client call 7 path=/o interface=org.c.I member=M destination=:1.40 sender=:1.5
",
    // A call that wants no reply, and one without a sender, is shown, and no reply to it is owed.
    "\
policy --filter
bus call_without_reply 7 path=/o interface=org.c.I member=M destination=:1.40 sender=:1.5
bus call 8 path=/o interface=org.c.I member=M destination=:1.40
client return 1 reply=7 destination=:1.5
client return 2 reply=8
to_client call_without_reply 7 path=/o interface=org.c.I member=M destination=:1.40 sender=:1.5
to_client call 8 path=/o interface=org.c.I member=M destination=:1.40
",
    // A signal of the client with a reply serial is no reply.
    "\
policy --filter
bus call 7 path=/o interface=org.c.I member=M destination=:1.40 sender=:1.5
client signal 1 path=/p interface=org.a.I member=S reply=7
client return 2 reply=7 destination=:1.5
to_bus signal 1 path=/p interface=org.a.I member=S reply=7
to_bus return 2 reply=7 destination=:1.5
to_client call 7 path=/o interface=org.c.I member=M destination=:1.40 sender=:1.5
",
    // A peer that calls, or that has a signal for the client, is only seen from then on.
    "\
policy --filter
bus call 9 path=/o interface=org.c.I member=M destination=:1.40 sender=:1.30
bus signal 10 path=/p interface=org.a.I member=S destination=:1.40 sender=:1.31
bus signal 11 path=/p interface=org.a.I member=S sender=:1.32
bus signal 12 path=/p interface=org.a.I member=S destination=:1.40 sender=org.h.X
client call 1 path=/p interface=org.a.I member=M destination=:1.30
client call 2 path=/p interface=org.a.I member=M destination=:1.31
client call 3 path=/p interface=org.a.I member=M destination=:1.32
client call 4 path=/p interface=org.a.I member=M destination=org.h.X
bus ret 51 1
bus ret 52 2
bus ret 53 3
bus ret 54 4
to_bus ping 1
to_bus ping 2
to_bus ping 3
to_bus ping 4
to_client call 9 path=/o interface=org.c.I member=M destination=:1.40 sender=:1.30
to_client signal 10 path=/p interface=org.a.I member=S destination=:1.40 sender=:1.31
to_client signal 12 path=/p interface=org.a.I member=S destination=:1.40 sender=org.h.X
to_client denied 51 1
to_client denied 52 2
to_client no_owner 53 3
to_client unknown 54 4
",
];

/// Signals of either side.
const SIGNALS: [&str; 5] = [
    // The client's signals for all pass, those for one name pass at Talk.
    "\
policy --filter --see=org.s.S --talk=org.t.T --own=org.o.O
client signal 9 path=/p interface=org.a.I member=S
client signal 2 path=/p interface=org.a.I member=S destination=org.h.X
client signal 3 path=/p interface=org.a.I member=S destination=org.s.S
client signal 4 path=/p interface=org.a.I member=S destination=org.t.T
client signal 5 path=/p interface=org.a.I member=S destination=org.o.O
client signal 6 path=/p interface=org.a.I member=S destination=org.freedesktop.DBus
client signal 7 path=/p interface=org.a.I member=S destination=:1.99
to_bus signal 1 path=/p interface=org.a.I member=S
to_bus signal 2 path=/p interface=org.a.I member=S destination=org.t.T
to_bus signal 3 path=/p interface=org.a.I member=S destination=org.o.O
to_bus signal 4 path=/p interface=org.a.I member=S destination=org.freedesktop.DBus
",
    // Signals for all are shown at Talk, those for the client always.
    "\
policy --filter --see=org.s.S --talk=org.t.T --own=org.o.O
bus owner_change 1 org.s.S '' :1.1
bus owner_change 2 org.t.T '' :1.2
bus owner_change 3 org.o.O '' :1.3
bus signal 11 path=/p interface=org.a.I member=S sender=:1.1
bus signal 12 path=/p interface=org.a.I member=S sender=:1.2
bus signal 13 path=/p interface=org.a.I member=S sender=:1.3
bus signal 14 path=/p interface=org.a.I member=S sender=:1.4
bus signal 15 path=/p interface=org.a.I member=S
bus signal 16 path=/p interface=org.a.I member=S sender=org.freedesktop.DBus
bus signal 17 path=/p interface=org.a.I member=S sender=org.s.S
bus signal 18 path=/p interface=org.a.I member=S sender=org.t.T
bus signal 21 path=/p interface=org.a.I member=S destination=:1.40 sender=:1.1
bus signal 22 path=/p interface=org.a.I member=S destination=:1.40 sender=:1.4
bus signal 23 path=/p interface=org.a.I member=S destination=:1.40
bus signal 24 path=/p interface=org.a.I member=S sender=:1.4
to_client owner_change 1 org.s.S '' :1.1
to_client owner_change 2 org.t.T '' :1.2
to_client owner_change 3 org.o.O '' :1.3
to_client signal 12 path=/p interface=org.a.I member=S sender=:1.2
to_client signal 13 path=/p interface=org.a.I member=S sender=:1.3
to_client signal 16 path=/p interface=org.a.I member=S sender=org.freedesktop.DBus
to_client signal 18 path=/p interface=org.a.I member=S sender=org.t.T
to_client signal 21 path=/p interface=org.a.I member=S destination=:1.40 sender=:1.1
to_client signal 22 path=/p interface=org.a.I member=S destination=:1.40 sender=:1.4
to_client signal 23 path=/p interface=org.a.I member=S destination=:1.40
",
    // Whoever owned a name once is shown as before when the name has another owner.
    "\
policy --filter --talk=org.a.T
bus owner_change 1 org.a.T '' :1.7
bus owner_change 2 org.a.T :1.7 :1.8
bus signal 11 path=/p interface=org.a.I member=S sender=:1.7
bus signal 12 path=/p interface=org.a.I member=S sender=:1.8
client signal 1 path=/p interface=org.a.I member=S destination=:1.7
to_bus signal 1 path=/p interface=org.a.I member=S destination=:1.7
to_client owner_change 1 org.a.T '' :1.7
to_client owner_change 2 org.a.T :1.7 :1.8
to_client signal 11 path=/p interface=org.a.I member=S sender=:1.7
to_client signal 12 path=/p interface=org.a.I member=S sender=:1.8
",
    // A rule shows signals of whoever owns a name below a subtree.
    "\
policy --filter --broadcast=org.a.*=org.a.I.*@/a/* --see=org.b.B
bus owner_change 1 org.a.B.C '' :1.7
bus owner_change 2 org.b.B '' :1.8
bus signal 11 path=/a/x interface=org.a.I member=S sender=:1.7
bus signal 12 path=/a interface=org.a.I member=T sender=:1.7
bus signal 13 path=/ab interface=org.a.I member=S sender=:1.7
bus signal 14 path=/a interface=org.a.J member=S sender=:1.7
bus signal 15 path=/a interface=org.a.I member=S sender=:1.8
bus signal 16 path=/a interface=org.a.I member=S sender=org.a.B
bus signal 17 path=/a interface=org.a.I member=S sender=org.b.B
to_client owner_change 1 org.a.B.C '' :1.7
to_client owner_change 2 org.b.B '' :1.8
to_client signal 11 path=/a/x interface=org.a.I member=S sender=:1.7
to_client signal 12 path=/a interface=org.a.I member=T sender=:1.7
to_client signal 16 path=/a interface=org.a.I member=S sender=org.a.B
",
    // Rules on calls show no signals, and rules on signals let no calls pass.
    "\
policy --filter --call=org.a.C=* --broadcast=org.a.B=*
bus signal 11 path=/p interface=org.a.I member=S sender=org.a.C
bus signal 12 path=/p interface=org.a.I member=S sender=org.a.B
client call 1 path=/p interface=org.a.I member=M destination=org.a.C
client call 2 path=/p interface=org.a.I member=M destination=org.a.B
bus ret 50 2
to_bus call 1 path=/p interface=org.a.I member=M destination=org.a.C
to_bus ping 2
to_client signal 12 path=/p interface=org.a.I member=S sender=org.a.B
to_client denied 50 2
",
];

#[test]
fn calls_of_peers_are_shown_and_answered(rt: HostRuntime) {
    assert_cases(&rt, rt.alloc(), &CALLS);
}

#[test]
fn signals_pass_and_are_shown_by_level(rt: HostRuntime) {
    assert_cases(&rt, rt.alloc(), &SIGNALS);
}
