//! What the proxy asks of the bus after the first Hello, and what it learns of the owners of names.
use crate::cases::assert_cases;

/// The first Hello, and the calls after it.
const HELLOS: [&str; 9] = [
    // The owner of a name is asked for, and may be called by its unique name.
    "\
policy --filter --talk=org.a.T
client bus 1 Hello
bus ret 1 1 | s :1.40
bus ret 2 2
bus ret 3 3 | s :1.7
bus owner_change 4 org.a.T :1.7 ''
client call 2 path=/p interface=org.a.I member=M destination=:1.7
to_bus bus 1 Hello
to_bus add_match 2 org.a.T
to_bus get_owner 3 org.a.T
to_bus call 4 path=/p interface=org.a.I member=M destination=:1.7
to_client ret 1 1 | s :1.40
to_client owner_change 4 org.a.T :1.7 ''
",
    // What is hidden changes nothing of what passes and of what is shown.
    "\
policy --filter --talk=org.a.T
client bus 1 Hello
bus ret 1 1 | s :1.40
bus signal 100 path=/h interface=org.h.I member=S sender=:1.60
bus owner_change 200 org.h.X1 '' :1.60
bus owner_change 200 org.h.X2 '' :1.60
bus signal 100 path=/h interface=org.h.I member=S sender=:1.60
bus ret 100 9
bus owner_change 200 org.h.X1 :1.60 ''
bus ret 2 2
bus ret 3 3 | s :1.7
bus signal 100 path=/h interface=org.h.I member=S sender=:1.60
bus owner_change 200 org.h.X1 '' :1.60
bus owner_change 200 org.h.X2 '' :1.60
bus signal 100 path=/h interface=org.h.I member=S sender=:1.60
bus ret 100 9
bus owner_change 200 org.h.X1 :1.60 ''
bus owner_change 4 org.a.T :1.7 ''
client call 2 path=/p interface=org.a.I member=M destination=:1.7
to_bus bus 1 Hello
to_bus add_match 2 org.a.T
to_bus get_owner 3 org.a.T
to_bus call 4 path=/p interface=org.a.I member=M destination=:1.7
to_client ret 1 1 | s :1.40
to_client owner_change 4 org.a.T :1.7 ''
",
    // A second Hello passes alone.
    "\
policy --filter --talk=org.a.T
client bus 1 Hello
client bus 2 Hello
to_bus bus 1 Hello
to_bus add_match 2 org.a.T
to_bus get_owner 3 org.a.T
to_bus bus 4 Hello
",
    // A Hello may name neither an interface nor a destination.
    "\
policy --filter --talk=org.a.T
client call 1 path=/ member=Hello
client call 2 path=/ member=Hello destination=org.freedesktop.DBus
to_bus call 1 path=/ member=Hello
to_bus add_match 2 org.a.T
to_bus get_owner 3 org.a.T
to_bus call 4 path=/ member=Hello destination=org.freedesktop.DBus
",
    // Each pattern is asked for once, in the order of the policy.
    "\
policy --filter --see=org.b.B --talk=org.a.* --own=org.b.B --see=org.a.* --call=org.a.N=
client bus 9 GetId
client bus 1 Hello
to_bus bus 1 GetId
to_bus bus 2 Hello
to_bus add_match 3 org.b.B
to_bus get_owner 4 org.b.B
to_bus add_match 5 org.a.*
to_bus add_match 6 org.a.N
to_bus get_owner 7 org.a.N
to_bus list_names 8
",
    // A Hello that wants no reply is followed by the same calls, and its answer is none.
    "\
policy --filter --talk=org.a.T
client call_without_reply 1 path=/org/freedesktop/DBus interface=org.freedesktop.DBus member=Hello destination=org.freedesktop.DBus
bus ret 1 1 | s :1.40
client call 2 path=/p interface=org.a.I member=M destination=:1.40
to_bus call_without_reply 1 path=/org/freedesktop/DBus interface=org.freedesktop.DBus member=Hello destination=org.freedesktop.DBus
to_bus add_match 2 org.a.T
to_bus get_owner 3 org.a.T
to_bus ping 4
",
    // A Hello to another name or of another interface is none of the bus.
    "\
policy --filter --talk=org.a.T
client call 1 path=/ interface=org.freedesktop.DBus member=Hello destination=org.a.T
client call 2 path=/ interface=org.freedesktop.DBus.Peer member=Hello destination=org.freedesktop.DBus
client call 3 path=/ interface=org.a.I member=Hello destination=org.freedesktop.DBus
client signal 4 path=/ interface=org.freedesktop.DBus member=Hello destination=org.freedesktop.DBus
to_bus call 1 path=/ interface=org.freedesktop.DBus member=Hello destination=org.a.T
to_bus call 2 path=/ interface=org.freedesktop.DBus.Peer member=Hello destination=org.freedesktop.DBus
to_bus ping 3
to_bus signal 4 path=/ interface=org.freedesktop.DBus member=Hello destination=org.freedesktop.DBus
",
    // The client's own name is known from Hello's answer on.
    "\
policy --filter
client bus 1 Hello
client call 2 path=/p interface=org.a.I member=M destination=:1.40
bus ret 1 1 | s :1.40
client call 3 path=/p interface=org.a.I member=M destination=:1.40
to_bus bus 1 Hello
to_bus ping 2
to_bus call 3 path=/p interface=org.a.I member=M destination=:1.40
to_client ret 1 1 | s :1.40
",
    // An error and another body tell no name.
    "\
policy --filter
client bus 1 Hello
client bus 2 Hello
client bus 3 Hello
bus error 11 error_name=org.freedesktop.DBus.Error.LimitsExceeded reply=1 destination=:1.40 sender=org.freedesktop.DBus | s :1.40
bus ret 12 2 | ss :1.40 :1.40
bus ret 13 3 | s org.a.T
client call 4 path=/p interface=org.a.I member=M destination=:1.40
client call 5 path=/p interface=org.a.I member=M destination=org.a.T
to_bus bus 1 Hello
to_bus bus 2 Hello
to_bus bus 3 Hello
to_bus ping 4
to_bus ping 5
to_client error 11 error_name=org.freedesktop.DBus.Error.LimitsExceeded reply=1 destination=:1.40 sender=org.freedesktop.DBus | s :1.40
to_client ret 12 2 | ss :1.40 :1.40
to_client ret 13 3 | s org.a.T
",
];

/// Answers to the calls of the proxy, which the client is never shown.
const ANSWERS: [&str; 9] = [
    // Errors and other bodies teach nothing, and an answer counts once.
    "\
policy --filter --talk=org.a.T --talk=org.b.T
client bus 1 Hello
bus error 2 error_name=org.freedesktop.DBus.Error.MatchRuleInvalid reply=2 destination=:1.40 sender=org.freedesktop.DBus | s no
bus error 3 error_name=org.freedesktop.DBus.Error.NameHasNoOwner reply=3 destination=:1.40 sender=org.freedesktop.DBus | s :1.7
bus ret 4 4 | s :1.7
bus ret 5 5 | ss :1.8 :1.8
bus ret 6 3 | s :1.7
client call 2 path=/p interface=org.a.I member=M destination=:1.7
client call 3 path=/p interface=org.a.I member=M destination=:1.8
to_bus bus 1 Hello
to_bus add_match 2 org.a.T
to_bus get_owner 3 org.a.T
to_bus add_match 4 org.b.T
to_bus get_owner 5 org.b.T
to_bus ping 6
to_bus ping 7
",
    // The second answer to a call teaches nothing.
    "\
policy --filter --talk=org.a.T
client bus 1 Hello
bus ret 3 3 | s :1.7
bus ret 4 3 | s :1.8
client call 2 path=/p interface=org.a.I member=M destination=:1.8
client call 3 path=/p interface=org.a.I member=M destination=:1.7
to_bus bus 1 Hello
to_bus add_match 2 org.a.T
to_bus get_owner 3 org.a.T
to_bus ping 4
to_bus call 5 path=/p interface=org.a.I member=M destination=:1.7
",
    // A text that is no unique name is no owner.
    "\
policy --filter --talk=org.a.T --talk=org.b.T
client bus 1 Hello
bus ret 3 3 | s org.h.X
bus ret 5 5 | s ''
client call 2 path=/p interface=org.a.I member=M destination=org.h.X
to_bus bus 1 Hello
to_bus add_match 2 org.a.T
to_bus get_owner 3 org.a.T
to_bus add_match 4 org.b.T
to_bus get_owner 5 org.b.T
to_bus ping 6
",
    // An answer to a call that isn't made yet is none.
    "\
policy --filter --talk=org.a.T
bus ret 3 3 | s :1.7
client bus 1 Hello
client call 2 path=/p interface=org.a.I member=M destination=:1.7
bus ret 4 3 | s :1.7
client call 3 path=/p interface=org.a.I member=M destination=:1.7
to_bus bus 1 Hello
to_bus add_match 2 org.a.T
to_bus get_owner 3 org.a.T
to_bus ping 4
to_bus call 5 path=/p interface=org.a.I member=M destination=:1.7
",
    // Owners are asked for as often as a list names them, if a subtree covers and no exact pattern names them.
    "\
policy --filter --talk=org.a.* --see=org.a.N
client bus 1 Hello
bus ret 5 5 | as [org.freedesktop.DBus,:1.40,org.a.B,org.a.N,org.h.X,org.a.B,org.a.7,org.a.,:org.a.B,'',org.ab.C,org.a]
bus ret 6 6 | s :1.7
bus ret 7 7 | s :1.8
client call 2 path=/p interface=org.a.I member=M destination=:1.7
client call 3 path=/p interface=org.a.I member=M destination=:1.8
to_bus bus 1 Hello
to_bus add_match 2 org.a.*
to_bus add_match 3 org.a.N
to_bus get_owner 4 org.a.N
to_bus list_names 5
to_bus get_owner 6 org.a.B
to_bus get_owner 7 org.a.B
to_bus get_owner 8 org.a
to_bus call 9 path=/p interface=org.a.I member=M destination=:1.7
to_bus call 10 path=/p interface=org.a.I member=M destination=:1.8
",
    // An error in place of the list asks for nothing, and the list can't follow it.
    "\
policy --filter --talk=org.a.*
client bus 1 Hello
bus error 3 error_name=org.freedesktop.DBus.Error.Failed reply=3 destination=:1.40 sender=org.freedesktop.DBus | as [org.a.B]
bus ret 4 3 | as [org.a.B]
to_bus bus 1 Hello
to_bus add_match 2 org.a.*
to_bus list_names 3
",
    // Another body is no list.
    "\
policy --filter --talk=org.a.*
client bus 1 Hello
bus ret 3 3 | asas [org.a.B] [org.a.B]
to_bus bus 1 Hello
to_bus add_match 2 org.a.*
to_bus list_names 3
",
    // A list is answered once.
    "\
policy --filter --talk=org.a.*
client bus 1 Hello
bus ret 3 3 | as [org.a.B]
bus ret 4 3 | as [org.a.C]
to_bus bus 1 Hello
to_bus add_match 2 org.a.*
to_bus list_names 3
to_bus get_owner 4 org.a.B
",
    // A list without a name asks for nothing.
    "\
policy --filter --talk=org.a.*
client bus 1 Hello
bus ret 3 3 | as []
client bus 2 GetId
to_bus bus 1 Hello
to_bus add_match 2 org.a.*
to_bus list_names 3
to_bus bus 4 GetId
",
];

/// Changes of owners that the bus tells of.
const CHANGES: [&str; 8] = [
    // Those of all unique names are shown if the policy says so, which changes nothing else.
    "\
policy --filter --sloppy-names
bus owner_change 1 :1.31 :1.31 ''
bus owner_change 2 org.h.X '' :1.31
bus owner_change 3 :1.32 '' :1.32
client call 1 path=/p interface=org.a.I member=M destination=:1.31
to_bus ping 1
to_client owner_change 1 :1.31 :1.31 ''
to_client owner_change 3 :1.32 '' :1.32
",
    "\
policy --filter
bus owner_change 1 :1.31 :1.31 ''
bus owner_change 2 org.h.X '' :1.31
bus owner_change 3 :1.32 '' :1.32
",
    "\
policy --sloppy-names
bus owner_change 1 :1.31 :1.31 ''
bus owner_change 2 org.h.X '' :1.31
to_client owner_change 1 :1.31 :1.31 ''
to_client owner_change 2 org.h.X '' :1.31
",
    // A change of a name's owner is shown if the client sees the name, also a unique one that it met.
    "\
policy --filter --talk=org.a.T
bus owner_change 1 org.h.X '' :1.50
bus owner_change 2 org.a.T '' :1.8
bus call 9 path=/o interface=org.c.I member=M destination=:1.40 sender=:1.30
bus owner_change 3 :1.30 :1.30 ''
bus owner_change 4 :1.31 :1.31 ''
to_client owner_change 2 org.a.T '' :1.8
to_client call 9 path=/o interface=org.c.I member=M destination=:1.40 sender=:1.30
to_client owner_change 3 :1.30 :1.30 ''
",
    // Both owners of a name that an entry covers are known from then on, those of other names aren't.
    "\
policy --filter --talk=org.a.*
bus owner_change 1 org.h.X '' :1.50
bus owner_change 2 org.a.T :1.7 :1.8
bus owner_change 3 org.a.T :1.8 org.h.X
bus owner_change 4 org.freedesktop.DBus '' :1.9
client call 1 path=/p interface=org.a.I member=M destination=:1.50
client call 2 path=/p interface=org.a.I member=M destination=:1.7
client call 3 path=/p interface=org.a.I member=M destination=:1.8
client call 4 path=/p interface=org.a.I member=M destination=org.h.X
client call 5 path=/p interface=org.a.I member=M destination=:1.9
to_bus ping 1
to_bus call 2 path=/p interface=org.a.I member=M destination=:1.7
to_bus call 3 path=/p interface=org.a.I member=M destination=:1.8
to_bus ping 4
to_bus ping 5
to_client owner_change 2 org.a.T :1.7 :1.8
to_client owner_change 3 org.a.T :1.8 org.h.X
to_client owner_change 4 org.freedesktop.DBus '' :1.9
",
    // A change before Hello's answer counts.
    "\
policy --filter --talk=org.a.T
client bus 1 Hello
bus owner_change 1 org.a.T '' :1.8
bus ret 2 1 | s :1.40
client call 2 path=/p interface=org.a.I member=M destination=:1.8
to_bus bus 1 Hello
to_bus add_match 2 org.a.T
to_bus get_owner 3 org.a.T
to_bus call 4 path=/p interface=org.a.I member=M destination=:1.8
to_client owner_change 1 org.a.T '' :1.8
to_client ret 2 1 | s :1.40
",
    // The bus alone tells of owners, by three texts.
    "\
policy --filter --talk=org.a.T
bus signal 1 path=/org/freedesktop/DBus interface=org.freedesktop.DBus member=NameOwnerChanged sender=:1.60 | sss org.a.T '' :1.60
bus signal 2 path=/org/freedesktop/DBus interface=org.freedesktop.DBus member=NameOwnerChanged sender=org.freedesktop.DBus | ss org.a.T :1.61
bus signal 3 path=/org/freedesktop/DBus interface=org.freedesktop.DBus member=NameOwnerChanged | sss org.a.T '' :1.62
bus signal 4 path=/org/freedesktop/DBus interface=org.freedesktop.DBus member=NameOwnerChanged destination=:1.40 sender=org.freedesktop.DBus | sss org.h.X '' :1.63
bus signal 5 path=/org/freedesktop/DBus interface=org.freedesktop.DBus member=NameOwnerChanged destination=:1.40 sender=org.freedesktop.DBus | sss org.a.T '' :1.64
client call 1 path=/p interface=org.a.I member=M destination=:1.60
client call 2 path=/p interface=org.a.I member=M destination=:1.61
client call 3 path=/p interface=org.a.I member=M destination=:1.62
client call 4 path=/p interface=org.a.I member=M destination=:1.63
client call 5 path=/p interface=org.a.I member=M destination=:1.64
to_bus ping 1
to_bus ping 2
to_bus ping 3
to_bus ping 4
to_bus call 5 path=/p interface=org.a.I member=M destination=:1.64
to_client signal 5 path=/org/freedesktop/DBus interface=org.freedesktop.DBus member=NameOwnerChanged destination=:1.40 sender=org.freedesktop.DBus | sss org.a.T '' :1.64
",
    // An owner has the greatest level of the names that it is known to have owned, and the rules of all of them.
    "\
policy --filter --see=org.a.S --talk=org.a.T --call=org.a.C=org.a.I.M
bus owner_change 1 org.a.S '' :1.7
bus owner_change 2 org.a.C '' :1.7
client call 1 path=/p interface=org.a.I member=M destination=:1.7
client call 2 path=/p interface=org.a.I member=N destination=:1.7
bus owner_change 3 org.a.T '' :1.7
client call 3 path=/p interface=org.a.I member=N destination=:1.7
bus ret 52 2
client bus 4 GetNameOwner | s :1.7
client bus 5 RequestName | su :1.7 0
bus ret 55 5
to_bus call 1 path=/p interface=org.a.I member=M destination=:1.7
to_bus ping 2
to_bus call 3 path=/p interface=org.a.I member=N destination=:1.7
to_bus bus 4 GetNameOwner | s :1.7
to_bus ping 5
to_client owner_change 1 org.a.S '' :1.7
to_client owner_change 2 org.a.C '' :1.7
to_client owner_change 3 org.a.T '' :1.7
to_client denied 52 2
to_client denied 55 5
",
];

#[test]
fn own_calls_follow_the_first_hello(rt: HostRuntime) {
    assert_cases(&rt, rt.alloc(), &HELLOS);
}

#[test]
fn answers_to_own_calls_teach_owners(rt: HostRuntime) {
    assert_cases(&rt, rt.alloc(), &ANSWERS);
}

#[test]
fn changes_of_owners_are_learned_and_shown(rt: HostRuntime) {
    assert_cases(&rt, rt.alloc(), &CHANGES);
}
