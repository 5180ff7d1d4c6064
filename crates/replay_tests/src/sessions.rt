//! Sessions from their first lines of authentication on.
use crate::cases::assert_cases;

/// Lines of authentication, and the messages after them.
const LINES: [&str; 13] = [
    "\
policy --filter --talk=org.a.T
lines
client bytes ~AUTH EXTERNAL%0D%0ABEGIN%0D
client bytes %0A
client call 1 path=/p interface=org.a.I member=A destination=org.a.T
bus bytes OK 00112233445566778899aabbccddeeff%0D%0A
bus return 9 reply=1 destination=:1.40 sender=:1.7
to_bus bytes ~AUTH EXTERNAL%0D%0ABEGIN%0D%0A
to_bus call 1 path=/p interface=org.a.I member=A destination=org.a.T
to_client bytes OK 00112233445566778899aabbccddeeff%0D%0A
to_client return 9 reply=1 destination=:1.40 sender=:1.7
",
    // A sandboxed application opens a file by a portal.
    "\
policy --filter --call=org.freedesktop.portal.*=* --broadcast=org.freedesktop.portal.*=@/org/freedesktop/portal/*
lines
client bytes ~AUTH EXTERNAL%0D%0ADATA%0D%0ANEGOTIATE_UNIX_FD%0D%0ABEGIN%0D%0A
bus bytes DATA%0D%0AOK 0123456789abcdef0123456789abcdef%0D%0AERROR%0D%0A
client bus 1 Hello
bus ret 1 1 | s :1.40
bus signal 2 path=/org/freedesktop/DBus interface=org.freedesktop.DBus member=NameAcquired destination=:1.40 sender=org.freedesktop.DBus | s :1.40
bus ret 3 2
bus ret 4 3 | as [org.freedesktop.DBus,:1.40,org.freedesktop.portal.Desktop,org.kde.Secret,:1.9]
bus ret 5 4 | s :1.9
client bus 2 AddMatch | s type='signal',sender='org.freedesktop.portal.Desktop'
bus ret 6 5
client call 3 path=/org/freedesktop/portal/desktop interface=org.freedesktop.portal.FileChooser member=OpenFile destination=org.freedesktop.portal.Desktop | ssa{sv} '' Open []
bus return 20 reply=6 destination=:1.40 sender=:1.9 | o /org/freedesktop/portal/desktop/request/1_40/t
bus signal 21 path=/org/freedesktop/portal/desktop/request/1_40/t interface=org.freedesktop.portal.Request member=Response destination=:1.40 sender=:1.9 | ua{sv} 0 []
bus signal 22 path=/org/freedesktop/portal/desktop interface=org.freedesktop.DBus.Properties member=PropertiesChanged sender=:1.9 | sa{sv}as org.freedesktop.portal.Settings [] []
client_ends
to_bus bytes ~AUTH EXTERNAL%0D%0ADATA%0D%0ANO_UNIX_FD%0D%0ABEGIN%0D%0A
to_bus bus 1 Hello
to_bus add_match 2 org.freedesktop.portal.*
to_bus list_names 3
to_bus get_owner 4 org.freedesktop.portal.Desktop
to_bus bus 5 AddMatch | s type='signal',sender='org.freedesktop.portal.Desktop'
to_bus call 6 path=/org/freedesktop/portal/desktop interface=org.freedesktop.portal.FileChooser member=OpenFile destination=org.freedesktop.portal.Desktop | ssa{sv} '' Open []
to_client bytes DATA%0D%0AOK 0123456789abcdef0123456789abcdef%0D%0AERROR%0D%0A
to_client ret 1 1 | s :1.40
to_client signal 2 path=/org/freedesktop/DBus interface=org.freedesktop.DBus member=NameAcquired destination=:1.40 sender=org.freedesktop.DBus | s :1.40
to_client ret 6 2
to_client return 20 reply=3 destination=:1.40 sender=:1.9 | o /org/freedesktop/portal/desktop/request/1_40/t
to_client signal 21 path=/org/freedesktop/portal/desktop/request/1_40/t interface=org.freedesktop.portal.Request member=Response destination=:1.40 sender=:1.9 | ua{sv} 0 []
to_client signal 22 path=/org/freedesktop/portal/desktop interface=org.freedesktop.DBus.Properties member=PropertiesChanged sender=:1.9 | sa{sv}as org.freedesktop.portal.Settings [] []
end %03
",
    // A Hello follows BEGIN in one piece.
    "\
policy --filter
lines
client bytes ~AUTH EXTERNAL%0D%0ADATA%0D%0ABEGIN%0D
client bytes %0A
client bus 1 Hello
bus bytes DATA%0D%0AOK 00112233445566778899aabbccddeeff%0D%0A
bus ret 1 1 | s :1.40
to_bus bytes ~AUTH EXTERNAL%0D%0ADATA%0D%0ABEGIN%0D%0A
to_bus bus 1 Hello
to_client bytes DATA%0D%0AOK 00112233445566778899aabbccddeeff%0D%0A
to_client ret 1 1 | s :1.40
",
    // Descriptors are declined, and lines are answered in turn.
    "\
policy --filter
lines
client bytes ~AUTH EXTERNAL%0D%0ADATA%0D%0ANEGOTIATE_UNIX_FD%0D%0ABEGIN%0D%0A
bus bytes DATA%0D%0AOK 0123456789abcdef0123456789abcdef%0D%0AERROR%0D%0A
to_bus bytes ~AUTH EXTERNAL%0D%0ADATA%0D%0ANO_UNIX_FD%0D%0ABEGIN%0D%0A
to_client bytes DATA%0D%0AOK 0123456789abcdef0123456789abcdef%0D%0AERROR%0D%0A
",
    // Faulty lines end the session and go nowhere.
    "\
policy --filter
lines
client bytes A
end %01~%01~~~~~~~~
",
    "\
policy --filter
lines
client bytes ~
bus bytes O
to_bus bytes ~
end %02~%04~~~~~~~~
",
    "\
policy --filter
lines
client bytes ~NEGOTIATE_UNIX_FD%0D%0A
bus bytes AGREE_UNIX_FD%0D%0A
to_bus bytes ~NO_UNIX_FD%0D%0A
end %02~%05%0E~~~~~~~
",
    // BEGIN inside a line doesn't end the lines.
    "\
policy --filter
lines
client bytes ~DATA BEGIN%0D%0A
to_bus bytes ~DATA BEGIN%0D%0A
",
    "\
policy --filter
lines
client bytes ~DATA BEGIN%0D%0AAUTH%0D%0AA%0A
to_bus bytes ~DATA BEGIN%0D%0AAUTH%0D%0A
end %01~%03%14~~~~~~~
",
    // A line that isn't whole goes nowhere yet.
    "\
policy --filter
lines
client bytes ~AUTH%0D
to_bus bytes ~
",
    // The bus answers once too often.
    "\
policy --filter
lines
client bytes ~AUTH%0D%0A
bus bytes DATA%0D%0ADATA%0D%0A
to_bus bytes ~AUTH%0D%0A
to_client bytes DATA%0D%0A
end %02~%04%06~~~~~~~
",
    // The bus is sent BEGIN alone, so that it reads messages from there on as the proxy does.
    "\
policy --filter
lines
client bytes ~AUTH EXTERNAL 30%0D%0ABEGIN x%0D%0A
client signal 7 path=/p interface=org.a.I member=S
client call 8 path=/p interface=org.a.I member=A destination=org.h.X
to_bus bytes ~AUTH EXTERNAL 30%0D%0ABEGIN%0D%0A
to_bus signal 1 path=/p interface=org.a.I member=S
to_bus ping 2
",
    // After BEGIN the client's bytes are messages.
    "\
policy --filter
lines
client bytes ~BEGIN now%0D%0AAUTH EXTERNAL%0D%0A%0D%0A
to_bus bytes ~BEGIN%0D%0A
end %01%01%01~~~~~~~~
",
];

#[test]
fn messages_follow_the_lines(rt: HostRuntime) {
    assert_cases(&rt, rt.alloc(), &LINES);
}
