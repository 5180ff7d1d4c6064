//! Sessions whose messages aren't filtered: after its lines each side's bytes are passed on as they came.
use crate::cases::assert_cases;

/// Bytes from the first on.
const BYTES: [&str; 4] = [
    "\
policy --talk=org.a.T
client bytes %FF%FF%FF
to_bus bytes %FF%FF%FF
",
    // Nothing is looked at: calls to names that no entry covers, answers that nobody asked for, and no messages at all.
    // None has a line of the log.
    "\
policy --log
client bytes l%01~
bus bytes %FF%FE
client call 9 path=/p interface=org.a.I member=A destination=org.h.X
bus return 60 reply=1 destination=:1.40 sender=:1.7
client bus 1 Hello
bus bytes l%01~%01%F1%FF%FF%07%01~~~~~~~
client_ends
to_bus bytes l%01~
to_bus call 9 path=/p interface=org.a.I member=A destination=org.h.X
to_bus bus 1 Hello
to_client bytes %FF%FE
to_client return 60 reply=1 destination=:1.40 sender=:1.7
to_client bytes l%01~%01%F1%FF%FF%07%01~~~~~~~
end %03
",
    // Without lines, what looks like one goes on too.
    "\
policy --talk=org.a.T
client bytes ~NEGOTIATE_UNIX_FD%0D%0A
bus bytes AGREE_UNIX_FD%0D%0A
to_bus bytes ~NEGOTIATE_UNIX_FD%0D%0A
to_client bytes AGREE_UNIX_FD%0D%0A
",
    "\
policy --log
client bytes 
bus bytes 
",
];

/// Lines of authentication, and the bytes after them.
const BEHIND_LINES: [&str; 7] = [
    // Descriptors are declined, and of each side what comes in a piece with its last line goes on.
    "\
policy --talk=org.a.T
lines
client bytes ~AUTH EXTERNAL%0D%0ANEGOTIATE_UNIX_FD%0D%0ABEGIN%0D%0Aabc%0D%0ANEGOTIATE_UNIX_FD%0D%0ABEGIN%0D%0A
bus bytes OK 0123456789abcdef0123456789abcdef%0D%0AERROR%0D%0Axyz%0D%0AAGREE_UNIX_FD%0D%0A
client bytes %FF%0A
bus bytes ~%80
to_bus bytes ~AUTH EXTERNAL%0D%0ANO_UNIX_FD%0D%0ABEGIN%0D%0Aabc%0D%0ANEGOTIATE_UNIX_FD%0D%0ABEGIN%0D%0A%FF%0A
to_client bytes OK 0123456789abcdef0123456789abcdef%0D%0AERROR%0D%0Axyz%0D%0AAGREE_UNIX_FD%0D%0A~%80
",
    // BEGIN comes late, and the bus's bytes after it.
    "\
policy --talk=org.a.T
lines
client bytes ~AUTH%0D%0A
bus bytes DATA%0D%0A
client bytes BEGIN%0D%0A
bus bytes later
client_ends
to_bus bytes ~AUTH%0D%0ABEGIN%0D%0A
to_client bytes DATA%0D%0Alater
end %03
",
    // The client's bytes don't wait for the answers to its lines.
    "\
policy --talk=org.a.T
lines
client bytes ~AUTH%0D%0ABEGIN%0D%0Afirst
client bytes second
bus bytes DATA%0D
to_bus bytes ~AUTH%0D%0ABEGIN%0D%0Afirstsecond
",
    // Before BEGIN the bus sends no byte after its lines.
    "\
policy --talk=org.a.T
lines
client bytes ~AUTH%0D%0A
bus bytes DATA%0D%0Ax
client bytes BEGIN%0D%0A
to_bus bytes ~AUTH%0D%0A
to_client bytes DATA%0D%0A
end %02~%04%06~~~~~~~
",
    // Faulty lines end the session and go nowhere.
    "\
policy --talk=org.a.T
lines
client bytes A
end %01~%01~~~~~~~~
",
    "\
policy --talk=org.a.T
lines
client bytes ~NEGOTIATE_UNIX_FD%0D%0A
bus bytes AGREE_UNIX_FD%0D%0A
to_bus bytes ~NO_UNIX_FD%0D%0A
end %02~%05%0E~~~~~~~
",
    "\
policy --talk=org.a.T
lines
client bytes ~AUTH%0D%0A
bus bytes DATA%0D%0A
client bytes A%0A
to_bus bytes ~AUTH%0D%0A
to_client bytes DATA%0D%0A
end %01~%03%08~~~~~~~
",
];

#[test]
fn bytes_go_on_as_they_came(rt: HostRuntime) {
    assert_cases(&rt, rt.alloc(), &BYTES);
}

#[test]
fn bytes_behind_the_lines_go_on_as_they_came(rt: HostRuntime) {
    assert_cases(&rt, rt.alloc(), &BEHIND_LINES);
}
