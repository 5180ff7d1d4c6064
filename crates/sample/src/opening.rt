//! The messages with which a sample begins: Hello and its return, and the returns to the proxy's own calls.

/// The client's Hello.
pub(crate) const HELLO: [u8; 128] = *b"\
    l\x01\0\x01\0\0\0\0\x01\0\0\0m\0\0\0\
    \x01\x01o\0\x15\0\0\0/org/freedesktop/DBus\0\0\0\
    \x02\x01s\0\x14\0\0\0org.freedesktop.DBus\0\0\0\0\
    \x03\x01s\0\x05\0\0\0Hello\0\0\0\
    \x06\x01s\0\x14\0\0\0org.freedesktop.DBus\0\0\0\0";

/// Its return, with the client's unique name.
pub(crate) const GREETED: [u8; 90] = *b"\
    l\x02\x01\x01\x0a\0\0\0\x01\0\0\0?\0\0\0\
    \x05\x01u\0\x01\0\0\0\
    \x06\x01s\0\x05\0\0\0:1.40\0\0\0\
    \x07\x01s\0\x14\0\0\0org.freedesktop.DBus\0\0\0\0\
    \x08\x01g\0\x01s\0\0\
    \x05\0\0\0:1.40\0";

/// The return to the proxy's AddMatch.
pub(crate) const MATCHED: [u8; 72] = *b"\
    l\x02\x01\x01\0\0\0\0\x02\0\0\x005\0\0\0\
    \x05\x01u\0\x02\0\0\0\
    \x06\x01s\0\x05\0\0\0:1.40\0\0\0\
    \x07\x01s\0\x14\0\0\0org.freedesktop.DBus\0\0\0\0";

/// The return to the proxy's GetNameOwner, with the owner of org.sample.A.
pub(crate) const OWNED: [u8; 89] = *b"\
    l\x02\x01\x01\x09\0\0\0\x03\0\0\0?\0\0\0\
    \x05\x01u\0\x03\0\0\0\
    \x06\x01s\0\x05\0\0\0:1.40\0\0\0\
    \x07\x01s\0\x14\0\0\0org.freedesktop.DBus\0\0\0\0\
    \x08\x01g\0\x01s\0\0\
    \x04\0\0\0:1.5\0";
