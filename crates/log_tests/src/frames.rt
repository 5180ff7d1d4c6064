//! Valid messages, byte for byte.

/// A call to `org.a.T` of a program that isn't named, with serial 7.
pub const CALL: &[u8] = b"l\x01\0\x01\0\0\0\0\x07\0\0\0@\0\0\0\
\x01\x01o\0\x02\0\0\0/p\0\0\0\0\0\0\
\x02\x01s\0\x07\0\0\0org.a.I\0\
\x03\x01s\0\x01\0\0\0A\0\0\0\0\0\0\0\
\x06\x01s\0\x07\0\0\0org.a.T\0";

/// A return of `:1.7` to `:1.40` with serial 60, the answer to serial 2.
pub const RETURN: &[u8] = b"l\x02\x01\x01\0\0\0\0<\0\0\0%\0\0\0\
\x05\x01u\0\x02\0\0\0\
\x06\x01s\0\x05\0\0\0:1.40\0\0\0\
\x07\x01s\0\x04\0\0\0:1.7\0\0\0\0";

/// An error of the bus in big order with serial 0x01020304, the answer to serial 0x05060708.
pub const ERROR: &[u8] = b"B\x03\x01\x01\0\0\0\0\x01\x02\x03\x04\0\0\05\
\x04\x01s\0\0\0\0\x07org.a.E\0\
\x05\x01u\0\x05\x06\x07\x08\
\x07\x01s\0\0\0\0\x14org.freedesktop.DBus\0\0\0\0";

/// A signal of `:1.2` in big order with serial 9.
pub const SIGNAL: &[u8] = b"B\x04\x01\x01\0\0\0\0\0\0\0\x09\0\0\0=\
\x01\x01o\0\0\0\0\x06/org/a\0\0\
\x02\x01s\0\0\0\0\x07org.a.I\0\
\x03\x01s\0\0\0\0\x07Changed\0\
\x07\x01s\0\0\0\0\x04:1.2\0\0\0\0";

/// A call that has each field and a string in its body, in big order with serial 10.
pub const WHOLE_CALL: &[u8] = b"B\x01\0\x01\0\0\0\x09\0\0\0\x0a\0\0\0x\
\x01\x01o\0\0\0\0\x01/\0\0\0\0\0\0\0\
\x02\x01s\0\0\0\0\x07org.a.I\0\
\x03\x01s\0\0\0\0\x01M\0\0\0\0\0\0\0\
\x04\x01s\0\0\0\0\x07org.a.E\0\
\x05\x01u\0\0\0\0\x03\
\x06\x01s\0\0\0\0\x07org.a.T\0\
\x07\x01s\0\0\0\0\x04:1.9\0\0\0\0\
\x08\x01g\0\x01s\0\0\
\x09\x01u\0\0\0\0\0\
\0\0\0\x04text\0";

/// A message of type 5 with no field.
pub const TYPE_5: &[u8] = b"l\x05\0\x01\0\0\0\0\x01\0\0\0\0\0\0\0";

/// A message of type 255 with the greatest serial and the greatest reply serial.
pub const TYPE_255: &[u8] = b"l\xff\0\x01\0\0\0\0\xff\xff\xff\xff\x08\0\0\0\
\x05\x01u\0\xff\xff\xff\xff";
