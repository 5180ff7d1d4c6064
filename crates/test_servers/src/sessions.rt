//! Sessions that servers serve the same over each kind of net. Each row has the words of a proxy line, the script of a
//! net and the links that are asked for, and how the server ends and what was written to these links. Names in braces
//! are those of `test_tables::SESSION`.

/// A client authenticates itself and calls org.a.T, and the bus answers: at once, a byte a write, if calls aren't
/// ready, until either side ends, and if neither does. The last one has no client.
pub const PLAYED: &str = "\
unix:path=/bus /p --filter --talk=org.a.T --sessions=1; \
    arrival 0, piece c1 {auth}BEGIN%0D, piece c1 %0A{call}, piece b1 {ok}{return}, end c1; \
    c1 b1 => Stopped, c1 {ok}{return}, b1 {auth}{begin}{call}
unix:path=/bus /p --filter --talk=org.a.T --sessions=1; \
    pace c1 1, pace b1 1, arrival 0, piece c1 {auth}BEGIN%0D, piece c1 %0A{call}, piece b1 {ok}{return}, end c1; \
    c1 b1 => Stopped, c1 {ok}{return}, b1 {auth}{begin}{call}
unix:path=/bus /p --filter --talk=org.a.T --sessions=1; \
    ReadNotReady 1, ReadNotReady 3, WriteNotReady 1, WriteNotReady 2, AcceptNotReady 1, arrival 0, \
    piece c1 {auth}BEGIN%0D, piece c1 %0A{call}, piece b1 {ok}{return}, end c1; \
    c1 b1 => Stopped, c1 {ok}{return}, b1 {auth}{begin}{call}
unix:path=/bus /p --filter --talk=org.a.T; \
    arrival 0, piece c1 {auth}BEGIN%0D, piece c1 %0A{call}, piece b1 {ok}{return}, end b1; \
    c1 b1 => Stopped, c1 {ok}{return}, b1 {auth}{begin}{call}
unix:path=/bus /p --filter --talk=org.a.T; \
    arrival 0, piece c1 {auth}{begin}{call}, piece b1 {ok}{return}; \
    c1 b1 => Stopped, c1 {ok}{return}, b1 {auth}{begin}{call}
unix:path=/bus /p --filter --talk=org.a.T; \
    ; \
    c1 b1 => Stopped, c1 , b1 \n\
";

/// Sessions that end: the bus takes thirteen bytes and fails, a stream is malformed, a read or a write fails, the
/// client ends with bytes that wait for the bus, a connect fails or is refused memory. Accepts that give no session,
/// and clients that are too many. Servers that end. Two blocks, of which one has no name.
pub const ENDED: &str = "\
unix:path=/bus /p --filter --talk=a.b --talk=org.a.T --sessions=2; \
    limit b1 13, arrival 0, arrival 0, piece c1 ~{begin}{big}, piece c2 {auth}{begin}{call}, \
    piece b2 {ok}{return}, piece c1 {call}, end c2; \
    b1 c1 c2 b2 => Stopped, b1 ~{begin}B%01~%01~, c1 , c2 {ok}{return}, b2 {auth}{begin}{call}
unix:path=/bus /p --filter --talk=org.a.T --sessions=2; \
    arrival 0, arrival 0, piece c1 A, piece c2 {auth}BEGIN%0D, piece c2 %0A{call}, piece b2 {ok}{return}, end c2; \
    c1 b1 c2 b2 => Stopped, c1 , b1 , c2 {ok}{return}, b2 {auth}{begin}{call}
unix:path=/bus /p --filter --talk=org.a.T --sessions=1; \
    ReadFails 1, arrival 0, piece c1 {auth}{begin}{call}; \
    c1 b1 => Stopped, c1 , b1 \n\
unix:path=/bus /p --filter --talk=org.a.T --sessions=1; \
    ReadFails 2, arrival 0, piece c1 {auth}{begin}{call}, piece b1 {ok}{return}; \
    c1 b1 => Stopped, c1 , b1 {auth}{begin}{call}
unix:path=/bus /p --filter --talk=org.a.T --sessions=1; \
    WriteFails 2, arrival 0, piece c1 {auth}{begin}{call}, piece b1 {ok}{return}, piece c1 {call}; \
    c1 b1 => Stopped, c1 , b1 {auth}{begin}{call}
unix:path=/bus /p --filter --talk=org.a.T --sessions=1; \
    pace b1 1, WriteNotReady 1, arrival 0, piece c1 {auth}{begin}{call}, end c1; \
    c1 b1 => Stopped, c1 , b1 {auth}{begin}{call}
unix:path=/bus /p --filter --talk=org.a.T --sessions=1; \
    pace b1 0, arrival 0, piece c1 {auth}{begin}{call}, end c1; \
    c1 b1 => Stopped, c1 , b1 \n\
unix:path=/bus /p --filter --talk=org.a.T --sessions=2; \
    ConnectFails 1, arrival 0, arrival 0, piece c1 {auth}{begin}{call}, piece c2 {auth}{begin}{call}, end c2; \
    c1 b1 c2 b2 => Stopped, c1 , b1 , c2 , b2 {auth}{begin}{call}
unix:path=/bus /p --filter --talk=org.a.T --sessions=2; \
    ConnectRefused 1, arrival 0, arrival 0, piece c1 {auth}{begin}{call}, piece c2 {auth}{begin}{call}, end c2; \
    c1 b1 c2 b2 => Stopped, c1 , b1 , c2 , b2 {auth}{begin}{call}
unix:path=/bus /p --filter --talk=org.a.T --sessions=1; \
    AcceptFails 1, arrival 0, arrival 0, piece c1 {auth}{begin}{call}, end c1; \
    c1 b1 c2 => Stopped, c1 , b1 {auth}{begin}{call}, c2 \n\
unix:path=/bus /p --filter --talk=org.a.T --sessions=1; \
    AcceptRefused 1, arrival 0, arrival 0, piece c1 {auth}{begin}{call}, end c1; \
    c1 b1 c2 => Stopped, c1 , b1 {auth}{begin}{call}, c2 \n\
unix:path=/bus /p --filter --talk=org.a.T --sessions=1; \
    arrival 0, arrival 0, piece c1 {auth}{begin}{call}, piece c2 {auth}{begin}{call}, end c1; \
    c1 b1 c2 b2 => Stopped, c1 , b1 {auth}{begin}{call}, c2 , b2 \n\
unix:path=/bus /p --filter unix:path=/bus2 /q --filter; \
    ListenFails 2; \
    c1 => Listen(1), c1 \n\
unix:path=/bus /p --filter --talk=org.a.T; \
    WaitFails 3, arrival 0, piece c1 {auth}{begin}{call}, piece b1 {ok}{return}; \
    c1 b1 => Wait, c1 , b1 {auth}{begin}{call}
unix:path=/bus /p --filter --talk=org.a.T unix:path=/bus2 /q --filter --sessions=2; \
    arrival 1, arrival 0, piece c1 {auth}{begin}{call}, piece c2 {auth}{begin}{call}, end c1, end c2; \
    c1 b1 c2 b2 => Stopped, c1 , b1 {auth}{begin}{ping}, c2 , b2 {auth}{begin}{call}
";
