//! What the program says of itself.

/// The version of the program.
pub const VERSION: &str = "0.1.0";

/// What `--help` writes: the proxy line, each tool, each option, and each status.
pub const HELP: &str = "\
Usage:
  zamtigarn [OPTION]... ADDRESS PATH [OPTION]...
                                        listens at PATH, and stands between each client that comes and the bus at ADDRESS
  zamtigarn replay POLICY RECORDING     plays a recording under a policy, and writes what each side gets
  zamtigarn explain POLICY RECORDING N  tells what was decided on its message of number N, and by which entry
  zamtigarn twin POLICY A B             tells whether two recordings are the same to a policy, or where they first differ
  zamtigarn sample N SEED               plays a session of N draws from a seed, and sums it up
  zamtigarn audit POLICY RECORDING..    counts what a policy denies of recordings, and tells which of its entries they don't name
  zamtigarn within A B                  tells whether a policy permits nothing that another doesn't
  zamtigarn suggest RECORDING..         writes the least policy that permits what the applications of recordings asked
  zamtigarn show FILE                   writes the text of the message that a file holds
  zamtigarn compose FILE                writes the message whose text a file holds
  zamtigarn session RECORDING N         writes session N of a recording of many, as a recording of its own
  zamtigarn sessions RECORDING          lists the sessions of a recording
  zamtigarn --help                      writes this text
  zamtigarn --version                   writes the version

ADDRESS is a D-Bus address with a unix:path. Further blocks of an ADDRESS, a PATH and options may follow.
The options of a block, and those in the file POLICY, where each is ended by a NUL:
  --filter               the messages are filtered; without it all goes through as it is
  --log                  a line for each message that is filtered is written on standard error
  --see=NAME             NAME is seen to be there
  --talk=NAME            its methods may be called
  --own=NAME             it may be owned, too
  --call=NAME=RULE       it is seen, and calls that match RULE pass
  --broadcast=NAME=RULE  it is seen, and its signals that match RULE are shown
  --property=NAME=PROP   it is seen, and the properties that match PROP may be read and set
  --sloppy-names         owner changes of all unique names are shown
  --known-fields         messages of the client with header fields of unknown codes are refused
  --start-called         names that --call lets be called may be started
NAME is a well-known bus name, or N.* for N and all names below it. RULE is [METHOD][@PATH],
and PROP is INTERFACE.PROPERTY[@PATH].
Among the words of blocks alone:
  --sessions=N           N clients are served in all, and then the program ends
  --record=FILE          what the links of all sessions give is recorded in FILE, which replay plays
  --fd=FD                FD is a pipe: one byte is written there once clients can connect, and when its reader is gone
                         the program ends
  --replace              a socket or an empty file at a PATH is removed before the program listens there
  --args-file=FILE       stands for the words of FILE, each ended by a NUL
  --args=FD              stands for the words of /dev/fd/FD
The last four may stand before the first ADDRESS, too, and so may --sloppy-names, --known-fields and --start-called, which
every block then has.

Status:
  0  the output was written, or nothing is left to be served
  1  the words are none of these
  2  a policy is refused
  3  a recording, or the file of a message or of a text, is refused
  4  a file could not be read, or the file of a recording could not be written
  5  the proxy could not listen, or wait, or FD is no pipe that can be written
  6  the output or the log of a tool could not be written
  7  the two recordings differ to the policy, the policy is not within the other, or the policy
     that is asked for would have more than 65,535 entries
  8  memory was refused
  9  the recording has no message, or no session, of the number N
";
