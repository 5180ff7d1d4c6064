//! The files at the paths of listeners.
ghost use Rattle.std.specs.Prelude.{◌≡◌, ◌∷◌, [], true, false, IfSome};
ghost use Rattle.std.specs.String.{string_bytes};
ghost use Rattle.proxy_net.specs.Files.{has_identity, is_replaceable as can_be_replaced, removal};
ghost use Rattle.proxy_net.specs.SystemCalls.{Tells};
ghost use Rattle.proxy_net.specs.Steps.{Steps, IsRemoval, IsClearing};

use crate::system::Sockets;

/// What distinguishes a file from every other one. As long as the socket of a bound file is open, no other file gets
/// its number.
#[derive(Clone, Copy, Debug, PartialEq, Eq)]
pub struct FileIdentity {
    device: u64,
    inode: u64,
}

/// What a file is.
#[derive(Clone, Copy, Debug, PartialEq, Eq)]
pub enum FileKind {
    Socket,
    /// A regular file that has no byte.
    EmptyFile,
    /// Anything else: a file with bytes, a folder, a link.
    Other,
}

/// A file that was found at a path.
#[derive(Clone, Copy, Debug, PartialEq, Eq)]
pub struct FoundFile {
    pub identity: FileIdentity,
    pub kind: FileKind,
}

/// The file that a bind made.
#[derive(Drop)]
pub struct BoundFile {
    path: String,
    identity: FileIdentity,
}

impl FileIdentity {
    /// The identity of the file with these numbers.
    pub fn new(device: u64, inode: u64) -> FileIdentity
        ensures { result ≡ record { device = device; inode = inode } }
    {
        FileIdentity { device, inode }
    }
}

impl BoundFile {
    /// The file that was made at a path.
    pub fn new(path: String, identity: FileIdentity) -> BoundFile
        ensures path { result.path ≡ path }
        ensures identity { result.identity ≡ identity }
    {
        BoundFile { path, identity }
    }

    /// Looks at what is at its path, and removes it if it is this file.
    pub fn remove<S: Sockets>(&self, system: &mut S)
        ensures { Steps (IsRemoval (string_bytes self.now.path) self.now.identity) (S.journal system.old) (S.journal system.new) }
    {
        remove_made(system, self.path.as_str(), self.identity);
    }
}

/// Looks at what is at a path, and removes it if it is the file that was made there.
pub fn remove_made<S: Sockets>(system: &mut S, path: &str, made: FileIdentity)
    ensures { Steps (IsRemoval path.now made) (S.journal system.old) (S.journal system.new) }
{
    let found = system.identify(path);
    let is_own = is_file(found, made);
    remove_if(system, path, is_own);
}

/// Looks at what is at a path, if that is to be replaced, and removes it if it is a socket or an empty regular file.
///
/// A file that another program changes or puts there after the look is removed without a look. The socket that a bind
/// makes then has the mode 0777 without the bits of the umask, so the owner of the file can connect to it, as it could
/// write to the file.
pub fn clear<S: Sockets>(system: &mut S, path: &str, replaces: bool)
    ensures { Steps (IsClearing replaces path.now) (S.journal system.old) (S.journal system.new) }
{
    if !replaces {
        return;
    }
    let found = system.identify(path);
    let is_replaceable = is_replaceable(found);
    remove_if(system, path, is_replaceable);
}

/// Removes the file at a path, or asks nothing.
fn remove_if<S: Sockets>(system: &mut S, path: &str, is_wanted: bool)
    ensures { Tells (S.journal system.old) (S.journal system.new) (removal is_wanted path.now) }
{
    if is_wanted {
        let _ = system.remove_file(path);
    }
}

/// Whether a file that was found is the one of an identity.
fn is_file(found: Option<FoundFile>, made: FileIdentity) -> bool
    ensures { result ≡ has_identity made found }
{
    match found {
        Some(file) => file.identity.device == made.device && file.identity.inode == made.inode,
        None => false,
    }
}

/// Whether a file that was found is one that a listen replaces.
fn is_replaceable(found: Option<FoundFile>) -> bool
    ensures { result ≡ can_be_replaced found }
{
    match found {
        Some(file) => match file.kind {
            FileKind::Socket | FileKind::EmptyFile => true,
            FileKind::Other => false,
        },
        None => false,
    }
}
