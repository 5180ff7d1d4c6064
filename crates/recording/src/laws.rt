//! What reading and writing have to do with each other.
ghost use Rattle.std.specs.Prelude.{◌≡◌, ◌≤◌, ◌<◌, ℕ, List, All, Ok, length};
ghost use Rattle.recording.specs.Recording.{recording_of, spelled_recording};
ghost use Rattle.recording.specs.Recording as spec;
ghost use Rattle.recording.specs.Sessions.{Sessions, file_head_of, migrated, one_session_of, sessions_of, spelled_sessions};
ghost use Rattle.recording.specs.SessionsSeen.{EventsFit, IsReadable};
ghost use Rattle.recording.specs.Seen.{Fits};

use crate::RECORDING_LIMIT;

/// What is written is read again: the bytes of a recording are those of no other.
pub fn written_is_read()
    ensures { (r : spec.Recording) → All Fits r.events
        → length (spelled_recording r) ≤ RECORDING_LIMIT
        → recording_of (spelled_recording r) ≡ Ok r }
{}

/// What is read is written again: a recording has no other file.
pub fn read_is_spelled()
    ensures { (bytes : List ℕ) (r : spec.Recording) → All (λ b. b < 256) bytes
        → recording_of bytes ≡ Ok r → spelled_recording r ≡ bytes }
{}

/// What is written of many sessions is read again: the bytes of a recording are those of no other.
pub fn written_sessions_are_read()
    ensures { (s : Sessions) → s.version ≡ 2 → EventsFit s.events
        → length (spelled_sessions s) ≤ RECORDING_LIMIT
        → sessions_of (spelled_sessions s) ≡ Ok s }
{}

/// What is read can be written again, and a recording of many sessions has no other file.
pub fn read_sessions_are_spelled()
    ensures readable { (bytes : List ℕ) (s : Sessions) → All (λ b. b < 256) bytes
        → sessions_of bytes ≡ Ok s → IsReadable s }
    ensures spelled { (bytes : List ℕ) (s : Sessions) → All (λ b. b < 256) bytes
        → sessions_of bytes ≡ Ok s → s.version ≡ 2 → spelled_sessions s ≡ bytes }
{}

/// A file of version 1 that has a recording has the same as one of session 1, and any file has that recording alone.
pub fn version_1_is_migrated()
    ensures same { (bytes : List ℕ) (r : spec.Recording) → recording_of bytes ≡ Ok r
        → sessions_of bytes ≡ Ok (migrated r) }
    ensures only { (bytes : List ℕ) (s : Sessions) → sessions_of bytes ≡ Ok s → s.version ≡ 1
        → (r : spec.Recording) × (recording_of bytes ≡ Ok r) × (s ≡ migrated r) }
{}
