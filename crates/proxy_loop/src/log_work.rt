//! The lines of a session's new notes, joined so that one write carries many.
ghost use Rattle.std.specs.Prelude.{◌≡◌, true};
ghost use Rattle.proxy_loop.specs.Logging.{Logs};

use dbus_header::Places;
use explain_log::LineBuffer;
use link_traits::Sink;
use policy_view::End;
use proxy_core::Session;
use std::alloc::Global;

/// Writes the lines of all notes of a session that weren't taken. If the sink fails, the session is told to stop. It
/// needs no memory: lines for whose joining memory is refused are written at once.
pub fn log_new<S: Sink>(sink: &mut S, alloc: Global, number: u32, session: &mut Session)
    ensures logs { Logs number session.old session.new (S.view sink.old) (S.view sink.new) }
{
    let mut lines = LineBuffer::new(alloc);
    while let Some(note) = session.next_note() {
        let mut places = Places::none();
        let message = session.message_of(&note, &mut places);
        if lines.put_line(sink, number, &note, &message).is_err() {
            session.stop(End::LogFault);
            return;
        }
    }
    if lines.write_out(sink).is_err() {
        session.stop(End::LogFault);
    }
}
