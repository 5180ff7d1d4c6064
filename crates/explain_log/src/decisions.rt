//! The words of a decision, as pieces of a line, and the entry on which it rests.
ghost use Rattle.std.specs.Prelude.{◌≡◌, ◌++◌, codes, flat_map};
ghost use Rattle.explain_log.specs.Lines.{decision_entry, decision_words, instead_word, reason_entry, reason_name, reason_words, showing_words, verdict_words};

use dbus_header::Instead;
use itoa::Buffer;
use policy_view::{Decision, Reason, Showing, Verdict};

/// The number of the entry on which a decision rests, 0 if it rests on none.
pub(crate) fn entry_number(decision: Decision) -> u32
    ensures { result ≡ decision_entry decision }
{
    match decision {
        Decision::Judged(Verdict::Ping(_, reason))
        | Decision::Judged(Verdict::Drop(reason))
        | Decision::Shown(Showing::Hide(reason)) => reason_entry_number(reason),
        _ => 0,
    }
}

/// The number of the entry on which a reason rests, 0 if it rests on none.
pub fn reason_entry_number(reason: Reason) -> u32
    ensures { result ≡ reason_entry reason }
{
    match reason {
        Reason::OnlySee(entry) | Reason::NoRule(entry) => entry,
        _ => 0,
    }
}

/// The name of a reason, and a space.
pub fn reason_word(reason: Reason) -> &'static str
    ensures { result.now ≡ reason_name reason ++ codes " " }
{
    match reason {
        Reason::NotVisible => "NotVisible ",
        Reason::OnlySee(_) => "OnlySee ",
        Reason::NoRule(_) => "NoRule ",
        Reason::BusMember => "BusMember ",
        Reason::BusInterface => "BusInterface ",
        Reason::ArgNotVisible => "ArgNotVisible ",
        Reason::ArgNotTalk => "ArgNotTalk ",
        Reason::ArgNotOwn => "ArgNotOwn ",
        Reason::Eavesdrop => "Eavesdrop ",
        Reason::NotOutstanding => "NotOutstanding ",
        Reason::UnknownType => "UnknownType ",
        Reason::BadArgument => "BadArgument ",
        Reason::SenderNotTalk => "SenderNotTalk ",
        Reason::NameHidden => "NameHidden ",
        Reason::NotExpected => "NotExpected ",
        Reason::OwnAnswer => "OwnAnswer ",
        Reason::UnknownField => "UnknownField ",
    }
}

/// A space and the name of what a refused call is answered with.
fn answer_word(what: Instead) -> &'static str
    ensures { result.now ≡ codes " " ++ instead_word what }
{
    match what {
        Instead::AccessDenied => " AccessDenied",
        Instead::NameHasNoOwner => " NameHasNoOwner",
        Instead::ServiceUnknown => " ServiceUnknown",
        Instead::False => " False",
    }
}

/// A word, a reason with the number of its entry, and an answer.
fn reason_pieces<'a>(
    number: &'a mut Buffer,
    word: &'a str,
    reason: Reason,
    answer: &'a str,
) -> [&'a str; 4]
    ensures { flat_map (λ piece. piece.now) result ≡ word.now ++ reason_words reason ++ answer.now }
{
    let name: &'a str = reason_word(reason);
    [
        word,
        name,
        number.format(reason_entry_number(reason)),
        answer,
    ]
}

/// A space and the verdict on a message of the client.
fn verdict_pieces<'a>(number: &'a mut Buffer, verdict: Verdict) -> [&'a str; 4]
    ensures { flat_map (λ piece. piece.now) result ≡ codes " " ++ verdict_words verdict }
{
    match verdict {
        Verdict::Pass => [" pass", "", "", ""],
        Verdict::Ping(what, reason) => {
            let answer: &'a str = answer_word(what);
            reason_pieces(number, " ping ", reason, answer)
        }
        Verdict::Drop(reason) => reason_pieces(number, " drop ", reason, ""),
    }
}

/// A space and what the client is shown of a message of the bus.
fn showing_pieces<'a>(number: &'a mut Buffer, showing: Showing) -> [&'a str; 4]
    ensures { flat_map (λ piece. piece.now) result ≡ codes " " ++ showing_words showing }
{
    match showing {
        Showing::Whole | Showing::Reply(_) => [" show", "", "", ""],
        Showing::Cut(_) => [" cut", "", "", ""],
        Showing::Instead { what, .. } => {
            let answer: &'a str = answer_word(what);
            [" instead", "", "", answer]
        }
        Showing::Hide(reason) => reason_pieces(number, " hide ", reason, ""),
    }
}

/// A space and the decision on a message: its word, its reason, the number of the reason's entry, and what a refused
/// call is answered with. A piece that the decision hasn't is empty.
pub(crate) fn decision_pieces<'a>(number: &'a mut Buffer, decision: Decision) -> [&'a str; 4]
    ensures { flat_map (λ piece. piece.now) result ≡ codes " " ++ decision_words decision }
{
    match decision {
        Decision::Judged(verdict) => verdict_pieces(number, verdict),
        Decision::Shown(showing) => showing_pieces(number, showing),
    }
}
