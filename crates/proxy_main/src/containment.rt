//! The lines that tell whether one policy is within another.
ghost use Rattle.std.specs.Prelude.{◌≡◌, ◌∷◌, ◌++◌, [], IfOk, OnOk, codes, decimal, flat_map, map, string_bytes};
ghost use Rattle.explain_log.specs.Lines.{text_word};
ghost use Rattle.policy_args.specs.declared.requests.Asked.TheVariants.{Broadcast, Property};
ghost use Rattle.proxy_main.specs.WithinText.{covered_line, request_words, spaced, within_text};

use dbus_names::Name;
use itoa::Buffer;
use policy_args::{Access, Asked};
use policy_within::{CoveredEntry, WithinAnswer};
use std::alloc::{AllocError, Global};

/// The lines of an answer.
pub fn containment_text(alloc: Global, answer: &WithinAnswer) -> Result<String, AllocError>
    ensures { IfOk result (λ text. string_bytes text ≡ within_text answer.now) }
{
    match answer {
        WithinAnswer::Yes(covered) => covered_text(alloc, covered.as_slice()),
        WithinAnswer::No(asked) => request_text(alloc, asked),
    }
}

/// The lines of a policy that is within another.
fn covered_text(alloc: Global, entries: &[CoveredEntry]) -> Result<String, AllocError>
    ensures { IfOk result (λ text. string_bytes text ≡ codes "within\n" ++ flat_map covered_line entries.now) }
{
    let mut text = String::from_str(alloc, "within\n")?;
    for entry in entries {
        push_entry(entry, &mut text)?;
    }
    Ok(text)
}

/// Puts the line of an entry after others.
fn push_entry(entry: &CoveredEntry, text: &mut String) -> Result<(), AllocError>
    ensures { OnOk result (string_bytes text.new ≡ string_bytes text.old ++ covered_line entry.now) }
{
    text.push_str("entry ")?;
    push_number(entry.entry, text)?;
    text.push_str(" by")?;
    push_numbers(entry.by.as_slice(), text)?;
    text.push_str("\n")
}

/// Puts numbers after a text, each after a space.
fn push_numbers(numbers: &[u32], text: &mut String) -> Result<(), AllocError>
    ensures { OnOk result (string_bytes text.new ≡ string_bytes text.old ++ spaced (map (λ n. decimal n) numbers.now)) }
{
    for number in numbers {
        text.push_str(" ")?;
        push_number(*number, text)?;
    }
    Ok(())
}

/// Puts a number after a text.
fn push_number(number: u32, text: &mut String) -> Result<(), AllocError>
    ensures { OnOk result (string_bytes text.new ≡ string_bytes text.old ++ decimal number) }
{
    text.push_str(Buffer::new().format(number))
}

/// The line of a request that one policy permits and the other doesn't.
fn request_text(alloc: Global, asked: &Asked) -> Result<String, AllocError>
    ensures { IfOk result (λ text. string_bytes text ≡ codes "not within:" ++ spaced (request_words asked.now) ++ codes "\n") }
{
    let mut text = String::from_str(alloc, "not within:")?;
    push_request(asked, &mut text)?;
    text.push_str("\n")?;
    Ok(text)
}

/// Puts the words of a request after a text.
fn push_request(asked: &Asked, text: &mut String) -> Result<(), AllocError>
    ensures { OnOk result (string_bytes text.new ≡ string_bytes text.old ++ spaced (request_words asked.now)) }
{
    match asked {
        Asked::Call {
            name,
            path,
            interface,
            member,
        } => push_words(
            &[
                "call",
                name.as_str(),
                path.as_str(),
                or_dash(interface),
                member.as_str(),
            ],
            text,
        ),
        Asked::Signal(name) => push_words(&["signal", name.as_str()], text),
        Asked::Own(name) => push_words(&["own", name.as_str()], text),
        Asked::Owner(name) => push_words(&["owner", name.as_str()], text),
        Asked::Broadcast {
            name,
            path,
            interface,
            member,
        } => push_broadcast(name, path, interface, member, text),
        Asked::Property {
            name,
            path,
            interface,
            access,
        } => push_property(name, path, interface, access, text),
    }
}

/// Puts the words of a signal for all after a text.
fn push_broadcast<'a>(
    name: &'a Name,
    path: &'a Name,
    interface: &'a Name,
    member: &'a Name,
    text: &mut String,
) -> Result<(), AllocError>
    ensures { OnOk result (string_bytes text.new ≡ string_bytes text.old ++ spaced (request_words (Broadcast name.now path.now interface.now member.now))) }
{
    push_words(
        &[
            "broadcast",
            name.as_str(),
            path.as_str(),
            interface.as_str(),
            member.as_str(),
        ],
        text,
    )
}

/// Puts the words of a request of properties after a text.
fn push_property<'a>(
    name: &'a Name,
    path: &'a Name,
    interface: &'a Name,
    access: &'a Access,
    text: &mut String,
) -> Result<(), AllocError>
    ensures { OnOk result (string_bytes text.new ≡ string_bytes text.old ++ spaced (request_words (Property name.now path.now interface.now access.now))) }
{
    let (member, property) = match access {
        Access::Get(property) => ("Get", property.as_str()),
        Access::Set(property) => ("Set", property.as_str()),
        Access::GetAll => ("GetAll", "-"),
    };
    push_words(
        &[
            "property",
            name.as_str(),
            path.as_str(),
            member,
            interface.as_str(),
            property,
        ],
        text,
    )
}

/// The text of a name, or a dash if there is none.
fn or_dash(name: &Option<Name>) -> &str
    ensures { result.now ≡ text_word name.now }
{
    match name {
        Some(name) => name.as_str(),
        None => "-",
    }
}

/// Puts words after a text, each after a space.
fn push_words(words: &[&str], text: &mut String) -> Result<(), AllocError>
    ensures { OnOk result (string_bytes text.new ≡ string_bytes text.old ++ spaced (map (λ word. word.now) words.now)) }
{
    for word in words {
        text.push_str(" ")?;
        text.push_str(word)?;
    }
    Ok(())
}
