//! Which texts are call rules or property rules, and which calls and requests they match.
use call_rules::{BadRule, PropertyRule, Rule};
use std::alloc::{AllocError, Global};
use std::test::Fail;
use test_tables::wrong_row;

/// Texts, and the interface, the member and the path of the rule, with `-` for none, whether it holds for all paths
/// below, and its text; or why it is refused.
const RULES: &str = "\
* => - - - false *
 => - - - false 
@/* => - - - false @/*
@/p => - - /p false @/p
*@/ => - - / false *@/
a.I.M => a.I M - false a.I.M
a.I.M@/p => a.I M /p false a.I.M@/p
a.I.M@/p/* => a.I M /p true a.I.M@/p/*
a.I.* => a.I - - false a.I.*
a.I.*@/p => a.I - /p false a.I.*@/p
a.I.*@/p/q/* => a.I - /p/q true a.I.*@/p/q/*
org.a.I => org.a I - false org.a.I
Foo => Form
a.M => Form
org.a.I. => Form
org.a.I.M* => Form
org..I.M => Form
.* => Form
@ => Form
*@ => Form
org.a.I.M@ => Form
org.a.I.M@p => Form
org.a.I.M@/p@q => Form
@/p/ => Form
@/p//* => Form
@//* => Form
@* => Form
org.a.\u{e9}.M => Form
";

/// Rules with the path, the interface, with `-` for none, and the member of calls, and whether they match.
const CALLS: &str = "\
* /p - M => true
 / org.a.I N => true
org.a.I.M /p org.a.I M => true
org.a.I.M / org.a.I M => true
org.a.I.M /p - M => false
org.a.I.M /p org.a.I N => false
org.a.I.M /p org.a.J M => false
org.a.I.* /p org.a.I M => true
org.a.I.* /p org.a.I N => true
org.a.I.* /p - M => false
org.a.I.* /p org.a.I.J M => false
@/p/* /p - M => true
@/p/* /p/q - M => true
@/p/* /p/q/r org.a.I N => true
@/p/* /pq - M => false
@/p/* / - M => false
@/p /p - M => true
@/p /p/q - M => false
@/p / - M => false
@/* /p/q - M => true
@/* / - M => true
@/ / - M => true
@/ /p - M => false
org.a.I.M@/p /p org.a.I M => true
org.a.I.M@/p /q org.a.I M => false
org.a.I.M@/p /p org.a.I N => false
";

/// Texts, and the interface, the property and the path of the property rule, with `-` for none, whether it holds for
/// all paths below, and its text; or why it is refused.
const PROPERTY_RULES: &str = "\
org.a.I.* => org.a.I - - false org.a.I.*
org.a.I.Volume => org.a.I Volume - false org.a.I.Volume
org.a.I.Volume@/p => org.a.I Volume /p false org.a.I.Volume@/p
org.a.I.Volume@/p/* => org.a.I Volume /p true org.a.I.Volume@/p/*
org.a.I.*@/* => org.a.I - - false org.a.I.*@/*
a.I.V@/ => a.I V / false a.I.V@/
 => Form
* => Form
@/p => Form
*@/p => Form
Volume => Form
a.Volume => Form
org.a.I. => Form
org.a.I.Volume* => Form
org.a.I.Volume@ => Form
org.a.I.Volume@p => Form
org.a.I.Volume@/p@/q => Form
";

/// Property rules with the path, the interface and the property, a `-` for all, of requests, and whether they match.
const REQUESTS: &str = "\
org.a.I.Volume /p org.a.I Volume => true
org.a.I.Volume /p org.a.I Mute => false
org.a.I.Volume /p org.a.J Volume => false
org.a.I.Volume /p org.a.I.J Volume => false
org.a.I.Volume /p org.a.I - => false
org.a.I.* /p org.a.I Mute => true
org.a.I.* /p org.a.I - => true
org.a.I.* /p org.a.J - => false
org.a.I.Volume@/p /p org.a.I Volume => true
org.a.I.Volume@/p /q org.a.I Volume => false
org.a.I.Volume@/p /p/q org.a.I Volume => false
org.a.I.Volume@/p/* /p/q org.a.I Volume => true
org.a.I.*@/p/* /pq org.a.I - => false
";

fn told_rule(alloc: Global, text: &str) -> Result<String, AllocError> {
    match Rule::read(alloc, text) {
        Ok(rule) => told_parts(alloc, &rule),
        Err(refusal) => told_refusal(alloc, refusal),
    }
}

fn told_parts(alloc: Global, rule: &Rule) -> Result<String, AllocError> {
    let interface = rule.interface().unwrap_or("-");
    let member = rule.member().unwrap_or("-");
    let path = rule.path().unwrap_or("-");
    format!(in alloc;
        "{interface} {member} {path} {} {}",
        rule.is_below(),
        rule.text()
    )
}

fn told_property_rule(alloc: Global, text: &str) -> Result<String, AllocError> {
    match PropertyRule::read(alloc, text) {
        Ok(rule) => {
            let property = rule.property().unwrap_or("-");
            let path = rule.path().unwrap_or("-");
            format!(in alloc;
                "{} {property} {path} {} {}",
                rule.interface(),
                rule.is_below(),
                rule.text()
            )
        }
        Err(refusal) => told_refusal(alloc, refusal),
    }
}

fn told_refusal(alloc: Global, refusal: BadRule) -> Result<String, AllocError> {
    match refusal {
        BadRule::Form => String::from_str(alloc, "Form"),
        BadRule::Memory => Err(AllocError),
    }
}

fn told_match(alloc: Global, row: &str) -> Result<String, AllocError> {
    let (text, call) = row.split_once(' ').unwrap_or((row, ""));
    match Rule::read(alloc, text) {
        Ok(rule) => format!(in alloc; "{}", is_matched(&rule, call)),
        Err(refusal) => told_refusal(alloc, refusal),
    }
}

/// Whether a rule matches the call of a path, an interface and a member.
fn is_matched(rule: &Rule, call: &str) -> bool {
    let (path, method) = call.split_once(' ').unwrap_or((call, ""));
    match method.split_once(' ') {
        Some(("-", member)) => rule.matches(path, None, member),
        Some((interface, member)) => rule.matches(path, Some(interface), member),
        None => false,
    }
}

fn told_request(alloc: Global, row: &str) -> Result<String, AllocError> {
    let (text, request) = row.split_once(' ').unwrap_or((row, ""));
    match PropertyRule::read(alloc, text) {
        Ok(rule) => format!(in alloc; "{}", is_requested(&rule, request)),
        Err(refusal) => told_refusal(alloc, refusal),
    }
}

/// Whether a rule matches the request of a path, an interface and a property.
fn is_requested(rule: &PropertyRule, request: &str) -> bool {
    let (path, names) = request.split_once(' ').unwrap_or((request, ""));
    match names.split_once(' ') {
        Some((interface, "-")) => rule.matches(path, interface, None),
        Some((interface, property)) => rule.matches(path, interface, Some(property)),
        None => false,
    }
}

#[test]
fn texts_say_property_rules_or_none(rt: HostRuntime) -> Result<(), Fail> {
    assert_eq!(rt;
        wrong_row(rt.alloc(), PROPERTY_RULES, &told_property_rule)?,
        None
    );
    Ok(())
}

#[test]
fn property_rules_match_requests(rt: HostRuntime) -> Result<(), Fail> {
    assert_eq!(rt; wrong_row(rt.alloc(), REQUESTS, &told_request)?, None);
    Ok(())
}

#[test]
fn texts_say_rules_or_none(rt: HostRuntime) -> Result<(), Fail> {
    assert_eq!(rt; wrong_row(rt.alloc(), RULES, &told_rule)?, None);
    Ok(())
}

#[test]
fn rules_match_calls(rt: HostRuntime) -> Result<(), Fail> {
    assert_eq!(rt; wrong_row(rt.alloc(), CALLS, &told_match)?, None);
    Ok(())
}
