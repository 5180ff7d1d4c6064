//! The requests by which an entry is compared with another policy.
ghost use Rattle.std.specs.Prelude.{◌≡◌, ◌++◌, ◌∷◌, [], IfOk, OnOk, true, option_map};
ghost use Rattle.name_patterns.specs.Patterns.{is_pattern};
ghost use Rattle.policy_args.specs.declared.entry.Grant.TheVariants.{Call as to_call, Broadcast as to_broadcast};
ghost use Rattle.policy_args.specs.declared.requests.Asked.TheVariants.{Property as to_property};
ghost use Rattle.policy_within.specs.Points.{all_points, grant_points, point_interface, point_member, point_name, point_path, points as points_of, property_points};

use call_rules::{PropertyRule, Rule};
use dbus_names::{Name, is_bus};
use name_patterns::Pattern;
use policy_args::{Access, Asked, Entry, Grant};
use std::alloc::{AllocError, Global};

/// The points of an entry. If the entry leaves a part open, they use an element that is `fresh` to the other policy. An
/// entry of exactly the bus's own name has none.
pub(crate) fn points(alloc: Global, fresh: &str, entry: &Entry) -> Result<Vec<Asked>, AllocError>
    ensures points { IfOk result (λ v. v.items ≡ points_of fresh.now entry.now) }
    ensures grammar { is_pattern entry.now.pattern ≡ true }
{
    if is_bus(entry.pattern.name()) && entry.pattern.is_exact() {
        return Ok(Vec::new(alloc));
    }
    let name = name(alloc, fresh, &entry.pattern)?;
    match &entry.grant {
        Grant::See => one(alloc, Asked::Owner(name)),
        Grant::Talk => one(alloc, Asked::Signal(name)),
        Grant::Own => one(alloc, Asked::Own(name)),
        Grant::Call(rule) => one(alloc, call(alloc, fresh, name, rule)?),
        Grant::Broadcast(rule) => one(alloc, broadcast(alloc, fresh, name, rule)?),
        Grant::Property(rule) => property(alloc, fresh, name.as_str(), rule),
    }
}

fn one(alloc: Global, asked: Asked) -> Result<Vec<Asked>, AllocError>
    ensures { IfOk result (λ v. v.items ≡ asked ∷ []) }
{
    let mut points = Vec::new(alloc);
    points.push(asked)?;
    Ok(points)
}

fn call(alloc: Global, fresh: &str, name: Name, rule: &Rule) -> Result<Asked, AllocError>
    ensures { IfOk result (λ asked. asked ∷ [] ≡ grant_points fresh.now name (to_call rule.now)) }
{
    Ok(Asked::Call {
        name,
        path: path(alloc, fresh, rule.path(), rule.is_below())?,
        interface: Some(interface(alloc, fresh, rule.interface())?),
        member: member(alloc, fresh, rule.member())?,
    })
}

fn broadcast(alloc: Global, fresh: &str, name: Name, rule: &Rule) -> Result<Asked, AllocError>
    ensures { IfOk result (λ asked. asked ∷ [] ≡ grant_points fresh.now name (to_broadcast rule.now)) }
{
    Ok(Asked::Broadcast {
        name,
        path: path(alloc, fresh, rule.path(), rule.is_below())?,
        interface: interface(alloc, fresh, rule.interface())?,
        member: member(alloc, fresh, rule.member())?,
    })
}

fn property(
    alloc: Global,
    fresh: &str,
    name: &str,
    rule: &PropertyRule,
) -> Result<Vec<Asked>, AllocError>
    ensures { IfOk result (λ v. v.items ≡ property_points fresh.now name.now rule.now) }
{
    let get = Access::Get(member(alloc, fresh, rule.property())?);
    let set = Access::Set(member(alloc, fresh, rule.property())?);
    let mut points = Vec::new(alloc);
    points.push(access(alloc, fresh, name, rule, get)?)?;
    points.push(access(alloc, fresh, name, rule, set)?)?;
    if rule.property().is_none() {
        points.push(access(alloc, fresh, name, rule, Access::GetAll)?)?;
    }
    Ok(points)
}

fn access(
    alloc: Global,
    fresh: &str,
    name: &str,
    rule: &PropertyRule,
    access: Access,
) -> Result<Asked, AllocError>
    ensures { IfOk result (λ asked. asked ≡ to_property name.now (point_path fresh.now rule.now.path rule.now.below) rule.now.interface access) }
{
    Ok(Asked::Property {
        name: kept(alloc, name)?,
        path: path(alloc, fresh, rule.path(), rule.is_below())?,
        interface: kept(alloc, rule.interface())?,
        access,
    })
}

// The exact name, or one below it.
fn name(alloc: Global, fresh: &str, pattern: &Pattern) -> Result<Name, AllocError>
    ensures { IfOk result (λ name. name ≡ point_name fresh.now pattern.now) }
{
    let name = pattern.name();
    if pattern.is_exact() {
        kept(alloc, name)
    } else {
        Ok(Name::new(format!(in alloc; "{name}.{fresh}")?))
    }
}

// The exact path, or one below it, or one below the root.
fn path(alloc: Global, fresh: &str, path: Option<&str>, below: bool) -> Result<Name, AllocError>
    ensures { IfOk result (λ p. p ≡ point_path fresh.now (option_map (λ t. t.now) path.entry) below) }
{
    match path {
        Some(path) if below => Ok(Name::new(format!(in alloc; "{path}/{fresh}")?)),
        Some(path) => kept(alloc, path),
        None => Ok(Name::new(format!(in alloc; "/{fresh}")?)),
    }
}

fn interface(alloc: Global, fresh: &str, interface: Option<&str>) -> Result<Name, AllocError>
    ensures { IfOk result (λ i. i ≡ point_interface fresh.now (option_map (λ t. t.now) interface.entry)) }
{
    match interface {
        Some(interface) => kept(alloc, interface),
        None => Ok(Name::new(format!(in alloc; "{fresh}.{fresh}")?)),
    }
}

// The member or the property.
fn member(alloc: Global, fresh: &str, member: Option<&str>) -> Result<Name, AllocError>
    ensures { IfOk result (λ m. m ≡ point_member fresh.now (option_map (λ t. t.now) member.entry)) }
{
    kept(alloc, member.unwrap_or(fresh))
}

fn kept(alloc: Global, text: &str) -> Result<Name, AllocError>
    ensures { IfOk result (λ name. name ≡ text.now) }
{
    Ok(Name::new(String::from_str(alloc, text)?))
}
