//! The calls on the answer to ListNames: GetNameOwner for each name in it that an `N.*` covers.
ghost use Rattle.std.specs.Prelude.{◌≡◌, ◌≤◌, ◌++◌, ◌+◌, All, IfOk, OnErr, OnOk, length, map, true};
ghost use Rattle.dbus_names.specs.Names.{is_well_known as is_well_known_name};
ghost use Rattle.own_calls.specs.Asked.{is_covered};
ghost use Rattle.own_calls.specs.Sending.{AreCutOff, expecting};
ghost use Rattle.policy_view.specs.Sent.{asked as asked_names, is_asked as is_asked_name, spelled_from, OwnOwner};
ghost use Rattle.serial_map.specs.Serials.{most_serials};

use crate::sending::put_owner;
use bytes::BytesMut;
use dbus_names::is_well_known;
use dbus_values::Texts;
use policy_args::Policy;
use reply_ledger::Ledger;
use serial_map::Serials;
use std::alloc::{AllocError, Global};

/// The names of a list for whose owners the proxy asks: the well-known ones that an `N.*` of the policy covers and no
/// exact pattern names, in the order of the list and as often as there.
pub fn asked<'a>(
    alloc: Global,
    policy: &Policy,
    names: Texts<'a>,
) -> Result<Vec<&'a str>, AllocError>
    ensures asked { IfOk result (λ list. map (λ name. name.now) list.items ≡ asked_names policy.now names.entry) }
    ensures well_known { IfOk result (λ list. All (λ name. is_well_known_name name.now ≡ true) list.items) }
{
    let mut asked = Vec::new(alloc);
    for name in names {
        if is_asked(policy, name) {
            asked.push(name)?;
        }
    }
    Ok(asked)
}

/// Appends a GetNameOwner for each of the names. If memory is refused, the appended bytes, the used serials and the
/// expected answers are each those of a prefix of these calls.
pub fn after_names(
    alloc: Global,
    calls: &mut BytesMut,
    names: &[&str],
    serials: &mut Serials,
    ledger: &mut Ledger,
) -> Result<(), AllocError>
    requires serials { serials.old + length names.now ≤ most_serials }
    requires names { All (λ name. is_well_known_name name.now ≡ true) names.now }
    ensures bytes { OnOk result (calls.new.items ≡ calls.old.items ++ spelled_from (serials.old + 1) (map OwnOwner (map (λ name. name.now) names.now))) }
    ensures serials { OnOk result (serials.new ≡ serials.old + length (map OwnOwner (map (λ name. name.now) names.now))) }
    ensures ledger { OnOk result (ledger.new ≡ record ledger.old { expected = expecting ledger.old.expected (serials.old + 1) (map OwnOwner (map (λ name. name.now) names.now)) }) }
    ensures err { OnErr result (AreCutOff (map OwnOwner (map (λ name. name.now) names.now)) calls.old.items serials.old ledger.old calls.new.items serials.new ledger.new) }
{
    for name in names {
        put_owner(alloc, calls, serials, ledger, name)?;
    }
    Ok(())
}

/// Whether the proxy asks for a listed name's owner.
fn is_asked(policy: &Policy, name: &str) -> bool
    ensures { result ≡ is_asked_name policy.now name.now }
{
    is_well_known(name.as_bytes()) && is_covered_alone(policy, name)
}

/// Whether an `N.*` covers a name and no exact pattern names it.
fn is_covered_alone(policy: &Policy, name: &str) -> bool
    ensures { result ≡ is_covered policy.now.entries name.now }
{
    policy.covers(name) && !policy.names(name)
}
