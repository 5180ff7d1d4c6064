//! The proxy's own calls, one at a time: each is appended with the next serial, and its answer is expected.
ghost use Rattle.std.specs.Prelude.{◌≡◌, ◌≤◌, ◌<◌, ◌+◌, ◌∷◌, [], IfOk, IsTrue, OnErr, OnOk, length};
ghost use Rattle.std.specs.FinMap as map;
ghost use Rattle.dbus_names.specs.Names.{is_well_known};
ghost use Rattle.own_calls.specs.Sending.{AreCutOff, AreSent};
ghost use Rattle.policy_view.specs.Sent.{calls_for, OwnMatch, OwnNames, OwnOwner};
ghost use Rattle.serial_map.specs.Serials.{most_serials};

use bytes::BytesMut;
use dbus_names::Name;
use name_patterns::Pattern;
use ping_rewrite::{add_match, get_owner, list_names};
use reply_ledger::{Kind, Ledger};
use serial_map::Serials;
use std::alloc::{AllocError, Global};

/// Appends the calls that find who owns the names of a pattern: AddMatch, and GetNameOwner for an exact name.
pub(crate) fn put_calls_for(
    alloc: Global,
    calls: &mut BytesMut,
    serials: &mut Serials,
    ledger: &mut Ledger,
    pattern: &Pattern,
) -> Result<(), AllocError>
    requires { serials.old + length (calls_for pattern.now) ≤ most_serials }
    ensures sent { OnOk result (AreSent (calls_for pattern.now) calls.old.items serials.old ledger.old calls.new.items serials.new ledger.new) }
    ensures cut { OnErr result (AreCutOff (calls_for pattern.now) calls.old.items serials.old ledger.old calls.new.items serials.new ledger.new) }
{
    put_match(calls, serials, ledger, pattern)?;
    if pattern.is_exact() {
        put_owner(alloc, calls, serials, ledger, pattern.name())?;
    }
    Ok(())
}

/// Appends a call of AddMatch.
#[tactic(auto, using(crate::proofs::SendingLaws::cut_given, crate::proofs::SendingLaws::cut_expected))]
fn put_match(
    calls: &mut BytesMut,
    serials: &mut Serials,
    ledger: &mut Ledger,
    pattern: &Pattern,
) -> Result<(), AllocError>
    requires { serials.old < most_serials }
    ensures sent { OnOk result (AreSent (OwnMatch pattern.now ∷ []) calls.old.items serials.old ledger.old calls.new.items serials.new ledger.new) }
    ensures cut { OnErr result (AreCutOff (OwnMatch pattern.now ∷ []) calls.old.items serials.old ledger.old calls.new.items serials.new ledger.new) }
{
    let serial = expect_next(serials, ledger, Kind::OwnMatch)?;
    add_match(calls, serial, pattern)?;
    Ok(())
}

/// Appends a call of GetNameOwner.
#[tactic(auto, using(crate::proofs::SendingLaws::cut_at_once, crate::proofs::SendingLaws::cut_given, crate::proofs::SendingLaws::cut_expected))]
pub(crate) fn put_owner(
    alloc: Global,
    calls: &mut BytesMut,
    serials: &mut Serials,
    ledger: &mut Ledger,
    name: &str,
) -> Result<(), AllocError>
    requires serial { serials.old < most_serials }
    requires name { IsTrue (is_well_known name.now) }
    ensures sent { OnOk result (AreSent (OwnOwner name.now ∷ []) calls.old.items serials.old ledger.old calls.new.items serials.new ledger.new) }
    ensures cut { OnErr result (AreCutOff (OwnOwner name.now ∷ []) calls.old.items serials.old ledger.old calls.new.items serials.new ledger.new) }
{
    let kept = Name::new(String::from_str(alloc, name)?);
    let serial = expect_next(serials, ledger, Kind::OwnOwner(kept))?;
    get_owner(calls, serial, name)?;
    Ok(())
}

/// Appends a call of ListNames.
#[tactic(auto, using(crate::proofs::SendingLaws::cut_given, crate::proofs::SendingLaws::cut_expected))]
pub(crate) fn put_names(
    calls: &mut BytesMut,
    serials: &mut Serials,
    ledger: &mut Ledger,
) -> Result<(), AllocError>
    requires { serials.old < most_serials }
    ensures sent { OnOk result (AreSent (OwnNames ∷ []) calls.old.items serials.old ledger.old calls.new.items serials.new ledger.new) }
    ensures cut { OnErr result (AreCutOff (OwnNames ∷ []) calls.old.items serials.old ledger.old calls.new.items serials.new ledger.new) }
{
    let serial = expect_next(serials, ledger, Kind::OwnNames)?;
    calls.extend_from_slice(&list_names(serial))?;
    Ok(())
}

/// Takes the next serial. The answer to the message with it is expected, for this.
fn expect_next(serials: &mut Serials, ledger: &mut Ledger, kind: Kind) -> Result<u32, AllocError>
    requires { serials.old < most_serials }
    ensures serial { IfOk result (λ serial. serial ≡ serials.old + 1) }
    ensures given { OnOk result (serials.new ≡ serials.old + 1) }
    ensures expected { OnOk result (ledger.new ≡ record ledger.old { expected = map.insert ledger.old.expected (serials.old + 1) kind }) }
    ensures refused { OnErr result ((serials.new ≡ serials.old + 1) × (ledger.new ≡ ledger.old)) }
{
    let serial = match serials.next() {
        Ok(serial) => serial,
        Err(_) => unreachable!(),
    };
    ledger.expect(serial, kind)?;
    Ok(serial)
}
