// What becomes of names when the operation of a row begins.
ghost use Rattle.std.specs.Prelude.{◌≡◌, true, false, None, Some, IfOk, IfErr, OnOk, OnErr};
ghost use Rattle.ref_counts.specs.Registered.{IsReadable, with_user};
ghost use Rattle.ref_counts.specs.Registry.{changed, first_not_live, registered_at};
ghost use Rattle.orch_flight.specs.Starting.{ids_for, ids_for_row};
ghost use Rattle.orch_flight.specs.Sharing.{HasNoPins, IsNameReady, begun_by, lacks_shared, owner_for, with_row_begun, with_shared, with_shared_begun};

use crate::undoing::{begin_build, end_build};
use ref_counts::{Missing, Name, Registry, copied};
use swss_types::{IfName, OutOfMemory};
use table_schema::Key;

/// Begins the operation of a row: pins the rows of the keys that it names, begins the building of its own name unless a row
/// is applied, and of what it shares where it is absent, and makes its key a user of this. Missing is the first of the keys
/// whose row is not live: nothing is begun then.
pub fn begin(
    reg: &mut Registry,
    worker: u32,
    key: &Key,
    keys: &[Key],
    applied: bool,
    shared: &Option<Name>,
) -> Result<Result<(), Missing>, OutOfMemory>
    requires readable { IsReadable key.now }
    requires unpinned { HasNoPins reg.old worker }
    requires own { applied ≡ false → registered_at reg.old (Name.Row key.now) ≡ None }
    requires shared { IsNameReady reg.old shared.now }
    ensures named { IfOk result (λ answer. OnOk answer (first_not_live reg.old keys.now ≡ None)) }
    ensures ok { IfOk result (λ answer. OnOk answer (reg.new ≡ begun_by reg.old worker key.now keys.now applied shared.now (lacks_shared reg.old shared.now))) }
    ensures missing { IfOk result (λ answer. IfErr answer (λ missing. first_not_live reg.old keys.now ≡ Some missing.0)) }
    ensures none { IfOk result (λ answer. OnErr answer (reg.new ≡ reg.old)) }
    ensures err { OnErr result (reg.new ≡ reg.old) }
{
    match reg.pin(worker, key, keys)? {
        Ok(()) => {}
        Err(missing) => return Ok(Err(missing)),
    }
    if let Err(error) = begin_row(reg, worker, key, applied, shared) {
        reg.release(worker, false);
        return Err(error);
    }
    Ok(Ok(()))
}

/// Begins the building of a key's own name, unless a row of it is applied, and of what its new row shares.
fn begin_row(
    reg: &mut Registry,
    worker: u32,
    key: &Key,
    applied: bool,
    shared: &Option<Name>,
) -> Result<(), OutOfMemory>
    requires readable { IsReadable key.now }
    requires own { applied ≡ false → registered_at reg.old (Name.Row key.now) ≡ None }
    requires shared { IsNameReady reg.old shared.now }
    ensures ok { OnOk result (reg.new ≡ with_shared (with_row_begun reg.old worker key.now applied) worker key.now shared.now (lacks_shared reg.old shared.now)) }
    ensures err { OnErr result (reg.new ≡ reg.old) }
{
    if applied {
        return begin_shared(reg, worker, key, shared);
    }
    begin_build(reg, worker, Name::Row(copied(key)), ids_for_row(key))?;
    if let Err(error) = begin_shared(reg, worker, key, shared) {
        end_build(reg, worker, &Name::Row(copied(key)));
        return Err(error);
    }
    Ok(())
}

/// Begins the building of what is shared, where it is absent, and makes the key a user of it.
fn begin_shared(
    reg: &mut Registry,
    worker: u32,
    key: &Key,
    shared: &Option<Name>,
) -> Result<(), OutOfMemory>
    requires readable { IsReadable key.now }
    requires shared { IsNameReady reg.old shared.now }
    ensures ok { OnOk result (reg.new ≡ with_shared reg.old worker key.now shared.now (lacks_shared reg.old shared.now)) }
    ensures err { OnErr result (reg.new ≡ reg.old) }
{
    let Some(name) = shared else {
        return Ok(());
    };
    if reg.share(name, copied(key))? {
        return Ok(());
    }
    build_shared(reg, worker, key, name)
}

/// Begins the building of what is shared and absent, and makes the key a user of it.
fn build_shared(reg: &mut Registry, worker: u32, key: &Key, name: &Name) -> Result<(), OutOfMemory>
    requires readable { IsReadable key.now }
    requires absent { registered_at reg.old name.now ≡ None }
    ensures ok { OnOk result (reg.new ≡ changed (with_shared_begun reg.old worker name.now true) name.now (with_user key.now)) }
    ensures err { OnErr result (reg.new ≡ reg.old) }
{
    let user = copied(key);
    begin_build(reg, worker, name.copy()?, ids_for(name))?;
    if let Err(error) = reg.add_user(name, user) {
        end_build(reg, worker, name);
        return Err(error);
    }
    Ok(())
}

/// For how many identifiers the name of a key's row has places.
fn ids_for_row(key: &Key) -> u64
    ensures { result ≡ ids_for_row key.now }
{
    match key {
        Key::Addr(..) | Key::Route(..) | Key::Intf(IfName::Loopback(_)) => 0,
        _ => 1,
    }
}

/// For how many identifiers a name has places.
fn ids_for(name: &Name) -> u64
    ensures { result ≡ ids_for (owner_for name.now) }
{
    match name {
        Name::Row(key) => ids_for_row(key),
        Name::BridgePort(_) => 1,
        Name::Own(..) => 0,
        Name::Group(hops) => hops.items().len() as u64 + 1,
    }
}
