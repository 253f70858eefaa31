// Beginnings that are taken back.
ghost use Rattle.std.specs.Prelude.{◌≡◌, ℕ, None, OnOk, OnErr};
ghost use Rattle.std.specs.BTreeMap.{insert_entry};
ghost use Rattle.ref_counts.specs.Registered.{begun};
ghost use Rattle.ref_counts.specs.Registry.{Names, registered_name_cmp, registered_at};

use ref_counts::{Name, Registry};
use swss_types::OutOfMemory;

/// Begins the building of an absent name, with places for so many identifiers.
pub fn begin_build(
    reg: &mut Registry,
    worker: u32,
    name: Name,
    vids: u64,
) -> Result<(), OutOfMemory>
    requires { registered_at reg.old name ≡ None }
    ensures ok { OnOk result (reg.new ≡ insert_entry registered_name_cmp reg.old name (begun worker vids)) }
    ensures err { OnErr result (reg.new ≡ reg.old) }
{
    reg.start_absent(worker, name, vids)
}

/// Takes back that the building of a name began which was absent.
pub fn end_build(reg: &mut Registry, worker: u32, name: &Name)
    requires { (names : Names) × (vids : ℕ) × (registered_at names name.now ≡ None) × (reg.old ≡ insert_entry registered_name_cmp names name.now (begun worker vids)) }
    ensures { (names : Names) (vids : ℕ) → registered_at names name.now ≡ None → reg.old ≡ insert_entry registered_name_cmp names name.now (begun worker vids) → reg.new ≡ names }
{
    reg.built(worker, name, &[]);
    match reg.try_retire(worker, name) {
        Ok(()) => reg.gone(name),
        Err(_) => unreachable!(),
    }
}
