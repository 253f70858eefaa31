// How an operation ends.
ghost use Rattle.std.specs.Prelude.{◌≡◌, ℕ, [], IsSome, Option, option_map};
ghost use Rattle.table_schema.specs.declared.key.Key.{Key};
ghost use Rattle.switch_model.specs.Placed.{Placed, bare};
ghost use Rattle.ref_counts.specs.declared.name.NameState.TheVariants.{Retiring};
ghost use Rattle.ref_counts.specs.Registry.{ids_of, state_of};
ghost use Rattle.registry_laws.specs.Ending.{come_to_be, users_dropped, with_own_ended};

use ref_counts::{Name, NameState, Registry};
use table_schema::{Key, Row};

/// A key uses the rows of these keys no more.
pub fn drop_users(reg: &mut Registry, named: Vec<Key>, key: &Key)
    ensures { reg.new ≡ users_dropped reg.old key.now named.items }
{
    for other in named {
        reg.drop_user(&Name::Row(other), key);
    }
}

/// The name of a key's own row is gone with the row, or is live: it comes back, with no identifier, where the applied row was
/// going though there is a new one.
pub fn end_row(reg: &mut Registry, worker: u32, name: &Name, new: &Option<Row>)
    requires { IsSome new.now → (v : ℕ) → state_of reg.old name.now ≡ Retiring v → (v ≡ worker) × (ids_of reg.old name.now ≡ []) }
    ensures { (key : Key) (row : Option Placed) → name.now ≡ Name.Row key → new.now ≡ option_map bare row → reg.new ≡ with_own_ended reg.old key row }
{
    match new {
        Some(_) => settle_row(reg, worker, name),
        None => reg.gone(name),
    }
}

/// The name of a row that is to be there is live: it comes back, with no identifier, where it was going.
fn settle_row(reg: &mut Registry, worker: u32, name: &Name)
    requires { (v : ℕ) → state_of reg.old name.now ≡ Retiring v → (v ≡ worker) × (ids_of reg.old name.now ≡ []) }
    ensures { reg.new ≡ come_to_be (state_of reg.old name.now) reg.old name.now }
{
    match reg.state(name) {
        NameState::Retiring(_) => reg.back(worker, name, &[]),
        NameState::Absent | NameState::Building(_) | NameState::Live => reg.finish(name),
    }
}
