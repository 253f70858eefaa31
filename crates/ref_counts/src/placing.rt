// The places that pins keep among the users of a name.
ghost use Rattle.std.specs.Prelude.{◌≡◌, false, List, ◌∷◌, ◌++◌, if◌then◌else◌};
ghost use Rattle.std.specs.BTreeSet.{insert_key};
ghost use Rattle.table_schema.specs.Key.{key_cmp};
ghost use Rattle.table_schema.specs.declared.key.Key.{Key};
ghost use Rattle.ref_counts.specs.declared.pin.Pin.{Pin};
ghost use Rattle.ref_counts.specs.Kept.{HasKeptPlace, HavePlaces, is_pinned, users_in};
ghost use Rattle.ref_counts.specs.Registered.{pins_but, pins_of, users_but, with_users};

use crate::pin::{Pin, is_pinned_by_others, is_pinned_for};
use crate::places::Places;
use crate::users::{end_place, end_use, use_place};
use table_schema::Key;

/// Takes the place of a key away that was pinned, unless it is a user or one of the other pins is for it.
pub fn end_place_of(users: &mut Places, pins: &[Pin], user: &Key)
    ensures users { (p : Pin) → p.user ≡ user.now → users_in users.new pins.now ≡ users_in users.old (p ∷ pins.now) }
    ensures places { HavePlaces users.old pins.now → HavePlaces users.new pins.now }
{
    if !is_pinned_for(pins, user) {
        end_place(users, user);
    }
}

/// Makes a key no user: it keeps its place where a pin is for it.
pub fn end_use_of(users: &mut Places, pins: &[Pin], user: &Key)
    ensures users { users_in users.new pins.now ≡ users_but user.now (users_in users.old pins.now) }
    ensures places { HavePlaces users.old pins.now → HavePlaces users.new pins.now }
{
    let stays = is_pinned_for(pins, user);
    end_use(users, user, stays);
}

/// The keys of a worker's pins become users once these pins go, or lose their places, but for users and keys of other
/// workers' pins.
pub fn leave_places(users: &mut Places, pins: &[Pin], worker: u32, used: bool)
    requires { HavePlaces users.old pins.now }
    ensures users { users_in users.new (pins_but worker pins.now) ≡ (if used then with_users (pins_of worker pins.now) (users_in users.old pins.now) else users_in users.old pins.now) }
    ensures places { HavePlaces users.new (pins_but worker pins.now) }
{
    if used {
        use_places(users, pins, pins, worker);
        return;
    }
    end_places(users, pins, pins, worker);
}

/// The keys of a worker's pins, which are some of all pins, become users once these pins go.
fn use_places(users: &mut Places, all: &[Pin], pins: &[Pin], worker: u32)
    requires { HavePlaces users.old pins.now }
    ensures users { users_in users.new (pins_but worker all.now) ≡ with_users (pins_of worker pins.now) (users_in users.old (pins_of worker pins.now ++ pins_but worker all.now)) }
    ensures others { (q : Key) → HasKeptPlace users.old q → HasKeptPlace users.new q }
{
    match pins {
        [] => {}
        [pin, others @ ..] => {
            if pin.worker == worker {
                use_place_beside(users, all, others, pin, worker);
            }
            use_places(users, all, others, worker);
        }
    }
}

/// The key of a worker's pin becomes a user once this pin goes, also where another pin is for it.
fn use_place_beside(users: &mut Places, all: &[Pin], others: &[Pin], pin: &Pin, worker: u32)
    requires { HasKeptPlace users.old pin.now.user }
    ensures users { users_in users.new (pins_of worker others.now ++ pins_but worker all.now) ≡ insert_key key_cmp (users_in users.old (pin.now ∷ pins_of worker others.now ++ pins_but worker all.now)) pin.now.user }
    ensures others { (q : Key) → HasKeptPlace users.old q → HasKeptPlace users.new q }
    ensures places { (ps : List Pin) → HavePlaces users.old ps → HavePlaces users.new ps }
{
    users.rise();
    if is_pinned_beside(all, others, worker, &pin.user) {
        use_place(users, &pin.user);
    }
}

/// Whether a pin of another worker, or one of these others, is for a key.
fn is_pinned_beside(all: &[Pin], others: &[Pin], worker: u32, user: &Key) -> bool
    ensures { result ≡ false → is_pinned (pins_of worker others.now ++ pins_but worker all.now) user.now ≡ false }
{
    is_pinned_by_others(all, worker, user) || is_pinned_for(others, user)
}

/// The keys of a worker's pins, which are some of all pins, lose their places, but for users and keys of other workers'
/// pins.
fn end_places(users: &mut Places, all: &[Pin], pins: &[Pin], worker: u32)
    requires { HavePlaces users.old (pins_but worker all.now) }
    ensures users { users_in users.new (pins_but worker all.now) ≡ users_in users.old (pins_of worker pins.now ++ pins_but worker all.now) }
    ensures places { HavePlaces users.new (pins_but worker all.now) }
{
    match pins {
        [] => {}
        [pin, others @ ..] => {
            if pin.worker == worker {
                end_place_beside(users, all, pin, worker);
            }
            end_places(users, all, others, worker);
        }
    }
}

/// The key of a worker's pin loses its place, where it is no user and no key of other workers' pins.
fn end_place_beside(users: &mut Places, all: &[Pin], pin: &Pin, worker: u32)
    requires { HavePlaces users.old (pins_but worker all.now) }
    ensures users { (ps : List Pin) → users_in users.new (ps ++ pins_but worker all.now) ≡ users_in users.old (pin.now ∷ ps ++ pins_but worker all.now) }
    ensures places { HavePlaces users.new (pins_but worker all.now) }
{
    if !is_pinned_by_others(all, worker, &pin.user) {
        end_place(users, &pin.user);
    }
}
