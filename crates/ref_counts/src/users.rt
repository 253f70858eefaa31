// The users of a name, with places for keys that may come to be users.
ghost use Rattle.std.specs.Prelude.{◌≡◌, true, false, List, [], ◌∷◌, ◌++◌, OnOk, OnErr};
ghost use Rattle.std.specs.BTreeMap.{is_at};
ghost use Rattle.std.specs.BTreeSet.{insert_key};
ghost use Rattle.std.specs.Map.{lookup};
ghost use Rattle.table_schema.specs.Key.{key_cmp};
ghost use Rattle.table_schema.specs.declared.key.Key.{Key};
ghost use Rattle.ref_counts.specs.declared.pin.Pin.{Pin};
ghost use Rattle.ref_counts.specs.Kept.{HasKeptPlace, is_pinned, is_waiting, users_in};
ghost use Rattle.ref_counts.specs.Registered.{IsReadable, users_but};

use crate::copying::copied;
use crate::pin::{Pin, is_pinned_for};
use crate::places::Places;
use swss_types::OutOfMemory;
use table_schema::Key;

/// Keeps a place for a key that comes to be pinned.
pub fn keep_place(places: &mut Places, pins: &[Pin], user: &Key) -> Result<(), OutOfMemory>
    requires { IsReadable user.now }
    ensures users { OnOk result ((p : Pin) → p.user ≡ user.now → users_in places.new (pins.now ++ p ∷ []) ≡ users_in places.old pins.now) }
    ensures err { OnErr result (places.new ≡ places.old) }
    ensures placed { OnOk result (HasKeptPlace places.new user.now) }
    ensures others { (q : Key) → HasKeptPlace places.old q → HasKeptPlace places.new q }
{
    places.rise();
    match places.put(copied(user), false)? {
        None => {}
        // It had one: that it is a user, by itself or for want of a pin, must not be lost.
        Some(uses) => places.set(user, uses || !is_pinned_for(pins, user)),
    }
    Ok(())
}

/// Makes a key a user.
pub fn put_user(places: &mut Places, user: Key) -> Result<(), OutOfMemory>
    requires { IsReadable user }
    ensures users { OnOk result ((ps : List Pin) → users_in places.new ps ≡ insert_key key_cmp (users_in places.old ps) user) }
    ensures others { (q : Key) → HasKeptPlace places.old q → HasKeptPlace places.new q }
    ensures err { OnErr result (places.new ≡ places.old) }
{
    places.rise();
    places.put(user, true)?;
    Ok(())
}

/// Makes a key that has a place a user, whatever pins there are.
pub fn use_place(places: &mut Places, user: &Key)
    requires { HasKeptPlace places.old user.now }
    ensures users { (p : Pin) (ps : List Pin) → p.user ≡ user.now → users_in places.new ps ≡ insert_key key_cmp (users_in places.old (p ∷ ps)) user.now }
    ensures others { (q : Key) → HasKeptPlace places.old q → HasKeptPlace places.new q }
{
    places.rise();
    places.set(user, true);
}

/// Whether a key has a place and is a user only where no pin is for it.
fn is_unused(places: &Places, user: &Key) -> bool
    ensures { result ≡ is_waiting (lookup (is_at (key_cmp user.now)) places.now) }
{
    match places.get(user) {
        Some(uses) => !uses,
        None => false,
    }
}

/// Takes the place of a key away that was pinned, unless it is a user.
pub fn end_place(places: &mut Places, user: &Key)
    ensures users { (p : Pin) (ps : List Pin) → p.user ≡ user.now → users_in places.new ps ≡ users_in places.old (p ∷ ps) }
    ensures others { (q : Key) → is_at (key_cmp user.now) q ≡ false → HasKeptPlace places.old q → HasKeptPlace places.new q }
{
    places.rise();
    if is_unused(places, user) {
        places.remove(user);
    }
}

/// Makes a key no user: it keeps a place, where a pin is for it, or does not.
pub fn end_use(places: &mut Places, user: &Key, stays: bool)
    ensures users { (ps : List Pin) → stays ≡ is_pinned ps user.now → users_in places.new ps ≡ users_but user.now (users_in places.old ps) }
    ensures others { (q : Key) → is_at (key_cmp user.now) q ≡ false → HasKeptPlace places.old q → HasKeptPlace places.new q }
    ensures stays { stays ≡ true → (q : Key) → HasKeptPlace places.old q → HasKeptPlace places.new q }
{
    places.rise();
    if !stays {
        places.remove(user);
        return;
    }
    places.set(user, false);
}
