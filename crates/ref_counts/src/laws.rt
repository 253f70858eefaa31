// What is known of names after the registry's calls. Each function is a law: it does nothing, and its contract is proved.
ghost use Rattle.std.specs.Prelude.{◌≡◌, ℕ, Bool, true, false, List, Some, option_map};
ghost use Rattle.std.specs.BTreeMap.{insert_entry, is_at};
ghost use Rattle.std.specs.List.Sorted.{IsStrictlySortedBy};
ghost use Rattle.std.specs.Map.{keys_of};
ghost use Rattle.table_schema.specs.declared.key.Key.{Key};
ghost use Rattle.ref_counts.specs.declared.name.Name.{Name};
ghost use Rattle.ref_counts.specs.Registered.{Registered, released};
ghost use Rattle.ref_counts.specs.declared.name.NameState.TheVariants as state;
ghost use Rattle.ref_counts.specs.Registry.{Names, all_released, changed, gone_from, ids_of, is_retiring, registered_name_cmp, pinned, registered_at, state_of, users_of};

/// A name that is put is there.
pub fn put_names_are_found()
    ensures { (names : Names) (n : Name) (r : Registered) → registered_at (insert_entry registered_name_cmp names n r) n ≡ Some r }
{}

/// A change of a name is one of what is known of it, and of no other name.
pub fn changes_are_found()
    ensures it { (names : Names) (n : Name) (f : Registered → Registered) → registered_at (changed names n f) n ≡ option_map f (registered_at names n) }
    ensures others { (names : Names) (n m : Name) (f : Registered → Registered) → is_at (registered_name_cmp n) m ≡ false → registered_at (changed names n f) m ≡ registered_at names m }
{}

/// A release is one of what is known of each name.
pub fn releases_are_found()
    ensures { (names : Names) (worker : ℕ) (used : Bool) (n : Name) → registered_at (all_released worker used names) n ≡ option_map (released worker used) (registered_at names n) }
{}

/// Pins change neither how a name stands, nor its identifiers, nor the keys that use it.
pub fn pins_leave_names()
    ensures state { (names : Names) (worker : ℕ) (user : Key) (keys : List Key) (n : Name) → state_of (pinned names worker user keys) n ≡ state_of names n }
    ensures ids { (names : Names) (worker : ℕ) (user : Key) (keys : List Key) (n : Name) → ids_of (pinned names worker user keys) n ≡ ids_of names n }
    ensures users { (names : Names) (worker : ℕ) (user : Key) (keys : List Key) (n : Name) → users_of (pinned names worker user keys) n ≡ users_of names n }
{}

/// A name that was retiring and is gone is absent, and the other names stay.
pub fn gone_names_are_absent()
    ensures it { (names : Names) (n : Name) → IsStrictlySortedBy registered_name_cmp (keys_of names) → is_retiring (state_of names n) ≡ true → state_of (gone_from names n) n ≡ state.Absent }
    ensures others { (names : Names) (n m : Name) → IsStrictlySortedBy registered_name_cmp (keys_of names) → is_at (registered_name_cmp n) m ≡ false → registered_at (gone_from names n) m ≡ registered_at names m }
{}
