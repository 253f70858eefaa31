// To whom things belong. Each function is a law: it does nothing, and its contract is proved.
ghost use Rattle.std.specs.Prelude.{◌≡◌, ◌⊎◌, Bool, List, [], Some};
ghost use Rattle.table_schema.specs.Plan.{IsPlan, Ports};
ghost use Rattle.table_schema.specs.declared.key.Key.{Key};
ghost use Rattle.sai_types.specs.declared.thing.Thing.{Thing};
ghost use Rattle.sai_types.specs.Alike.{IsIn};
ghost use Rattle.sai_types.specs.Names.{ThingName, Refers, name_of};
ghost use Rattle.switch_model.specs.Placed.{Placed as Row, placed_names as names_of};
ghost use Rattle.switch_model.specs.Things.{things_of};
ghost use Rattle.row_layout.specs.Operations.{changes_of};
ghost use Rattle.row_layout.specs.Rows.{Owner, OfRow, own_things, owner_of};
ghost use Rattle.row_layout.specs.Shared.{CanHold, IsOf, uses};

/// From the name of a thing its owner follows, so two owners never hold one name.
pub fn owners_are_apart()
    ensures owned { (plan : Ports) (o : Owner) (t : Thing) → IsPlan plan → CanHold plan o t → owner_of plan (name_of t) ≡ Some o }
    ensures apart { (plan : Ports) (o p : Owner) (t u : Thing) → IsPlan plan → CanHold plan o t → CanHold plan p u → name_of t ≡ name_of u → o ≡ p }
{}

/// The things of a row are its own and those of what it shares.
pub fn rows_have_their_things()
    ensures into { (plan : Ports) (k : Key) (r : Row) (t : Thing) → IsIn t (things_of plan k r) → IsOf (own_things plan k r) (uses plan k r) t }
    ensures back { (plan : Ports) (k : Key) (r : Row) (t : Thing) → IsOf (own_things plan k r) (uses plan k r) t → IsIn t (things_of plan k r) }
{}

/// What a row's own thing refers to belongs to a row that the row names, or to the row itself, or to what rows share.
pub fn rows_name()
    ensures { (plan : Ports) (k p : Key) (r : Row) (t : Thing) (n : ThingName) → IsPlan plan → IsIn t (own_things plan k r) → Refers t n → owner_of plan n ≡ Some (OfRow p) → IsIn p (names_of k r) ⊎ (p ≡ k) }
{}

/// A row that is equal to the applied row makes no change.
pub fn equal_rows_change_nothing()
    ensures { (plan : Ports) (k : Key) (r : Row) (used : Owner → Bool) → changes_of plan k (Some r) (Some r) used ≡ [] }
{}
