// What natural keys and pairs are. Each function is a law: it does nothing, and its contract is proved.
ghost use Rattle.std.specs.Prelude.{◌≡◌, ◌↔◌, ℕ, List};
ghost use Rattle.std.specs.declared.cmp.Ordering.TheVariants.{Equal};
ghost use Rattle.sai_types.specs.declared.ids.Rid.{Rid};
ghost use Rattle.sai_types.specs.declared.ids.Vid.{Vid};
ghost use Rattle.sai_types.specs.declared.body.Object.{Object};
ghost use Rattle.sai_types.specs.declared.thing.Thing.{Thing};
ghost use Rattle.sai_types.specs.Alike.{IsIn};
ghost use Rattle.sai_types.specs.Order.{thing_order};
ghost use Rattle.chip_names.specs.Naming.{entries_of};
ghost use Rattle.view_match.specs.Keys.{natural_key_cmp, natural_key_of};
ghost use Rattle.view_match.specs.Listed.{objects_as};
ghost use Rattle.view_match.specs.Paired.{ArePaired};
ghost use Rattle.view_match.specs.Pairs.{pairs_of};
ghost use Rattle.view_match.specs.declared.key.NaturalKey.{NaturalKey};

/// Natural keys are ordered as things are: by their kinds, as the chip's table has them, and then part by part. Keys that
/// compare equal are equal.
pub fn natural_keys_are_ordered()
    ensures order { (t u : Thing) → natural_key_cmp (natural_key_of t) (natural_key_of u) ≡ thing_order t u }
    ensures exact { (k l : NaturalKey) → natural_key_cmp k l ≡ Equal → k ≡ l }
{}

/// An old object and a new one are paired exactly where their natural keys are equal and, of several old objects with
/// this key, the old one is that of the group with the least identifier.
pub fn pairs_are_of_one_key()
    ensures { (old : List (Object Rid)) (new : List (Object Vid)) (i j : ℕ) → IsIn (i, j) (pairs_of old new) ↔ ArePaired (entries_of old) (entries_of (objects_as new)) i j }
{}
