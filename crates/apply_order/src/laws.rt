// In what order the steps of a plan are. Each function is a law: it does nothing, and its contract is proved.
ghost use Rattle.std.specs.Prelude.{◌≡◌};
ghost use Rattle.std.specs.Option.{option_cmp};
ghost use Rattle.std.specs.Ordering.{nat_cmp, ordering_then};
ghost use Rattle.std.specs.declared.cmp.Ordering.{Ordering};
ghost use Rattle.view_match.specs.Keys.{natural_key_cmp};
ghost use Rattle.apply_order.specs.Ranks.{timed_cmp};
ghost use Rattle.apply_order.specs.Turns.{rank_order};
ghost use Rattle.apply_order.specs.declared.ranks.Timed.{Timed};

/// Steps are ordered by the phases of a plan and in each by kinds, or by lengths of prefixes and then by prefixes, then by
/// natural keys, then by identifiers.
pub fn turns_are_ordered()
    ensures { (t u : Timed) → (rest : Ordering) × (timed_cmp t u ≡ ordering_then (rank_order t.rank u.rank) (ordering_then (option_cmp natural_key_cmp t.key u.key) (ordering_then (nat_cmp t.id u.id) rest))) }
{}
