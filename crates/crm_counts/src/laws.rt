// Laws of who is above, of alarms, and of effects that are given one after another. The functions do nothing; their
// contracts are the laws.
ghost use Rattle.std.specs.Prelude.{◌≡◌, ℕ, ◌*◌, ◌<◌, ◌⊎◌, true, false, List, [], Some, slice_get, take};
ghost use Rattle.sai_types.specs.declared.ids.Rid.{Rid};
ghost use Rattle.sai_types.specs.declared.kind.Kind.{Kind};
ghost use Rattle.sai_types.specs.declared.body.Call.{Call};
ghost use Rattle.sai_types.specs.Made.{AreLegal};
ghost use Rattle.sai_types.specs.Objects.{used};
ghost use Rattle.sai_types.specs.Refusal.{capacity_of};
ghost use Rattle.crm_counts.specs.Alarms.{Limits, alarms_among, is_above_behind, is_told_above};
ghost use Rattle.crm_counts.specs.Effects.{IsNextEffect, chip_of, id_made_by};

/// Legal effects may be given one after another: each is legal behind those before it.
pub fn effects_come_one_by_one()
    ensures { (capacities : List ℕ) (effects : List (Call Rid)) (n : ℕ) (c : Call Rid) → AreLegal capacities 0 [] effects → slice_get effects n ≡ Some c → IsNextEffect capacities (take n effects) c (id_made_by (take n effects) c) }
{}

/// After legal effects a kind is above exactly where the last alarm about it tells so.
pub fn alarms_tell_who_is_above()
    ensures { (limits : Limits) (effects : List (Call Rid)) (k : Kind) → limits.low < limits.high → AreLegal limits.capacities 0 [] effects → is_above_behind limits effects k ≡ is_told_above k (alarms_among limits [] effects) }
{}

/// A kind that is above has more objects than the low threshold, and one that is not has fewer than the high one, or no
/// capacity.
pub fn thresholds_bound_counts()
    ensures above { (limits : Limits) (effects : List (Call Rid)) (k : Kind) → limits.low < limits.high → is_above_behind limits effects k ≡ true → limits.low * capacity_of limits.capacities k < used (chip_of effects) k * 100 }
    ensures below { (limits : Limits) (effects : List (Call Rid)) (k : Kind) → limits.low < limits.high → is_above_behind limits effects k ≡ false → (capacity_of limits.capacities k ≡ 0) ⊎ (used (chip_of effects) k * 100 < limits.high * capacity_of limits.capacities k) }
{}
