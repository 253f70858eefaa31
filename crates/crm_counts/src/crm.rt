// The counters of a chip's resources.
ghost use Rattle.std.specs.Prelude.{◌≡◌, ◌<◌, ◌≤◌, ℕ, List, [], ◌∷◌, ◌++◌, length, IfOk, OnOk, OnErr};
ghost use Rattle.sai_types.specs.declared.ids.Rid.{Rid};
ghost use Rattle.sai_types.specs.declared.body.Call.{Call};
ghost use Rattle.sai_types.specs.Objects.{used};
ghost use Rattle.crm_counts.specs.Alarms.{alarm_of, alarms_behind, is_above_behind};
ghost use Rattle.crm_counts.specs.Counted.{above_of, count_of_kind};
ghost use Rattle.crm_counts.specs.Crm.{IsCrmOf};
ghost use Rattle.crm_counts.specs.Effects.{IsNextEffect, chip_of};

use crate::Alarm;
use crate::counts::Counts;
use crate::limits::Limits;
use sai_types::{Call, Caps, Kind, Rid};
use std::alloc::Global;
use std::marker::Model;
use swss_types::OutOfMemory;

/// Counters of a chip's resources, in the way of SONiC's CRM. They are given the chip's effects one after another, and
/// know how many objects of each kind stand, which kinds are above their thresholds, and the alarms of the round.
#[derive(Drop)]
pub struct Crm {
    limits: Limits,
    counts: Counts,
    effects: u64,
    alarms: Vec<(u64, Alarm)>,
}

impl Model for Crm {
    ghost use Rattle.crm_counts.specs.Crm.{CrmState};

    ghost Value = { CrmState };

    ghost view = { λ c. record { limits = c.limits; counts = c.counts; effects = c.effects; alarms = c.alarms.items } };
}

impl Crm {
    /// No effect was given. A kind comes above its threshold where its objects are at least `high` hundredths of its
    /// capacity, and is no longer above where they are at most `low` hundredths. One of capacity 0 is never above.
    pub fn new(alloc: Global, caps: &Caps, high: u8, low: u8) -> Crm
        requires thresholds { low < high }
        requires hundredths { high ≤ 100 }
        ensures limits { result.limits ≡ record { capacities = caps.now.0; high = high; low = low } }
        ensures none { IsCrmOf result 0 [] }
    {
        Crm {
            limits: Limits::new(caps, high, low),
            counts: Counts::new(alloc),
            effects: 0,
            alarms: Vec::new(alloc),
        }
    }

    /// Takes the next effect: a call, and the identifier that it made, if any. Where the call is legal behind the effects
    /// so far and made that identifier, its alarm is answered: the kind of the object that it made or removed came above
    /// its threshold, or left it. Err for want of memory alone, which also comes where effects or objects have no next
    /// number; the counters are then as before. It costs a logarithm of the objects that stand.
    pub fn effect(
        &mut self,
        call: &Call<Rid>,
        made: Option<Rid>,
    ) -> Result<Option<Alarm>, OutOfMemory>
        ensures given { OnOk result ((before : ℕ) (effects : List (Call Rid)) → IsCrmOf self.old before effects → IsNextEffect self.old.limits.capacities effects call.now made → IsCrmOf self.new before (effects ++ call.now ∷ [])) }
        ensures alarm { IfOk result (λ alarm. (before : ℕ) (effects : List (Call Rid)) → IsCrmOf self.old before effects → IsNextEffect self.old.limits.capacities effects call.now made → alarm ≡ alarm_of self.old.limits effects call.now) }
        ensures limits { self.new.limits ≡ self.old.limits }
        ensures err { OnErr result (self.new ≡ self.old) }
    {
        let Some(number) = self.effects.checked_add(1) else {
            return Err(OutOfMemory);
        };
        self.alarms.reserve(1)?;
        let alarm = self.counts.follow(&self.limits, call, made)?;
        self.effects = number;
        if let Some(alarm) = alarm {
            self.alarms.push((number, alarm))?;
        }
        Ok(alarm)
    }

    /// How many objects of the kind stand on the chip of the effects.
    pub fn used(&self, kind: Kind) -> u64
        ensures kept { result ≡ count_of_kind self.now.counts kind }
        ensures stand { (before : ℕ) (effects : List (Call Rid)) → IsCrmOf self.now before effects → result ≡ used (chip_of effects) kind }
    {
        self.counts.used(kind)
    }

    /// Whether the kind is above its threshold.
    pub fn above(&self, kind: Kind) -> bool
        ensures kept { result ≡ above_of self.now.counts kind }
        ensures above { (before : ℕ) (effects : List (Call Rid)) → IsCrmOf self.now before effects → result ≡ is_above_behind self.now.limits effects kind }
    {
        self.counts.above(kind)
    }

    /// The alarms of the effects of the round, in their order, each with the number of its effect, of all effects from 1.
    pub fn alarms(&self) -> &[(u64, Alarm)]
        ensures kept { result.now ≡ self.now.alarms }
        ensures raised { (before : ℕ) (effects : List (Call Rid)) → IsCrmOf self.now before effects → result.now ≡ alarms_behind self.now.limits before effects }
    {
        self.alarms.as_slice()
    }

    /// Begins a round: it has no alarms yet.
    pub fn new_round(&mut self)
        ensures emptied { self.new ≡ record self.old { alarms = [] } }
        ensures round { (before : ℕ) (effects : List (Call Rid)) → IsCrmOf self.old before effects → IsCrmOf self.new (length effects) effects }
    {
        self.alarms.clear();
    }
}
