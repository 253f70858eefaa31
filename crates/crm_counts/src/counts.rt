// The counts of each kind, kept call by call.
ghost use Rattle.std.specs.Prelude.{◌≡◌, false, ◌+◌, ◌-◌, ◌∷◌, ◌++◌, [], List, Option, Some, None, IfOk, IfSome, IfNone, OnOk, OnErr};
ghost use Rattle.std.specs.List.Sorted.{IsStrictlySortedBy};
ghost use Rattle.std.specs.Map.{keys_of};
ghost use Rattle.sai_types.specs.declared.ids.Rid.{Rid};
ghost use Rattle.sai_types.specs.declared.kind.Kind.{Kind};
ghost use Rattle.sai_types.specs.declared.body.Call.{Call};
ghost use Rattle.crm_counts.specs.Alarms.{alarm_between, alarm_of};
ghost use Rattle.crm_counts.specs.Counted.{AreCountsOf, Recounts, above_of, count_of_kind, id_cmp, kind_of_entry, with_kind_of, without_entry};
ghost use Rattle.crm_counts.specs.Effects.{IsNextEffect};

use crate::Alarm;
use crate::limits::Limits;
use late_maps::LateMap;
use sai_types::{Call, Entry, KINDS, Kind, KindCounts, Rid};
use std::alloc::Global;
use std::marker::Model;
use swss_types::OutOfMemory;

/// How many objects of each kind stand, which kinds are above, and the kind of each identifier, which a removal does not
/// tell. Identifiers mostly come in their order.
#[derive(Drop)]
pub(crate) struct Counts {
    used: KindCounts,
    above: [bool; KINDS],
    kinds: LateMap<Rid, Kind>,
}

impl Model for Counts {
    ghost use Rattle.crm_counts.specs.Counted.{Counted};

    ghost Value = { Counted };

    ghost view = { λ c. record { used = c.used; above = c.above; kinds = c.kinds } };
}

impl Counts {
    /// No object.
    pub(crate) fn new(alloc: Global) -> Counts
        ensures used { (kind : Kind) → count_of_kind result kind ≡ 0 }
        ensures above { (kind : Kind) → above_of result kind ≡ false }
        ensures kinds { result.kinds ≡ [] }
    {
        Counts {
            used: [0; KINDS],
            above: [false; KINDS],
            kinds: LateMap::new(alloc),
        }
    }

    /// How many objects of the kind stand.
    pub(crate) fn used(&self, kind: Kind) -> u64
        ensures { result ≡ count_of_kind self.now kind }
    {
        self.used[kind.index()]
    }

    /// Whether the kind is above.
    pub(crate) fn above(&self, kind: Kind) -> bool
        ensures { result ≡ above_of self.now kind }
    {
        self.above[kind.index()]
    }

    /// Counts the effect of a call, and gives its alarm.
    pub(crate) fn follow(
        &mut self,
        limits: &Limits,
        call: &Call<Rid>,
        made: Option<Rid>,
    ) -> Result<Option<Alarm>, OutOfMemory>
        ensures counts { OnOk result ((effects : List (Call Rid)) → AreCountsOf limits.now self.old effects → IsNextEffect limits.now.capacities effects call.now made → AreCountsOf limits.now self.new (effects ++ call.now ∷ [])) }
        ensures alarm { IfOk result (λ alarm. (effects : List (Call Rid)) → AreCountsOf limits.now self.old effects → IsNextEffect limits.now.capacities effects call.now made → alarm ≡ alarm_of limits.now effects call.now) }
        ensures err { OnErr result (self.new ≡ self.old) }
    {
        match call {
            Call::Create(body) => self.make(limits, body.kind(), made),
            Call::Set(_, _) => Ok(None),
            Call::Remove(entry) => Ok(self.remove(limits, entry)),
        }
    }

    /// Counts an object that was made, with this identifier, if any. Want of memory comes too where the count has no next
    /// number.
    fn make(
        &mut self,
        limits: &Limits,
        kind: Kind,
        made: Option<Rid>,
    ) -> Result<Option<Alarm>, OutOfMemory>
        ensures counts { OnOk result (Recounts limits.now self.old self.new kind (count_of_kind self.old kind + 1)) }
        ensures kinds { OnOk result (self.new.kinds ≡ with_kind_of self.old.kinds made kind) }
        ensures alarm { IfOk result (λ alarm. alarm ≡ alarm_between kind (above_of self.old kind) (above_of self.new kind)) }
        ensures err { OnErr result (self.new ≡ self.old) }
    {
        let Some(used) = self.used(kind).checked_add(1) else {
            return Err(OutOfMemory);
        };
        if let Some(id) = made {
            self.kinds.insert(id, kind)?;
        }
        Ok(self.recount(limits, kind, used))
    }

    /// Counts an object that was removed.
    fn remove(&mut self, limits: &Limits, entry: &Entry<Rid>) -> Option<Alarm>
        ensures counts { IfSome (kind_of_entry self.old.kinds entry.now) (λ kind. Recounts limits.now self.old self.new kind (count_of_kind self.old kind - 1)) }
        ensures kinds { IfSome (kind_of_entry self.old.kinds entry.now) (λ _. self.new.kinds ≡ without_entry self.old.kinds entry.now) }
        ensures rising { IsStrictlySortedBy id_cmp (keys_of self.old.kinds) }
        ensures alarm { IfSome (kind_of_entry self.old.kinds entry.now) (λ kind. result ≡ alarm_between kind (above_of self.old kind) (above_of self.new kind)) }
        ensures absent { IfNone (kind_of_entry self.old.kinds entry.now) ((self.new ≡ self.old) × (result ≡ None)) }
    {
        // It says that the identifiers rise.
        let _rising = self.kinds.len();
        let kind = self.kind(entry)?;
        if let Entry::Oid(id) = entry {
            self.kinds.remove(id);
        }
        let used = self.used(kind).saturating_sub(1);
        self.recount(limits, kind, used)
    }

    /// The kind of the object with this entry.
    fn kind(&self, entry: &Entry<Rid>) -> Option<Kind>
        ensures { result ≡ kind_of_entry self.now.kinds entry.now }
    {
        match entry {
            Entry::Oid(id) => self.kinds.get(id).copied(),
            Entry::Own(_, _) => Some(Kind::OwnAddress),
            Entry::Neigh(_, _) => Some(Kind::Neighbor),
            Entry::Route(_, _) => Some(Kind::Route),
        }
    }

    /// Gives a kind another count, and tells where it comes above or leaves it.
    fn recount(&mut self, limits: &Limits, kind: Kind, count: u64) -> Option<Alarm>
        ensures counts { Recounts limits.now self.old self.new kind count }
        ensures kinds { self.new.kinds ≡ self.old.kinds }
        ensures alarm { result ≡ alarm_between kind (above_of self.old kind) (above_of self.new kind) }
    {
        let before = self.above(kind);
        let after = limits.is_above(kind, before, count);
        self.used[kind.index()] = count;
        self.above[kind.index()] = after;
        match (before, after) {
            (false, true) => Some(Alarm::Exceeded(kind)),
            (true, false) => Some(Alarm::Clear(kind)),
            _ => None,
        }
    }
}
