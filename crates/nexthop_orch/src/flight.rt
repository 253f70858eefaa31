// The operation of a group of next hops.
ghost use Rattle.std.specs.Prelude.{◌≡◌, ◌↔◌, ◌≤◌, ◌+◌, [], ◌++◌, false, true, Some, IsTrue, IfOk, length, slice_get, vec_capacity};
ghost use Rattle.table_schema.specs.Plan.{IsPlan, Ports};
ghost use Rattle.sai_types.specs.Hop.{AreRisingHops};
ghost use Rattle.row_layout.specs.Rows.{interface_on};
ghost use Rattle.ref_counts.specs.Registry.{places_of, state_of};
ghost use Rattle.ref_counts.specs.declared.name.NameState.TheVariants as state;
ghost use Rattle.orch_flight.specs.Grouping.{IsGroupNextOf, IsGroupOver, IsGroupTook, KnowsGroupIds, MayTakeGroup, first_group, group_names_by, neighbour_keys};
ghost use Rattle.orch_flight.specs.Taking.{to_list};

use orch_flight::vid;
use ref_counts::{Name, Next, Registry};
use sai_types::{Base, Body, Call, Entry, Hop, Hops, Vid, WHop};
use std::alloc::Global;
use std::marker::Model;
use swss_types::{IfName, OutOfMemory};
use table_schema::{Key, PortPlan};

/// The operation of a group of next hops: the group is made, and then a member for each hop, rising; or the members are
/// removed, and then the group.
#[derive(Debug, Drop)]
pub struct GroupFlight {
    worker: u32,
    // the name under which the registry keeps the group
    name: Name,
    builds: bool,
    // where it is built: the neighbours that are its hops, and the identifiers made so far, the group's own first
    neighbours: Vec<Key>,
    made: Vec<Vid>,
    // how many calls have taken effect
    done: usize,
}

impl Model for GroupFlight {
    ghost use Rattle.std.specs.Prelude.{vec_capacity};
    ghost use Rattle.orch_flight.specs.Grouping.{GroupOperation};
    ghost use Rattle.nexthop_orch.specs.Groups.{IsGroupKept, group_operation};

    ghost Value = { GroupOperation };

    ghost view = { λ f. group_operation f.worker f.name f.builds f.neighbours.items f.made.items f.done };

    ghost invariant = { λ f. IsGroupKept f.name f.builds f.made.items (vec_capacity f.made) f.done };
}

impl GroupFlight {
    /// The operation that builds the group of these hops, or takes it away. It refuses nothing, changes nothing, and takes
    /// all the memory that `took` needs.
    pub fn start(
        alloc: Global,
        plan: &PortPlan,
        _reg: &Registry,
        worker: u32,
        hops: &Hops,
        build: bool,
    ) -> Result<GroupFlight, OutOfMemory>
        ensures { IfOk result (λ flight. flight ≡ first_group plan.now worker hops.now build) }
    {
        let name = Name::Group(hops.copy()?);
        let count = hops.items().len();
        if build {
            Ok(GroupFlight {
                worker,
                name,
                builds: true,
                neighbours: neighbour_keys(alloc, plan, hops.items())?,
                made: Vec::with_capacity(alloc, count + 1)?,
                done: 0,
            })
        } else {
            Ok(GroupFlight {
                worker,
                name,
                builds: false,
                neighbours: Vec::new(alloc),
                made: Vec::new(alloc),
                done: 0,
            })
        }
    }

    /// The call that is due, or the end. It takes no memory where none is due.
    pub fn next(&self, reg: &Registry) -> Result<Next, OutOfMemory>
        requires { KnowsGroupIds reg.now self.now }
        ensures { IfOk result (λ next. (plan : Ports) → IsPlan plan → IsGroupOver plan self.now → IsGroupNextOf plan reg.now self.now next) }
    {
        if !self.builds {
            return Ok(self.next_removal(reg));
        }
        if self.done == 0 {
            return Ok(Next::Call(Call::Create(Body::Group)));
        }
        let Some(hop) = hop_at(self.hops(), self.done - 1) else {
            return Ok(Next::End);
        };
        let Some(key) = key_at(self.neighbours.as_slice(), self.done - 1)? else {
            return Ok(Next::End);
        };
        Ok(Next::Call(Call::Create(Body::GroupMember {
            group: self.made[0],
            next_hop: vid(reg, &Name::Row(key)),
            weight: hop.weight,
        })))
    }

    /// The removal that is due: of the members, rising, and then of the group.
    fn next_removal(&self, reg: &Registry) -> Next
        requires known { KnowsGroupIds reg.now self.now }
        requires goes { self.now.builds ≡ false }
        ensures { (plan : Ports) → IsGroupNextOf plan reg.now self.now result }
    {
        let ids = reg.vids_of(&self.name);
        let members = self.hops().len();
        if self.done < members {
            Next::Call(Call::Remove(Entry::Oid(ids[self.done + 1])))
        } else if self.done == members {
            Next::Call(Call::Remove(Entry::Oid(ids[0])))
        } else {
            Next::End
        }
    }

    /// The call that was due has taken effect: `made` is the identifier of what it made.
    pub fn took(&mut self, made: Option<Vid>, reg: &mut Registry)
        requires { MayTakeGroup self.old made reg.old }
        ensures { IsGroupTook self.old made reg.old self.new reg.new }
    {
        let members = self.hops().len();
        keep(&mut self.made, made);
        self.done += 1;
        if members < self.done {
            self.end(reg);
        }
    }

    /// Whether no call is due.
    pub fn is_over(&self) -> bool
        ensures { IsTrue result ↔ (self.now.due ≡ []) }
    {
        self.hops().len() < self.done
    }

    /// Whether the group is built, or else taken away.
    pub fn builds(&self) -> bool
        ensures { result ≡ self.now.builds }
    {
        self.builds
    }

    /// All calls have taken effect: a group that was built is live, and one that went is absent.
    fn end(&self, reg: &mut Registry)
        requires builds { self.now.builds ≡ true → state_of reg.old (Name.Group self.now.hops) ≡ state.Building self.now.worker }
        requires places { self.now.builds ≡ true → length self.now.made ≤ places_of reg.old (Name.Group self.now.hops) }
        ensures { reg.new ≡ group_names_by reg.old self.now self.now.made [] }
    {
        if self.builds {
            reg.built(self.worker, &self.name, self.made.as_slice());
        } else {
            reg.gone(&self.name);
        }
    }

    /// The hops of the group, with their weights.
    fn hops(&self) -> &[WHop]
        ensures value { result.now ≡ self.now.hops }
        ensures rising { AreRisingHops result.now }
    {
        match &self.name {
            Name::Group(hops) => hops.items(),
            _ => &[],
        }
    }
}

/// Keeps an identifier that was made, in memory that is there.
fn keep(ids: &mut Vec<Vid>, made: Option<Vid>)
    requires { length ids.old.items + length (to_list made) ≤ vec_capacity ids.old }
    ensures items { ids.new.items ≡ ids.old.items ++ to_list made }
    ensures capacity { vec_capacity ids.new ≡ vec_capacity ids.old }
{
    if let Some(vid) = made {
        ids.push_reserved(vid);
    }
}

/// One of some hops.
fn hop_at(hops: &[WHop], at: usize) -> Option<WHop>
    ensures { result ≡ slice_get hops.now at }
{
    hops.get(at).copied()
}

/// One of some keys.
fn key_at(keys: &[Key], at: usize) -> Result<Option<Key>, OutOfMemory>
    ensures { IfOk result (λ key. key ≡ slice_get keys.now at) }
{
    if at < keys.len() {
        Ok(Some(keys[at].copy()?))
    } else {
        Ok(None)
    }
}

/// The keys of the neighbours that are these hops, but for hops on ports that are not in the plan.
fn neighbour_keys(alloc: Global, plan: &PortPlan, hops: &[WHop]) -> Result<Vec<Key>, OutOfMemory>
    ensures { IfOk result (λ keys. keys.items ≡ neighbour_keys plan.now hops.now) }
{
    let mut keys = Vec::with_capacity(alloc, hops.len())?;
    for hop in hops {
        let Hop { on, ip } = hop.hop;
        if let Some(on) = interface_on(plan, on) {
            keys.push(Key::Neigh(on, ip))?;
        }
    }
    Ok(keys)
}

/// The interface on a base: None where its port is not in the plan.
fn interface_on(plan: &PortPlan, base: Base) -> Option<IfName>
    ensures { result ≡ interface_on plan.now base }
{
    match base {
        Base::Port(lane) => match plan.name_of(lane) {
            Some(port) => Some(IfName::Ethernet(port)),
            None => None,
        },
        Base::Vlan(vlan) => Some(IfName::Vlan(vlan)),
    }
}
