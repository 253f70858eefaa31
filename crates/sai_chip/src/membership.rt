// How often next hops are counted as members of groups.
ghost use Rattle.std.specs.Prelude.{◌≡◌, ◌+◌, ◌-◌, ℕ, nat_lt, IfOk, OnOk, OnErr, if◌then◌else◌};
ghost use Rattle.std.specs.BTreeMap.{is_at};
ghost use Rattle.std.specs.List.{list_any};
ghost use Rattle.sai_types.specs.declared.ids.Rid.{Rid};
ghost use Rattle.sai_chip.specs.Tally.{AreMembers, count_in, has_member, member_cmp, same_member};

use sai_types::{Rid, Weight};
use std::alloc::Global;
use std::collections::BTreeMap;
use swss_types::OutOfMemory;

/// A member of a group: the group, and a next hop with its weight.
pub type Member = (Rid, Rid, Weight);

/// Counts of members, none of them 0. The members of a group stand together, since they are in order, and so does a next
/// hop in it with its weights.
pub type GroupMembers = BTreeMap<Member, u64>;

/// How often the member is counted.
pub fn count_member(counts: &GroupMembers, member: &Member) -> u64
    ensures { result ≡ count_in member_cmp counts.now.entries member.now }
{
    counts.get(member).copied().unwrap_or(0)
}

/// Whether the next hop is counted as a member of the group, with whatever weight.
pub fn has_member(counts: &GroupMembers, group: Rid, next_hop: Rid) -> bool
    requires { AreMembers counts.now.entries }
    ensures { result ≡ has_member counts.now.entries group next_hop }
{
    let first = (group, next_hop, Weight::one());
    match counts.range(first..).next() {
        Some(((of, to, _), _)) => *of == group && *to == next_hop,
        None => false,
    }
}

/// Counts the member once more. Want of memory comes too where the count has no next number.
pub fn raise_member(counts: &mut GroupMembers, member: Member) -> Result<(), OutOfMemory>
    requires { AreMembers counts.old.entries }
    ensures ok { OnOk result ((k : Rid × Rid × ℕ) → count_in member_cmp counts.new.entries k ≡ count_in member_cmp counts.old.entries k + (if is_at (member_cmp member) k then 1 else 0)) }
    ensures err { OnErr result (counts.new.entries ≡ counts.old.entries) }
    ensures kept { AreMembers counts.new.entries }
{
    // a weight is never 0, which keeps the members as they are to be
    let _weight = member.2.get();
    let Some(count) = counts.get_mut(&member) else {
        counts.insert(member, 1)?;
        return Ok(());
    };
    let Some(more) = count.checked_add(1) else {
        return Err(OutOfMemory);
    };
    *count = more;
    Ok(())
}

/// Counts the member once less, where it is counted.
pub fn lower_member(counts: &mut GroupMembers, member: Member)
    requires { AreMembers counts.old.entries }
    ensures less { (k : Rid × Rid × ℕ) → count_in member_cmp counts.new.entries k ≡ count_in member_cmp counts.old.entries k - (if is_at (member_cmp member) k then 1 else 0) }
    ensures kept { AreMembers counts.new.entries }
{
    if let Some(count) = counts.get_mut(&member)
        && 2 <= *count
    {
        *count -= 1;
    } else {
        counts.remove(&member);
    }
}

/// The next hops that are counted as members of the group, with their weights.
pub fn members_of(
    alloc: Global,
    counts: &GroupMembers,
    group: Rid,
) -> Result<Vec<(Rid, Weight)>, OutOfMemory>
    requires { AreMembers counts.now.entries }
    ensures { IfOk result (λ members. (m : Rid × ℕ) → list_any (same_member m) members.items ≡ nat_lt 0 (count_in member_cmp counts.now.entries (group, m.0, m.1))) }
{
    let mut members = Vec::new(alloc);
    for ((of, next_hop, weight), _) in counts.range((group, Rid(0), Weight::one())..) {
        if *of != group {
            break;
        }
        members.push((*next_hop, *weight))?;
    }
    Ok(members)
}
