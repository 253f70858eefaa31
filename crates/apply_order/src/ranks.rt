// The order of a plan's steps.
ghost use Rattle.std.specs.Prelude.{◌≡◌};
ghost use Rattle.apply_order.specs.Ranks.{make_rank, remove_rank, set_rank};

use sai_types::{Body, Kind, Mode};
use std::cmp::Reverse;
use swss_types::Prefix;
use view_match::NaturalKey;

/// When a step's turn is: the variants in their order, and in each the steps by their kinds or lengths.
#[derive(Clone, Copy, Debug, PartialEq, Eq, PartialOrd, Ord)]
pub enum Rank {
    /// Of a cold plan: removes an object, the highest kind first.
    Clear(Reverse<Kind>),
    /// Of a cold plan: makes an object, the lowest kind first.
    Build(Kind),
    /// Makes an object that is no route, the lowest kind first.
    Make(Kind),
    /// Sets what differs on an object that is no route, the lowest kind first.
    Set(Kind),
    /// Makes a route, the longest prefix first, and those of one length by their prefixes.
    MakeRoute(Reverse<u8>, Prefix),
    /// Sets the target of a route, by the prefixes.
    SetRoute(Prefix),
    /// Removes a route, the shortest prefix first, and those of one length by their prefixes.
    RemoveRoute(u8, Prefix),
    /// Removes an object that is no route, the highest kind first.
    Remove(Reverse<Kind>),
}

/// A step of a plan, by places in the old and in the new objects.
#[derive(Clone, Copy, Debug, PartialEq, Eq, PartialOrd, Ord)]
pub enum PlanStep {
    /// Makes the new object at this place.
    Make(u64),
    /// Sets what differs on the old object at the first place, so that it is as the new one at the second.
    Set(u64, u64),
    /// Removes the old object at this place.
    Remove(u64),
}

/// A step with its turn: steps are ordered by their ranks, then by natural key, then by identifier.
#[derive(Debug, PartialEq, Eq, PartialOrd, Ord, Drop)]
pub struct Timed {
    /// Its rank.
    pub rank: Rank,
    /// The natural key of its object.
    pub key: Option<NaturalKey>,
    /// The identifier of the object that it removes, where there is one, else 0.
    pub id: u64,
    /// The step.
    pub step: PlanStep,
}

/// The rank of the step that makes an object.
pub(crate) fn make_rank<I>(mode: Mode, body: &Body<I>) -> Rank
    ensures { result ≡ make_rank mode body.now }
{
    match (mode, body) {
        (Mode::Cold, body) => Rank::Build(body.kind()),
        (Mode::Hitless, Body::Route { prefix, .. }) => Rank::MakeRoute(
            Reverse(prefix.len),
            *prefix,
        ),
        (Mode::Hitless, body) => Rank::Make(body.kind()),
    }
}

/// The rank of the step that sets what differs on an object.
pub(crate) fn set_rank<I>(body: &Body<I>) -> Rank
    ensures { result ≡ set_rank body.now }
{
    match body {
        Body::Route { prefix, .. } => Rank::SetRoute(*prefix),
        body => Rank::Set(body.kind()),
    }
}

/// The rank of the step that removes an object.
pub(crate) fn remove_rank<I>(mode: Mode, body: &Body<I>) -> Rank
    ensures { result ≡ remove_rank mode body.now }
{
    match (mode, body) {
        (Mode::Cold, body) => Rank::Clear(Reverse(body.kind())),
        (Mode::Hitless, Body::Route { prefix, .. }) => Rank::RemoveRoute(prefix.len, *prefix),
        (Mode::Hitless, body) => Rank::Remove(Reverse(body.kind())),
    }
}
