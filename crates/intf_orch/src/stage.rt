// What an operation of INTF_TABLE or VRF_TABLE is about, and how far it is.
ghost use Rattle.std.specs.Prelude.{◌≡◌};
ghost use Rattle.orch_flight.specs.Needing.{places_for};
ghost use Rattle.intf_orch.specs.Interfaces.{coming, own_due, own_stage, rif_after, rif_due, rif_going, rif_moving};

use sai_types::{Base, KINDS, KindCounts};
use swss_types::{IfName, Ip, Vrf, VrfName};

/// The row that an operation is about, and what becomes of its object.
#[derive(Clone, Copy, Debug)]
pub enum Subject {
    /// The row of an interface: the virtual router in which it is, and the one in which it is to be.
    Intf(IfName, Vrf, Vrf, RifStage),
    /// The row of an interface's address, in this virtual router.
    Addr(Vrf, IfName, Ip, u8, OwnStage),
    /// The row of a virtual router.
    Vrf(VrfName, RouterStage),
}

/// What becomes of the router interface of an interface.
#[derive(Clone, Copy, Debug)]
pub enum RifStage {
    /// It stays as it is, be it there or not.
    Stays,
    /// It is still to be made, on this.
    Comes(Base),
    /// It is still to be removed, from this.
    Goes(Base),
    /// It is still to be removed, from this, and then to be made on it in another virtual router.
    Moves(Base),
}

/// What becomes of an address as the switch's own.
#[derive(Clone, Copy, Debug)]
pub enum OwnStage {
    /// It stays as it is, be it there or not.
    Stays,
    /// It is still to be made.
    Comes,
    /// Its last row is to go, and it is still to be removed.
    Goes,
    /// It was removed, since its last row is to go.
    Gone,
}

/// What becomes of a virtual router.
#[derive(Clone, Copy, Debug)]
pub enum RouterStage {
    /// It stays as it is, be it there or not.
    Stays,
    /// It is still to be made.
    Comes,
    /// It is still to be removed.
    Goes,
}

/// What becomes of the router interface of an interface that is added.
pub fn coming(base: Option<Base>) -> RifStage
    ensures { result ≡ coming base }
{
    match base {
        Some(base) => RifStage::Comes(base),
        None => RifStage::Stays,
    }
}

/// What becomes of the router interface of an interface that is removed.
pub fn going(base: Option<Base>) -> RifStage
    ensures { result ≡ rif_going base }
{
    match base {
        Some(base) => RifStage::Goes(base),
        None => RifStage::Stays,
    }
}

/// What becomes of the router interface of an interface that goes over to another virtual router.
pub fn moving(base: Option<Base>) -> RifStage
    ensures { result ≡ rif_moving base }
{
    match base {
        Some(base) => RifStage::Moves(base),
        None => RifStage::Stays,
    }
}

/// What becomes of a router interface once the call that was due for it has taken effect.
pub fn rif_after(stage: RifStage) -> RifStage
    ensures { result ≡ rif_after stage }
{
    match stage {
        RifStage::Moves(base) => RifStage::Comes(base),
        _ => RifStage::Stays,
    }
}

/// The places that the router interface of an interface that is added takes.
pub fn rif_places(base: Option<Base>, _router: Vrf) -> KindCounts
    ensures { result ≡ places_for (rif_due _router (coming base)) }
{
    match base {
        Some(_) => [0, 0, 0, 0, 0, 1, 0, 0, 0, 0, 0, 0],
        None => [0; KINDS],
    }
}

/// What becomes of an own address that is to be built where nothing of it is there.
pub fn own_stage(builds: bool) -> OwnStage
    ensures { result ≡ own_stage builds }
{
    if builds {
        OwnStage::Comes
    } else {
        OwnStage::Stays
    }
}

/// The places that it takes.
pub fn own_places(_router: &Vrf, _ip: &Ip, builds: bool) -> KindCounts
    ensures { result ≡ places_for (own_due _router.now _ip.now (own_stage builds)) }
{
    if builds {
        [0, 0, 0, 0, 0, 0, 1, 0, 0, 0, 0, 0]
    } else {
        [0; KINDS]
    }
}
