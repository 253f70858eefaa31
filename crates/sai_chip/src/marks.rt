// What bodies take up on a chip.
ghost use Rattle.std.specs.Prelude.{◌≡◌, [], ◌∷◌};
ghost use Rattle.sai_types.specs.References.{router_of};
ghost use Rattle.sai_chip.specs.Marks.{base_marks};

use crate::mark::TakenMark;
use sai_types::{Body, Rid, RifOn};

/// What a router interface stands on.
pub fn base(on: RifOn<Rid>) -> Rid
    ensures { base_marks on ≡ TakenMark.RefersTo result ∷ [] }
{
    match on {
        RifOn::Port(port) => port,
        RifOn::Vlan(vlan) => vlan,
    }
}

/// The virtual router that an object is in, unless it is the default one.
pub fn router_of(body: &Body<Rid>) -> Option<Rid>
    ensures { result ≡ router_of body.now }
{
    match body {
        Body::Rif { vr, .. } | Body::OwnAddress { vr, .. } | Body::Route { vr, .. } => *vr,
        _ => None,
    }
}
