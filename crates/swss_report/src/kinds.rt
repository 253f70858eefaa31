// The kinds of objects, as the report names them.
ghost use Rattle.std.specs.Prelude.{◌≡◌};
ghost use Rattle.swss_report.specs.Kinds.{kind_name};

use sai_types::Kind;

/// The name of a kind.
pub(crate) fn kind_name(kind: Kind) -> &'static [u8]
    ensures { result.now ≡ kind_name kind }
{
    match kind {
        Kind::Port => b"PORT",
        Kind::Vlan => b"VLAN",
        Kind::VirtualRouter => b"VIRTUAL_ROUTER",
        Kind::BridgePort => b"BRIDGE_PORT",
        Kind::VlanMember => b"VLAN_MEMBER",
        Kind::Rif => b"RIF",
        Kind::OwnAddress => b"OWN_ADDRESS",
        Kind::Neighbor => b"NEIGHBOR",
        Kind::NextHop => b"NEXT_HOP",
        Kind::Group => b"GROUP",
        Kind::GroupMember => b"GROUP_MEMBER",
        Kind::Route => b"ROUTE",
    }
}
