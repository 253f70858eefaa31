// Words of a line as values.
ghost use Rattle.std.specs.Prelude.{IfOk};
ghost use Rattle.machine_laws.specs.Reading.{IsOnSwitch};
ghost use Rattle.swss_types.specs.Address.{IsProperPrefix};

use anyhow::{Context, Result, bail};
use sai_types::{Caps, Kind, Rid, Weight};
use std::alloc::Global;
use switch_model::Wait;
use swss_types::{Ip, Lanes, Mac, Prefix, Tagging, Text, VrfName};
use table_schema::{Fields, Key, has_colon, read_key};

/// A number.
pub fn number(word: &str) -> Result<u64> {
    word.parse::<u64>().context("a number")
}

/// A number of 32 bits.
pub fn short(word: &str) -> Result<u32> {
    word.parse::<u32>().context("a number")
}

/// An identifier.
pub fn id(word: &str) -> Result<Rid> {
    Ok(Rid(number(word)?))
}

/// A weight.
pub fn weight(word: &str) -> Result<Weight> {
    let number = word.parse::<u8>().context("a number")?;
    Weight::new(number).context("a weight")
}

/// An address.
pub fn ip(word: &str) -> Result<Ip> {
    Ip::read(word.as_bytes()).context("an address")
}

/// The name of a virtual router.
pub fn vrf_name(word: &str) -> Result<VrfName> {
    VrfName::read(word.as_bytes()).context("a router")
}

/// A prefix.
pub fn prefix(word: &str) -> Result<Prefix>
    ensures { IfOk result IsProperPrefix }
{
    Prefix::read(word.as_bytes()).context("a prefix")
}

/// An Ethernet address.
pub fn mac(word: &str) -> Result<Mac> {
    Mac::read(word.as_bytes()).context("an Ethernet address")
}

/// A tagging.
pub fn tagging(word: &str) -> Result<Tagging> {
    Tagging::read(word.as_bytes()).context("a tagging")
}

/// Lanes.
pub fn lanes(alloc: Global, word: &str) -> Result<Lanes> {
    Lanes::read(alloc, word.as_bytes())?.context("lanes")
}

/// A kind of object.
pub fn kind(word: &str) -> Result<Kind> {
    for kind in Kind::ALL {
        if kind_name(kind) == word {
            return Ok(kind);
        }
    }
    bail!("a kind")
}

/// The name of a kind in the chip's table.
fn kind_name(kind: Kind) -> &'static str {
    match kind {
        Kind::Port => "PORT",
        Kind::Vlan => "VLAN",
        Kind::VirtualRouter => "VIRTUAL_ROUTER",
        Kind::BridgePort => "BRIDGE_PORT",
        Kind::VlanMember => "VLAN_MEMBER",
        Kind::Rif => "RIF",
        Kind::OwnAddress => "OWN_ADDRESS",
        Kind::Neighbor => "NEIGHBOR",
        Kind::NextHop => "NEXT_HOP",
        Kind::Group => "GROUP",
        Kind::GroupMember => "GROUP_MEMBER",
        Kind::Route => "ROUTE",
    }
}

/// A key.
pub fn key(alloc: Global, word: &str) -> Result<Key>
    ensures { IfOk result IsOnSwitch }
{
    if !has_colon(word.as_bytes()) {
        bail!("a key");
    }
    Ok(read_key(alloc, word.as_bytes())?)
}

/// Why a key waits.
pub fn wait(alloc: Global, why: &[&str]) -> Result<Wait> {
    match why {
        ["missing", name] => Ok(Wait::Missing(key(alloc, name)?)),
        ["held", name] => Ok(Wait::Held(key(alloc, name)?)),
        ["no-room", name] => Ok(Wait::NoRoom(kind(name)?)),
        ["busy", worker] => Ok(Wait::Busy(short(worker)?)),
        _ => bail!("a reason"),
    }
}

/// The same room but for a kind.
pub fn with_room(room: Caps, name: &str, most: &str) -> Result<Caps> {
    let mut room = room.0;
    room[kind(name)?.index()] = number(most)?;
    Ok(Caps(room))
}

/// A text.
pub fn text(alloc: Global, word: &str) -> Result<Text> {
    Text::new(alloc, word.as_bytes())?.context("a text")
}

/// Fields, each a name, an equals sign and a value.
pub fn fields(alloc: Global, words: &[&str]) -> Result<Fields> {
    let mut fields = Fields::new(alloc);
    for word in words {
        let (name, value) = word.split_once('=').context("a field")?;
        fields.put(text(alloc, name)?, text(alloc, value)?)?;
    }
    Ok(fields)
}
