// The rows of a script that is made.
ghost use Rattle.std.specs.Prelude.{◌≡◌, ◌+◌, ◌<◌, ◌%◌, ◌^◌, ◌∷◌, ◌++◌, [], IfOk, OnOk, codes, string_bytes};
ghost use Rattle.swss_types.specs.Lanes.{lanes_text};
ghost use Rattle.swss_types.specs.Mac.{pair_text};
ghost use Rattle.swss_script.specs.Fields.{set_fields};
ghost use Rattle.swss_script.specs.Generated.{address_row, hop_address, hop_interface, hops_from, interface_row, neighbour_ip, neighbour_on, neighbour_row, four_lanes, planned_line, port_name, port_row, route_prefix, route_row, texts_joined, v4};

use crate::Act;
use crate::fields::{copy_text, set_fields};
use std::alloc::Global;
use swss_types::{Bits, Family, IfName, Ip, OutOfMemory, Prefix, Text, Vrf};
use table_schema::{Fields, Key, Write};

/// The row of port `k`.
pub fn port_row(alloc: Global, k: u32) -> Result<Act, OutOfMemory>
    requires { k < 64 }
    ensures { IfOk result (λ row. row ≡ port_row k) }
{
    let lanes = lanes_text(alloc, k)?;
    let fields = two_fields(alloc, "lanes", lanes.as_str(), "admin_status", "up")?;
    Ok(Act::Write(Write::Set(Key::Port(4 * k), fields)))
}

/// The line of port `k` in a port plan: its name and its lanes.
pub fn planned_line(alloc: Global, k: u32) -> Result<String, OutOfMemory>
    requires { k < 64 }
    ensures { IfOk result (λ line. string_bytes line ≡ planned_line k) }
{
    let first = 4 * k;
    let lanes = lanes_text(alloc, k)?;
    Ok(format!(in alloc; "Ethernet{first} {lanes}")?)
}

/// The lanes of port `k`.
#[tactic(auto, using(crate::proofs::MadeTexts::lanes_written))]
fn lanes_text(alloc: Global, k: u32) -> Result<String, OutOfMemory>
    requires { k < 64 }
    ensures { IfOk result (λ text. string_bytes text ≡ lanes_text (four_lanes k)) }
{
    let first = 4 * k;
    let second = first + 1;
    let third = first + 2;
    let fourth = first + 3;
    Ok(format!(in alloc; "{first},{second},{third},{fourth}")?)
}

/// The row of the interface on port `k`.
pub fn interface_row(alloc: Global, k: u32) -> Result<Act, OutOfMemory>
    requires { k < 64 }
    ensures { IfOk result (λ row. row ≡ interface_row k) }
{
    let fields = one_field(alloc, "NULL", "NULL")?;
    Ok(Act::Write(Write::Set(Key::Intf(port_name(k)), fields)))
}

/// The row of the address of the interface on port `k`.
pub fn address_row(alloc: Global, k: u32) -> Result<Act, OutOfMemory>
    requires { k < 64 }
    ensures { IfOk result (λ row. row ≡ address_row k) }
{
    let fields = one_field(alloc, "scope", "global")?;
    let key = Key::Addr(port_name(k), v4(10, 0, k, 1), 24);
    Ok(Act::Write(Write::Set(key, fields)))
}

/// The row of neighbour `j`.
pub fn neighbour_row(alloc: Global, j: u32) -> Result<Act, OutOfMemory>
    requires { j < 256 }
    ensures { IfOk result (λ row. row ≡ neighbour_row j) }
{
    let mac = mac_text(alloc, j)?;
    let fields = one_field(alloc, "neigh", mac.as_str())?;
    let key = Key::Neigh(neighbour_on(j), neighbour_ip(j));
    Ok(Act::Write(Write::Set(key, fields)))
}

/// The Ethernet address of neighbour `j`.
#[tactic(auto, using(crate::proofs::MadeTexts::pair_written))]
fn mac_text(alloc: Global, j: u32) -> Result<String, OutOfMemory>
    requires { j < 256 }
    ensures { IfOk result (λ text. string_bytes text ≡ codes "02:00:00:00:00:" ++ pair_text j) }
{
    Ok(format!(in alloc; "02:00:00:00:00:{j:02x}")?)
}

/// The row of route `i`, over so many neighbours more than one, from the one with this number on.
pub fn route_row(alloc: Global, i: u64, first: u64, others: u64) -> Result<Act, OutOfMemory>
    requires few { i < 60000 }
    requires small { first + others < 2 ^ 32 }
    ensures { IfOk result (λ row. row ≡ route_row i (hops_from first (1 + others))) }
{
    let (addresses, interfaces) = hop_texts(alloc, first, others)?;
    let fields = two_fields(
        alloc,
        "nexthop",
        addresses.as_str(),
        "ifname",
        interfaces.as_str(),
    )?;
    let key = Key::Route(Vrf::Default, route_prefix(i));
    Ok(Act::Write(Write::Set(key, fields)))
}

/// The prefix of route `i`.
fn route_prefix(i: u64) -> Prefix
    requires { i < 60000 }
    ensures { result ≡ route_prefix i }
{
    Prefix {
        ip: Ip {
            family: Family::V4,
            bits: Bits::new(20 * (1 << 24) + 256 * u128::from(i)),
        },
        len: 24,
    }
}

/// The addresses and the interfaces of so many neighbours more than one, from the one with this number on.
fn hop_texts(alloc: Global, first: u64, others: u64) -> Result<(String, String), OutOfMemory>
    requires small { first + others < 2 ^ 32 }
    ensures addresses { IfOk result (λ texts. string_bytes texts.0 ≡ texts_joined hop_address (hops_from first (1 + others))) }
    ensures interfaces { IfOk result (λ texts. string_bytes texts.1 ≡ texts_joined hop_interface (hops_from first (1 + others))) }
{
    let mut addresses = hop_address(alloc, first)?;
    let mut interfaces = hop_interface(alloc, first)?;
    for number in first + 1..first + 1 + others {
        let address = hop_address(alloc, number)?;
        push_behind(&mut addresses, address.as_str())?;
        let interface = hop_interface(alloc, number)?;
        push_behind(&mut interfaces, interface.as_str())?;
    }
    Ok((addresses, interfaces))
}

/// Appends a text behind a comma.
fn push_behind(list: &mut String, text: &str) -> Result<(), OutOfMemory>
    ensures { OnOk result (string_bytes list.new ≡ string_bytes list.old ++ 44 ∷ text.now) }
{
    list.push_str(",")?;
    list.push_str(text)?;
    Ok(())
}

/// The address of the neighbour with a number, modulo 256.
#[tactic(auto, using(crate::proofs::MadeTexts::hop_written))]
fn hop_address(alloc: Global, number: u64) -> Result<String, OutOfMemory>
    ensures { IfOk result (λ text. string_bytes text ≡ hop_address (number % 256)) }
{
    let j = number % 256;
    let port = j % 64;
    let host = 2 + j / 64;
    Ok(format!(in alloc; "10.0.{port}.{host}")?)
}

/// The interface of the neighbour with a number, modulo 256.
fn hop_interface(alloc: Global, number: u64) -> Result<String, OutOfMemory>
    ensures { IfOk result (λ text. string_bytes text ≡ hop_interface (number % 256)) }
{
    let j = number % 256;
    let port = 4 * (j % 64);
    Ok(format!(in alloc; "Ethernet{port}")?)
}

/// The name of port `k`.
fn port_name(k: u32) -> IfName
    requires { k < 64 }
    ensures { result ≡ port_name k }
{
    IfName::Ethernet(4 * k)
}

/// The interface of neighbour `j`.
fn neighbour_on(j: u32) -> IfName
    ensures { result ≡ neighbour_on j }
{
    port_name(j % 64)
}

/// The address of neighbour `j`.
fn neighbour_ip(j: u32) -> Ip
    ensures { result ≡ neighbour_ip j }
{
    v4(10, 0, j % 64, 2 + j / 64)
}

/// An address of version 4.
fn v4(a: u32, b: u32, c: u32, d: u32) -> Ip
    ensures { result ≡ v4 a b c d }
{
    let bits = ((u128::from(a) * 256 + u128::from(b)) * 256 + u128::from(c)) * 256 + u128::from(d);
    Ip {
        family: Family::V4,
        bits: Bits::new(bits),
    }
}

/// The fields of a Set with this one.
fn one_field(alloc: Global, name: &str, value: &str) -> Result<Fields, OutOfMemory>
    ensures { IfOk result (λ fields. fields ≡ set_fields ((name.now, value.now) ∷ [])) }
{
    let mut fields = Vec::new(alloc);
    fields.push(field(alloc, name, value)?)?;
    set_fields(alloc, fields)
}

/// The fields of a Set with these two.
fn two_fields(
    alloc: Global,
    name: &str,
    value: &str,
    other: &str,
    another: &str,
) -> Result<Fields, OutOfMemory>
    ensures { IfOk result (λ fields. fields ≡ set_fields ((name.now, value.now) ∷ (other.now, another.now) ∷ [])) }
{
    let mut fields = Vec::new(alloc);
    fields.push(field(alloc, name, value)?)?;
    fields.push(field(alloc, other, another)?)?;
    set_fields(alloc, fields)
}

/// A name and a value.
fn field(alloc: Global, name: &str, value: &str) -> Result<(Text, Text), OutOfMemory>
    ensures { IfOk result (λ field. field ≡ (name.now, value.now)) }
{
    Ok((copy_text(alloc, name)?, copy_text(alloc, value)?))
}
