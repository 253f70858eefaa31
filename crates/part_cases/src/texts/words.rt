// Addresses, names and numbers.
use anyhow::{Context, Result};
use std::alloc::Global;
use std::fmt::Debug;
use std::str;
use swss_types::{
    IfName, Ip, Lanes, Mac, Prefix, Tagging, has_host_bits, read_interface_address, read_number,
    write_interface_address, write_number,
};

/// What a text of one of these kinds comes to.
pub fn find(alloc: Global, kind: &str, text: &str) -> Result<Option<String>> {
    let found = match kind {
        "ip" => ip(alloc, text),
        "ip-value" => shown(alloc, &Ip::read(text.as_bytes())),
        "prefix" => prefix(alloc, text),
        "host-bits" => host_bits(alloc, text),
        "address" => address(alloc, text),
        "covers" => covers(alloc, text),
        "mac" => mac(alloc, text),
        "name" => name(alloc, text),
        "lanes" => lanes(alloc, text),
        "tagging" => tagging(alloc, text),
        "number" => number(alloc, text),
        "writes" => writes(alloc, text),
        _ => return Ok(None),
    };
    Ok(Some(found?))
}

/// A value, or `none`.
fn shown<T: Debug>(alloc: Global, value: &Option<T>) -> Result<String> {
    match value {
        Some(value) => Ok(format!(in alloc; "{value:?}")?),
        None => none(alloc),
    }
}

fn none(alloc: Global) -> Result<String> {
    Ok(String::from_str(alloc, "none")?)
}

/// What was written.
fn written(alloc: Global, out: &[u8]) -> Result<String> {
    Ok(String::from_str(alloc, str::from_utf8(out)?)?)
}

/// What was written, and a value.
fn with_value<T: Debug>(alloc: Global, out: &[u8], value: &T) -> Result<String> {
    Ok(format!(in alloc; "{} {value:?}", str::from_utf8(out)?)?)
}

fn ip(alloc: Global, text: &str) -> Result<String> {
    let Some(ip) = Ip::read(text.as_bytes()) else {
        return none(alloc);
    };
    let mut out = Vec::new(alloc);
    ip.write(&mut out)?;
    written(alloc, &out)
}

fn prefix(alloc: Global, text: &str) -> Result<String> {
    let Some(prefix) = Prefix::read(text.as_bytes()) else {
        return none(alloc);
    };
    let mut out = Vec::new(alloc);
    prefix.write(&mut out)?;
    written(alloc, &out)
}

fn address(alloc: Global, text: &str) -> Result<String> {
    let Some((ip, len)) = read_interface_address(text.as_bytes()) else {
        return none(alloc);
    };
    let mut out = Vec::new(alloc);
    write_interface_address(&mut out, ip, len)?;
    written(alloc, &out)
}

fn host_bits(alloc: Global, text: &str) -> Result<String> {
    Ok(format!(in alloc; "{}", has_host_bits(text.as_bytes()))?)
}

fn covers(alloc: Global, text: &str) -> Result<String> {
    let (prefix, ip) = text.split_once(' ').context("a prefix and an address")?;
    let prefix = Prefix::read(prefix.as_bytes()).context("a prefix")?;
    let ip = Ip::read(ip.as_bytes()).context("an address")?;
    Ok(format!(in alloc; "{}", prefix.covers(ip))?)
}

fn mac(alloc: Global, text: &str) -> Result<String> {
    let Some(mac) = Mac::read(text.as_bytes()) else {
        return none(alloc);
    };
    let mut out = Vec::new(alloc);
    mac.write(&mut out)?;
    with_value(alloc, &out, &mac)
}

fn name(alloc: Global, text: &str) -> Result<String> {
    let Some(name) = IfName::read(text.as_bytes()) else {
        return none(alloc);
    };
    let mut out = Vec::new(alloc);
    name.write(&mut out)?;
    with_value(alloc, &out, &name)
}

fn lanes(alloc: Global, text: &str) -> Result<String> {
    let Some(lanes) = Lanes::read(alloc, text.as_bytes())? else {
        return none(alloc);
    };
    let mut out = Vec::new(alloc);
    lanes.copy()?.write(&mut out)?;
    with_value(alloc, &out, &lanes.first())
}

fn tagging(alloc: Global, text: &str) -> Result<String> {
    let Some(tagging) = Tagging::read(text.as_bytes()) else {
        return none(alloc);
    };
    let mut out = Vec::new(alloc);
    tagging.write(&mut out)?;
    with_value(alloc, &out, &tagging)
}

fn number(alloc: Global, text: &str) -> Result<String> {
    let (most, text) = text.split_once(' ').context("a number and a text")?;
    let most = most.parse::<u32>().context("a number")?;
    shown(alloc, &read_number(text.as_bytes(), most))
}

fn writes(alloc: Global, text: &str) -> Result<String> {
    let number = text.parse::<u64>().context("a number")?;
    let mut out = Vec::new(alloc);
    write_number(&mut out, number)?;
    written(alloc, &out)
}
