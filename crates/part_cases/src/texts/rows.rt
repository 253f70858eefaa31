// Fields, rows and plans.
use crate::words::{key, text};
use anyhow::{Context, Result, bail};
use std::alloc::Global;
use std::str;
use swss_types::Text;
use table_schema::{BadRow, Fields, Key, PortPlan, PortRow, Row, names, read_row};

/// What a text of one of these kinds comes to.
pub fn find(alloc: Global, kind: &str, text: &str) -> Result<String> {
    match kind {
        "fields" => shown_fields(alloc, text),
        "row" => shown_row(alloc, text),
        "names" => count_names(alloc, text),
        "plan" => plan(alloc, text),
        "port" => port(alloc, text),
        _ => bail!("a kind"),
    }
}

/// The pairs of words, each a name, an equals sign and a value.
fn fields(alloc: Global, words: &str) -> Result<Fields> {
    let mut pairs = Vec::new(alloc);
    for word in words.split_whitespace() {
        let (name, value) = word.split_once('=').context("a field")?;
        pairs.push((text(alloc, name)?, text(alloc, value)?))?;
    }
    Ok(Fields::from_pairs(alloc, pairs)?)
}

fn shown_fields(alloc: Global, words: &str) -> Result<String> {
    let mut out = Vec::new(alloc);
    for (name, value) in fields(alloc, words)?.items() {
        if !out.is_empty() {
            out.push(b' ')?;
        }
        out.extend_from_slice(name.bytes())?;
        out.push(b'=')?;
        out.extend_from_slice(value.bytes())?;
    }
    Ok(String::from_str(alloc, str::from_utf8(&out)?)?)
}

/// The plan of the ports Ethernet0 and Ethernet4.
fn usual_plan(alloc: Global) -> Result<PortPlan> {
    let mut plan = PortPlan::new(alloc)?;
    for line in ["Ethernet0 0,1,2,3", "Ethernet4 5,4"] {
        if plan.put(line.as_bytes())?.is_err() {
            bail!("a port");
        }
    }
    Ok(plan)
}

/// A key, and its row.
fn read(alloc: Global, text: &str) -> Result<(Key, Result<Row, BadRow>)> {
    let (name, words) = text.split_once(' ').context("a key and fields")?;
    let key = key(alloc, name)?;
    let row = read_row(alloc, &usual_plan(alloc)?, &key, &fields(alloc, words)?)?;
    Ok((key, row))
}

fn shown_row(alloc: Global, text: &str) -> Result<String> {
    let mut out = Vec::new(alloc);
    let (key, row) = read(alloc, text)?;
    show_row(alloc, &mut out, &key, &row)?;
    Ok(String::from_str(alloc, str::from_utf8(&out)?)?)
}

/// A key, what its row reads as, and where this is a row the keys that it names.
fn show_row(alloc: Global, out: &mut Vec<u8>, key: &Key, row: &Result<Row, BadRow>) -> Result<()> {
    key.write(out)?;
    match row {
        Ok(Row::Port(port)) => show_port(alloc, out, port)?,
        row => out.extend_from_slice(format!(in alloc; " {row:?}")?.as_bytes())?,
    }
    if let Ok(row) = row {
        show_names(alloc, out, key, row)?;
    }
    Ok(())
}

/// The keys that a row names.
fn show_names(alloc: Global, out: &mut Vec<u8>, key: &Key, row: &Row) -> Result<()> {
    for name in names(alloc, key, row)?.iter() {
        out.push(b' ')?;
        name.write(out)?;
    }
    Ok(())
}

/// The row of a port, its lanes as they are written.
fn show_port(alloc: Global, out: &mut Vec<u8>, port: &PortRow) -> Result<()> {
    out.extend_from_slice(b" port ")?;
    port.lanes.write(out)?;
    let (speed, mtu, up) = (port.speed, port.mtu, port.up);
    out.extend_from_slice(format!(in alloc; " speed {speed} mtu {mtu} up {up}")?.as_bytes())?;
    Ok(())
}

fn count_names(alloc: Global, text: &str) -> Result<String> {
    let (key, row) = read(alloc, text)?;
    let count = match row {
        Ok(row) => names(alloc, &key, &row)?.len(),
        Err(_) => 0,
    };
    Ok(format!(in alloc; "{count}")?)
}

/// The texts of lines.
fn lines(alloc: Global, plan: &str) -> Result<Vec<Text>> {
    let mut lines = Vec::new(alloc);
    for line in plan.split(';') {
        lines.push(text(alloc, line)?)?;
    }
    Ok(lines)
}

fn plan(alloc: Global, text: &str) -> Result<String> {
    let count = PortPlan::read(alloc, &lines(alloc, text)?)?.map(|plan| plan.len());
    Ok(format!(in alloc; "{count:?}")?)
}

fn port(alloc: Global, text: &str) -> Result<String> {
    let (lane, text) = text.split_once(' ').context("a lane and lines")?;
    let lane = lane.parse::<u16>().context("a lane")?;
    let port = match PortPlan::read(alloc, &lines(alloc, text)?)? {
        Ok(plan) => plan.name_of(lane),
        Err(_) => bail!("a plan"),
    };
    Ok(format!(in alloc; "{port:?}")?)
}
