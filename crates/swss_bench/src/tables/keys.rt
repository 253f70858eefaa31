// Rows of ports that are written, popped and done.
use crate::tables::port;
use crate::timing::print_time;
use anyhow::{Context, Result};
use consumer_table::{Op, ToSync};
use producer_table::Waiting;
use std::alloc::Global;
use std::time::{Clock, Instant};
use swss_types::Text;
use table_schema::{Fields, Key};

/// How many keys are popped at a time.
const BATCH: u32 = 64;

/// Sets two fields of so many keys one after the other, pops the keys into the operations, and takes and ends each of these.
pub fn time_keys(rt: &(impl Print + Eprint + Clock), alloc: Global, number: u32) -> Result<()> {
    let mut waiting = Waiting::new(alloc);
    let mut to_sync = ToSync::new(alloc);
    time_each(rt, alloc, &mut waiting, &mut to_sync, number)
}

/// The steps, each over all keys.
fn time_each(
    rt: &(impl Print + Eprint + Clock),
    alloc: Global,
    waiting: &mut Waiting,
    to_sync: &mut ToSync,
    number: u32,
) -> Result<()> {
    let start = Instant::now(rt)?;
    set_each(alloc, waiting, number, b"mtu", b"9100")?;
    print_time(rt, start, number, "keys set")?;
    let start = Instant::now(rt)?;
    set_each(alloc, waiting, number, b"speed", b"100000")?;
    print_time(rt, start, number, "keys set again")?;
    let start = Instant::now(rt)?;
    pop_each(waiting, to_sync, number)?;
    print_time(rt, start, number, "keys popped")?;
    let popped = to_sync.len();
    let start = Instant::now(rt)?;
    let fields = end_each(to_sync)?;
    print_time(rt, start, number, "keys done")?;
    let left = to_sync.len();
    println!(rt; "{number} keys: {popped} to sync, {fields} fields, {left} left")?;
    Ok(())
}

/// Sets a field of each key.
fn set_each(
    alloc: Global,
    waiting: &mut Waiting,
    number: u32,
    name: &[u8],
    value: &[u8],
) -> Result<()> {
    for number in 0..number {
        waiting.set(Key::Port(port(number)), field(alloc, name, value)?)?;
    }
    Ok(())
}

/// A field alone.
fn field(alloc: Global, name: &[u8], value: &[u8]) -> Result<Fields> {
    let pair = (text(alloc, name)?, text(alloc, value)?);
    Ok(Fields::from_pairs(alloc, vec![in alloc; pair]?)?)
}

fn text(alloc: Global, bytes: &[u8]) -> Result<Text> {
    Text::new(alloc, bytes)?.context("a text")
}

/// Pops so many keys, and adds what waited of each to the operations.
fn pop_each(waiting: &mut Waiting, to_sync: &mut ToSync, number: u32) -> Result<()> {
    for _ in 0..number.div_ceil(BATCH) {
        for op in waiting.pop(u64::from(BATCH))? {
            to_sync.add(op)?;
        }
    }
    Ok(())
}

/// Looks at the operation of each key, and ends it. It tells how many fields they had.
fn end_each(to_sync: &mut ToSync) -> Result<usize> {
    let mut fields = 0usize;
    for key in to_sync.keys()? {
        fields = fields.saturating_add(count_fields(to_sync, &key));
        to_sync.done(&key);
    }
    Ok(fields)
}

/// How many fields the operation of a key has.
fn count_fields(to_sync: &ToSync, key: &Key) -> usize {
    match to_sync.op(key) {
        Some(Op::Set(fields) | Op::Replace(fields)) => fields.items().count(),
        Some(Op::Del) | None => 0,
    }
}
