// Which things are to stand for the rows of the tables.
ghost use Rattle.std.specs.Prelude.{◌≡◌, ◌↔◌, [], IfOk, OnOk, Some};
ghost use Rattle.std.specs.List.{list_all};
ghost use Rattle.std.specs.List.Sorted.{IsStrictlySortedBy};
ghost use Rattle.sai_types.specs.Alike.{IsIn};
ghost use Rattle.sai_types.specs.declared.thing.Thing.{Thing};
ghost use Rattle.sai_types.specs.Order.{thing_cmp};
ghost use Rattle.switch_model.specs.Desired.{desired_view};
ghost use Rattle.switch_model.specs.Good.{good_row, good_rows};
ghost use Rattle.switch_model.specs.Placed.{router_in};
ghost use Rattle.table_schema.specs.Rows.{HasRisingRows, fields_at};
ghost use Rattle.want_view.specs.Walk.{after_row, is_ready, walk};

use crate::things::put_things;
use row_store::Rows;
use sai_types::Thing;
use std::alloc::Global;
use std::collections::BTreeSet;
use swss_types::{OutOfMemory, Vrf};
use table_schema::{Fields, Key, PortPlan, Row, names, read_row};

/// The things that are to stand for the ready rows, each once, in their order. A row is ready where it reads and all that
/// it names is ready. It takes the time of one look-up for each row, each name and each thing, and one more for each address.
pub fn want(alloc: Global, plan: &PortPlan, rows: &Rows) -> Result<Vec<Thing>, OutOfMemory>
    ensures each { IfOk result (λ things. (t : Thing) → IsIn t things.items ↔ desired_view plan.now rows.now t) }
    ensures rising { IfOk result (λ things. IsStrictlySortedBy thing_cmp things.items) }
{
    let things = things_of_rows(alloc, plan, rows)?;
    list_of(alloc, things)
}

/// The things of the ready rows.
fn things_of_rows(
    alloc: Global,
    plan: &PortPlan,
    rows: &Rows,
) -> Result<BTreeSet<Thing>, OutOfMemory>
    ensures things { IfOk result (λ things. things.keys ≡ (walk plan.now (good_rows plan.now rows.now) rows.now ([], [])).1) }
    ensures rising { IfOk result (λ things. HasRisingRows rows.now) }
{
    let mut ready = BTreeSet::new(alloc);
    let mut things = BTreeSet::new(alloc);
    for (key, fields) in rows.iter() {
        add_row(alloc, plan, rows, &mut ready, &mut things, key, fields)?;
    }
    Ok(things)
}

/// Adds the things of a row, where it reads and all that it names is ready. Rows come in key order, so what a row names has
/// come before it.
fn add_row(
    alloc: Global,
    plan: &PortPlan,
    rows: &Rows,
    ready: &mut BTreeSet<Key>,
    things: &mut BTreeSet<Thing>,
    key: &Key,
    fields: &Fields,
) -> Result<(), OutOfMemory>
    ensures { OnOk result ((ready.new.keys, things.new.keys) ≡ after_row plan.now (router_in (good_rows plan.now rows.now) key.now) key.now (good_row plan.now key.now (Some fields.now)) (ready.old.keys, things.old.keys)) }
{
    let Ok(row) = read_row(alloc, plan, key, fields)? else {
        return Ok(());
    };
    let names = names(alloc, key, &row)?;
    if !are_ready(ready, &names) {
        return Ok(());
    }
    let vrf = router_of(alloc, plan, rows, key)?;
    put_things(alloc, plan, things, vrf, key, &row)?;
    ready.insert(key.copy()?)?;
    Ok(())
}

/// The virtual router of an address, which is that of its interface's row, and the default one where that does not read.
/// For every other key it is the default one.
fn router_of(alloc: Global, plan: &PortPlan, rows: &Rows, key: &Key) -> Result<Vrf, OutOfMemory>
    ensures { IfOk result (λ vrf. vrf ≡ router_in (good_rows plan.now rows.now) key.now) }
{
    let Key::Addr(on, ..) = key else {
        return Ok(Vrf::Default);
    };
    match good_row(alloc, plan, rows, &Key::Intf(*on))? {
        Some(Row::Intf(vrf)) => Ok(vrf),
        _ => Ok(Vrf::Default),
    }
}

/// The row of a key: None exactly where there is none that reads.
fn good_row(
    alloc: Global,
    plan: &PortPlan,
    rows: &Rows,
    key: &Key,
) -> Result<Option<Row>, OutOfMemory>
    ensures { IfOk result (λ row. row ≡ good_row plan.now key.now (fields_at rows.now key.now)) }
{
    match rows.get(key) {
        Some(fields) => Ok(read_row(alloc, plan, key, fields)?.ok()),
        None => Ok(None),
    }
}

/// Whether each of these keys is ready.
fn are_ready(ready: &BTreeSet<Key>, names: &[Key]) -> bool
    ensures { result ≡ list_all (is_ready ready.now.keys) names.now }
{
    for name in names {
        if !ready.contains(name) {
            return false;
        }
    }
    true
}

/// The things as a list, in their order.
fn list_of(alloc: Global, things: BTreeSet<Thing>) -> Result<Vec<Thing>, OutOfMemory>
    ensures { IfOk result (λ list. list.items ≡ things.keys) }
{
    let mut list = Vec::with_capacity(alloc, things.len())?;
    for thing in things {
        list.push(thing)?;
    }
    Ok(list)
}
