// The rows that do not read, as the report lists them.
ghost use Rattle.std.specs.Prelude.{◌≡◌, [], ◌∷◌, ◌++◌, flat_map, length, IfOk, OnOk};
ghost use Rattle.swss_report.specs.Ignored.{bad_rows, field_name, ignored_line, ignored_text, ignored_why};

use crate::counted::write_count;
use crate::tables::write_key;
use row_store::Rows;
use std::alloc::Global;
use swss_types::OutOfMemory;
use table_schema::{BadRow, BadWhy, Fields, Key, PortPlan, read_row};

/// Appends how many rows do not read, and their lines in key order. An Err may leave a part of it.
pub(crate) fn write_ignored(
    alloc: Global,
    out: &mut Vec<u8>,
    plan: &PortPlan,
    rows: &Rows,
) -> Result<(), OutOfMemory>
    ensures { OnOk result (out.new.items ≡ out.old.items ++ ignored_text plan.now rows.now) }
{
    let mut lines = Vec::new(alloc);
    let count = write_bad_rows(alloc, &mut lines, plan, rows)?;
    write_count(out, b"ignored ", count)?;
    out.extend_from_slice(&lines)?;
    Ok(())
}

/// Appends the lines of the rows that do not read, in key order, and gives their number.
fn write_bad_rows(
    alloc: Global,
    out: &mut Vec<u8>,
    plan: &PortPlan,
    rows: &Rows,
) -> Result<u64, OutOfMemory>
    ensures lines { OnOk result (out.new.items ≡ out.old.items ++ flat_map ignored_line (bad_rows plan.now rows.now)) }
    ensures count { IfOk result (λ count. count ≡ length (bad_rows plan.now rows.now)) }
{
    // There are no more such rows than rows.
    let _most = rows.len();
    let mut count = 0u64;
    for (key, fields) in rows.iter() {
        count += write_if_bad(alloc, out, plan, key, fields)?;
    }
    Ok(count)
}

/// Appends the line of a row if it does not read, and gives the number of lines.
fn write_if_bad(
    alloc: Global,
    out: &mut Vec<u8>,
    plan: &PortPlan,
    key: &Key,
    fields: &Fields,
) -> Result<u64, OutOfMemory>
    ensures lines { OnOk result (out.new.items ≡ out.old.items ++ flat_map ignored_line (bad_rows plan.now ((key.now, fields.now) ∷ []))) }
    ensures count { IfOk result (λ count. count ≡ length (bad_rows plan.now ((key.now, fields.now) ∷ []))) }
{
    match read_row(alloc, plan, key, fields)? {
        Ok(_) => Ok(0),
        Err(broken) => {
            write_bad_row(alloc, out, key, broken)?;
            Ok(1)
        }
    }
}

/// Appends the line of a row that does not read: its key, what is wrong, and in which field.
fn write_bad_row(
    alloc: Global,
    out: &mut Vec<u8>,
    key: &Key,
    broken: BadRow,
) -> Result<(), OutOfMemory>
    ensures { OnOk result (out.new.items ≡ out.old.items ++ ignored_line (key.now, broken)) }
{
    write_key(alloc, out, key)?;
    out.push(b' ')?;
    out.extend_from_slice(why_text(broken.why))?;
    out.push(b' ')?;
    out.extend_from_slice(field_name(broken.field))?;
    out.push(b'\n')?;
    Ok(())
}

/// The word for what is wrong with a row.
fn why_text(why: BadWhy) -> &'static [u8]
    ensures { result.now ≡ ignored_why why }
{
    match why {
        BadWhy::Unsupported => b"unsupported",
        BadWhy::MissingField => b"missing",
        BadWhy::BadValue => b"bad-value",
        BadWhy::LanesDiffer => b"lanes-differ",
        BadWhy::CountsDiffer => b"counts-differ",
        BadWhy::HostBits => b"host-bits",
        BadWhy::TooManyHops => b"too-many-hops",
    }
}

/// The name of the field with this number, `key` for the key.
fn field_name(field: u8) -> &'static [u8]
    ensures { result.now ≡ field_name field }
{
    match field {
        0 => b"key",
        1 => b"lanes",
        2 => b"speed",
        3 => b"mtu",
        4 => b"admin_status",
        5 => b"tagging_mode",
        6 => b"neigh",
        7 => b"nexthop",
        8 => b"ifname",
        9 => b"blackhole",
        10 => b"nexthop_group",
        11 => b"mpls_nh",
        12 => b"vni_label",
        13 => b"router_mac",
        14 => b"segment",
        15 => b"weight",
        16 => b"vrf_name",
        _ => b"",
    }
}
