//! SONiC's application tables: keys, fields, writes, rows and the port plan (SWSS schema).
#![tactic(auto)]

mod broken;
mod few;
pub mod field;
mod fields;
mod held;
mod held_hops;
mod items;
mod key;
mod key_text;
mod laws;
mod many;
mod naming;
mod own_fields;
mod plan;
mod route_rules;
mod row;
mod row_hop;
mod row_hops;
mod rules;
mod split;
mod table;
mod write;

pub use fields::Fields;
pub use items::Items;
pub use key::Key;
pub use key_text::{has_colon, read_key};
pub use laws::{
    hops_collapse, keys_are_ordered, keys_read_back, last_values_stay, names_are_proper,
    plans_are_plans, row_hops_are_ordered, rows_are_a_fold,
};
pub use naming::{first_name, names};
pub use plan::{MOST_PORTS, PlanWhy, PortPlan};
pub use route_rules::MOST_HOPS;
pub use row::{BadRow, BadWhy, PortRow, RouteRow, Row};
pub use row_hop::RowHop;
pub use row_hops::RowHops;
pub use rules::read_row;
pub use write::{Sent, Write};
