//! What syncd's applies come to: laws of definitions, with no code. By `orders` the plan that is made of two views is one of those that
//! are proved: its calls are legal, they lead to the new view, and while it is hitless each address moves at most once. By `ties` a view
//! each of whose objects is tied to one of the chip stays alike to it under calls that are made on both. By `syncs` each call of an apply
//! names what is tied by then, so each is legal on the chip, and in the end the chip is alike to the new view.
#![tactic(auto)]

mod orders;
mod syncs;
mod ties;

pub use orders::{
    applies_are_legal, applies_are_short, applies_lead_to_the_view, applies_show_old_or_new,
    hitless_applies_are_steady, hitless_applies_keep, modes_are_told, plans_are_of_the_views,
    views_are_laid_out,
};
pub use syncs::{
    begun_applies_are_ready, hitless_calls_are_steady, next_calls_are_legal, plans_are_in_time,
    ties_apply, ties_stand_for_the_chip,
};
pub use ties::{
    alike_views_are_tied, legal_calls_are_legal_on_views, nothing_is_tied, syncd_counts,
    tied_views_are_alike, tied_views_stand, ties_follow, ties_stay, views_count_as_chips,
};
