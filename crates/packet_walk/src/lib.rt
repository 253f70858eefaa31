//! Where many packets go at once: a table for each virtual router, built once from a chip's objects, and packets walked over it
//! by workers beside each other.
#![tactic(auto)]

mod fib;
mod router_table;
mod sends;
mod walking;

pub use fib::Fib;
pub use walking::walk;
