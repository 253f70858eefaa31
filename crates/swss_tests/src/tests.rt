// Each file tests one subject; refused memory is tried by `rt try --test --fail-alloc N`, which refuses the Nth allocation.
mod actors;
mod common;
mod copies;
mod fields;
mod images;
mod log;
mod names;
mod outside;
mod pending;
mod plans;
mod queue;
mod retry;
mod rounds;
mod rows;
mod service;
mod to_sync;
mod values;
