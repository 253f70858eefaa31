// The tables of the core: names, writes and reasons to wait.
mod keys;
mod names;
mod reasons;

pub use keys::time_keys;
pub use names::time_names;
pub use reasons::time_reasons;

/// The port with a number: ports whose numbers follow one another are far apart. The factor is odd, so each number has a port
/// of its own.
fn port(number: u32) -> u32 {
    number.wrapping_mul(2_654_435_761)
}
