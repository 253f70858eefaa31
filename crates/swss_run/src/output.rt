// Writing a text to a sink.
ghost use Rattle.std.specs.Prelude.{◌≤◌};
ghost use Rattle.swss_run.specs.Output.{IsOutput};

use swss_types::{Sink, Took};

/// What writing a text came to.
#[derive(Clone, Copy, Debug, PartialEq, Eq)]
pub enum Output {
    /// The sink took all of it.
    Written,
    /// The sink failed.
    Failed,
    /// The sink found no memory.
    NoMemory,
}

/// Gives a sink the whole text, in as many pieces as it likes.
pub fn write_all<K: Sink>(sink: &mut K, text: &[u8]) -> Output
    ensures output { IsOutput (K.holds sink.old) (K.faults sink.old) result text.now (K.holds sink.new) (K.faults sink.new) }
    ensures counts { K.faults sink.old ≤ K.faults sink.new }
{
    let mut written = 0;
    while written < text.len() {
        match sink.write(&text[written..]) {
            Took::Bytes(count) => written += count,
            Took::Failed => return Output::Failed,
            Took::NoMemory => return Output::NoMemory,
        }
    }
    Output::Written
}
