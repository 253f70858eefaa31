// Reading a source to its end.
ghost use Rattle.std.specs.Prelude.{◌≤◌, IfOk};
ghost use Rattle.swss_run.specs.Input.{GaveFew, IsInput};

use std::alloc::Global;
use swss_script::MOST_BYTES;
use swss_types::{Got, OutOfMemory, Source};

/// What reading a source came to.
#[derive(Debug, Drop)]
pub enum Input {
    /// All that the source gave before its end.
    Whole(Vec<u8>),
    /// One byte more than a script may have. The source was not read further.
    TooLong,
    /// The source failed.
    Failed,
}

/// Reads a source to its end, or until it gave one byte more than a script may have. It takes no more.
pub fn read_all<S: Source>(alloc: Global, source: &mut S) -> Result<Input, OutOfMemory>
    ensures input { IfOk result (λ input. IsInput (S.left source.old) (S.faults source.old) input (S.left source.new) (S.faults source.new)) }
    ensures few { GaveFew (S.left source.old) (S.left source.new) }
    ensures counts { S.faults source.old ≤ S.faults source.new }
{
    let mut bytes = Vec::new(alloc);
    let mut buffer = [0u8; 4096];
    while bytes.len() <= MOST_BYTES {
        let room = (MOST_BYTES + 1 - bytes.len()).min(4096);
        let piece = &mut buffer[..room];
        match source.read(piece) {
            Got::Bytes(count) => bytes.extend_from_slice(&piece[..count])?,
            Got::End => return Ok(Input::Whole(bytes)),
            Got::Failed => return Ok(Input::Failed),
        }
    }
    Ok(Input::TooLong)
}
