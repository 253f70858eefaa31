// Standard input and output as the outside.
ghost use Rattle.std.specs.Prelude.{None};

use std::io::{Read, Write};
use swss_types::{Got, Sink, Source, Took};

/// A reader as a source, standard input in the program. What it has left is not told.
#[derive(Drop)]
pub struct StdinSource<I: Drop> {
    input: I,
    faults: u64,
}

impl<I: Read + Drop> StdinSource<I> {
    /// The source over a reader.
    pub fn new(input: I) -> StdinSource<I> {
        StdinSource { input, faults: 0 }
    }
}

impl<I: Read + Drop> Source for StdinSource<I> {
    ghost left = { λ _. None };

    ghost faults = { λ s. s.faults };

    fn read(&mut self, into: &mut [u8]) -> Got {
        match self.input.read(into) {
            Ok(0) => Got::End,
            Ok(count) => Got::Bytes(count),
            Err(_) => {
                self.faults = self.faults.saturating_add(1);
                Got::Failed
            }
        }
    }

    fn faults(&self) -> u64 {
        self.faults
    }
}

/// A writer as a sink, standard output in the program. What it holds is not told.
#[derive(Drop)]
pub struct StdoutSink<O: Drop> {
    output: O,
    faults: u64,
}

impl<O: Write + Drop> StdoutSink<O> {
    /// The sink over a writer.
    pub fn new(output: O) -> StdoutSink<O> {
        StdoutSink { output, faults: 0 }
    }
}

impl<O: Write + Drop> Sink for StdoutSink<O> {
    ghost holds = { λ _. None };

    ghost faults = { λ s. s.faults };

    fn write(&mut self, piece: &[u8]) -> Took {
        match self.output.write(piece) {
            Ok(count) if count > 0 => Took::Bytes(count),
            _ => {
                self.faults = self.faults.saturating_add(1);
                Took::Failed
            }
        }
    }

    fn faults(&self) -> u64 {
        self.faults
    }
}
