// The outside: where a script comes from, where a report goes, and who may hold an actor back.
ghost use Rattle.std.specs.Prelude.{◌≡◌, ◌<◌, ◌≤◌, List, ℕ, Option, length};
ghost use Rattle.swss_types.specs.Outside.{Reads, Writes};

/// What a read of a source gave.
#[derive(Clone, Copy, Debug, PartialEq, Eq)]
pub enum Got {
    /// So many bytes, at least one.
    Bytes(usize),
    /// Nothing is left.
    End,
    /// The source failed.
    Failed,
}

/// How much of a piece a sink took.
#[derive(Clone, Copy, Debug, PartialEq, Eq)]
pub enum Took {
    /// So many of the piece's first bytes, at least one.
    Bytes(usize),
    /// The sink failed.
    Failed,
    /// The sink found no memory.
    NoMemory,
}

/// Where bytes come from, in pieces of any length.
pub trait Source {
    /// The bytes that are left, where the source tells them.
    ghost left: { Self → Option (List ℕ) };

    /// How often the source has failed; the count stays at 2^64 - 1.
    ghost faults: { Self → ℕ };

    /// Fills the front of `into` with the first of the bytes that are left, as many as it likes. End comes only where
    /// nothing is left. Failed comes only where the count of faults rose, which else stays; what is left is then as
    /// before.
    fn read(&mut self, into: &mut [u8]) -> Got
        requires { 0 < length into.old }
        ensures gives { Reads (left self.old) (faults self.old) result into.new (left self.new) (faults self.new) }
        ensures counts { faults self.old ≤ faults self.new };

    /// The count of faults.
    fn faults(&self) -> u64
        ensures { result ≡ faults self.now };
}

/// Where bytes go, in pieces of any length.
pub trait Sink {
    /// The bytes that the sink holds, where it tells them.
    ghost holds: { Self → Option (List ℕ) };

    /// How often the sink has failed; the count stays at 2^64 - 1.
    ghost faults: { Self → ℕ };

    /// Takes first bytes of the piece, as many as it likes. Failed comes only where the count of faults rose, which else
    /// stays; after it and after NoMemory the sink holds what it held.
    fn write(&mut self, piece: &[u8]) -> Took
        requires { 0 < length piece.now }
        ensures takes { Writes (holds self.old) (faults self.old) result piece.now (holds self.new) (faults self.new) }
        ensures counts { faults self.old ≤ faults self.new };

    /// The count of faults.
    fn faults(&self) -> u64
        ensures { result ≡ faults self.now };
}

/// Who may hold an actor back between its steps. It promises nothing: a gate that returns at once is one.
pub trait Gate {
    /// Called by an actor after each of its steps, which are numbered from 0.
    fn pause(&self, actor: u32, step: u64);
}
