// A producer's pass, and sending over it.
ghost use Rattle.std.specs.Prelude.{◌≡◌, [], ◌<◌, ◌^◌, length, OnOk, IfErr};
ghost use Rattle.crossbeam_queue.specs.Passes.{view as known};
ghost use Rattle.intake_queue.specs.ReadWrites.{IsReadWrite};
ghost use Rattle.intake_queue.specs.Rule.{producer};
ghost use Rattle.intake_queue.specs.Values.{with_sent};

use crate::Intake;
use crate::rule::{Sends, Token};
use std::marker::Model;
use std::sync::Wait;
use table_schema::{Sent, Write};

/// A producer's pass. Contracts see whose it is, and what was sent over it.
#[derive(Drop)]
pub struct Pass {
    pub(crate) token: Token,
    from: u32,
    pub(crate) count: u64,
}

impl Model for Pass {
    ghost use Rattle.std.specs.Prelude.{◌≡◌, [], length};
    ghost use Rattle.crossbeam_queue.specs.Passes.{view as known};
    ghost use Rattle.intake_queue.specs.Values.{Sender};
    ghost use Rattle.intake_queue.specs.Rule.{producer};

    ghost Value = { Sender };

    ghost view = { λ p. record { queue = p.token.table_id; from = p.from; sent = (known p.token).sent } };

    ghost invariant = { λ p. (p.token.me.1 ≡ []) × (known p.token ≡ producer p.from (known p.token).sent) × (length (known p.token).sent ≡ p.count) };
}

/// A send found the queue full. It has the write that was to be sent.
#[derive(Drop)]
pub struct Full(pub Write);

impl Pass {
    /// The pass of a producer that has sent nothing.
    pub(crate) fn new(token: Token, from: u32) -> Pass
        requires token { (token.me.1 ≡ []) × (known token ≡ producer from []) }
        ensures { result ≡ record { queue = token.table_id; from = from; sent = [] } }
    {
        Pass {
            token,
            from,
            count: 0,
        }
    }

    /// Puts a write at the back of the queue, as this producer's next. Full where there is no place: the write comes back, and
    /// nothing has changed.
    pub fn send<R: Wait>(&mut self, rt: &R, intake: &Intake, write: Write) -> Result<(), Full>
        requires intake { self.old.queue ≡ intake.now.queue }
        requires few { length self.old.sent < 2 ^ 62 }
        requires read { IsReadWrite write }
        ensures same { (self.new.queue ≡ self.old.queue) × (self.new.from ≡ self.old.from) }
        ensures ok { OnOk result (self.new ≡ with_sent self.old write) }
        ensures full { IfErr result (λ full. (full.0 ≡ write) × (self.new ≡ self.old)) }
    {
        let sent = Sent {
            from: self.from,
            number: self.count,
            write,
        };
        match intake.queue.push_as::<Sends, R>(rt, &mut self.token, sent) {
            Ok(()) => {
                self.count += 1;
                Ok(())
            }
            Err(back) => Err(Full(back.write)),
        }
    }
}
