// How a run ended.
ghost use Rattle.std.specs.Prelude.{◌≡◌, IfOk};
ghost use Rattle.swss_run.specs.Status.{refused_text, status_line, status_number, why_text};

use std::alloc::Global;
use swss_script::{Refused, Why};
use swss_types::{OutOfMemory, write_number};

/// How a run ended.
#[derive(Clone, Copy, Debug, PartialEq, Eq)]
pub enum Status {
    /// The whole report was written.
    Done,
    /// The words are no command.
    Usage,
    /// The script was refused. No chip call was made.
    ScriptRefused(Refused),
    /// The source failed.
    ReadFault,
    /// The sink failed. What it took is a prefix of the report.
    WriteFault,
    /// The chip failed, and the last settling ended with it.
    ChipFault,
    /// The log was full.
    LogFull,
    /// Memory was refused.
    OutOfMemory,
}

impl Status {
    /// The exit status of the program: 0 to 7.
    pub fn number(&self) -> u8
        ensures { result ≡ status_number self.now }
    {
        match self {
            Status::Done => 0,
            Status::Usage => 1,
            Status::ScriptRefused(_) => 2,
            Status::ReadFault => 3,
            Status::WriteFault => 4,
            Status::ChipFault => 5,
            Status::LogFull => 6,
            Status::OutOfMemory => 7,
        }
    }

    /// The line for standard error, without its end: empty where all went well.
    pub fn line(&self, alloc: Global) -> Result<Vec<u8>, OutOfMemory>
        ensures { IfOk result (λ line. line.items ≡ status_line self.now) }
    {
        let words: &[u8] = match self {
            Status::ScriptRefused(refused) => return refused_line(alloc, refused),
            Status::Done => b"",
            Status::Usage => b"usage: swss run [--workers N] | swss view | swss load N SEED",
            Status::ReadFault => b"read fault",
            Status::WriteFault => b"write fault",
            Status::ChipFault => b"chip fault",
            Status::LogFull => b"log full",
            Status::OutOfMemory => b"out of memory",
        };
        Ok(Vec::from_slice(alloc, words)?)
    }
}

/// The line of a refused script.
fn refused_line(alloc: Global, refused: &Refused) -> Result<Vec<u8>, OutOfMemory>
    ensures { IfOk result (λ line. line.items ≡ refused_text refused.now) }
{
    let mut line = Vec::from_slice(alloc, b"script refused: line ")?;
    write_number(&mut line, refused.line)?;
    line.extend_from_slice(b": ")?;
    line.extend_from_slice(why_text(refused.why))?;
    Ok(line)
}

/// The text of a reason.
fn why_text(why: Why) -> &'static [u8]
    ensures { result.now ≡ why_text why }
{
    match why {
        Why::TooLong => b"too-long",
        Why::TooManyLines => b"too-many-lines",
        Why::LineTooLong => b"line-too-long",
        Why::NotUtf8 => b"not-utf8",
        Why::BadHead => b"bad-head",
        Why::HeadTwice => b"head-twice",
        Why::BadPlan(_) => b"bad-plan",
        Why::BadImage(_) => b"bad-image",
        Why::TooManyProducers => b"too-many-producers",
        Why::BadJson => b"bad-json",
        Why::BadWord => b"bad-word",
    }
}
