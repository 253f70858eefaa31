// Reading the script.
ghost use Rattle.swss_run.specs.Input.{GaveFew};
ghost use Rattle.swss_run.specs.Read.{IsScriptRead};

use crate::input::{Input, read_all};
use crate::{Refused, Status, Why};
use std::alloc::Global;
use swss_script::Script;
use swss_types::{OutOfMemory, Source};

/// The script that the source gives, or the status that ends the run.
pub(crate) fn read_input<S: Source>(alloc: Global, source: &mut S) -> Result<Script, Status>
    ensures read { IsScriptRead (S.left source.old) (S.faults source.old) result (S.left source.new) (S.faults source.new) }
    ensures few { GaveFew (S.left source.old) (S.left source.new) }
{
    match read_all(alloc, source) {
        Ok(Input::Whole(bytes)) => match Script::read(alloc, &bytes) {
            Ok(Ok(script)) => Ok(script),
            Ok(Err(refused)) => Err(Status::ScriptRefused(refused)),
            Err(OutOfMemory) => Err(Status::OutOfMemory),
        },
        Ok(Input::TooLong) => Err(Status::ScriptRefused(Refused {
            line: 0,
            why: Why::TooLong,
        })),
        Ok(Input::Failed) => Err(Status::ReadFault),
        Err(OutOfMemory) => Err(Status::OutOfMemory),
    }
}
