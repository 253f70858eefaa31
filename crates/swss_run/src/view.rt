// The view: what is to stand for the rows that a script writes.
ghost use Rattle.std.specs.Prelude.{◌≡◌, ◌∷◌, [], false, IfOk, None, OnOk};
ghost use Rattle.std.specs.List.{fold};
ghost use Rattle.swss_types.specs.Outside.{HasRisen};
ghost use Rattle.table_schema.specs.Rows.{after_writes};
ghost use Rattle.switch_model.specs.History.{no_history};
ghost use Rattle.swss_script.specs.Sections.{acts_of};
ghost use Rattle.swss_run.specs.Input.{GaveFew};
ghost use Rattle.swss_run.specs.Run.{SaysOfSource, ends_early};
ghost use Rattle.swss_run.specs.View.{IsViewText, IsViewed, TellsOfView};

use crate::output::{Output, write_all};
use crate::reading::read_input;
use crate::{Outcome, Status};
use row_store::Rows;
use std::alloc::Global;
use std::mem::drop;
use swss_report::view_lines;
use swss_script::{Act, Round, Script, Section};
use swss_types::{OutOfMemory, Sink, Source};
use want_view::want;

/// Writes the view of the script that the source gives. It makes no chip.
pub(crate) fn view_source<S: Source, K: Sink>(
    alloc: Global,
    source: &mut S,
    sink: &mut K,
) -> Outcome
    ensures ran { result.status ≡ Status.Usage → ⊥ }
    ensures refusal { SaysOfSource result.status (S.left source.old) (S.left source.new) }
    ensures few { GaveFew (S.left source.old) (S.left source.new) }
    ensures read_fault { result.status ≡ Status.ReadFault → HasRisen (S.faults source.old) (S.faults source.new) }
    ensures write_fault { result.status ≡ Status.WriteFault → HasRisen (K.faults sink.old) (K.faults sink.new) }
    ensures log { result.log ≡ no_history }
    ensures chip { result.chip ≡ None }
    ensures view { TellsOfView result.status (S.left source.old) (S.left source.new) (K.holds sink.old) (K.holds sink.new) }
{
    match read_input(alloc, source) {
        Ok(script) => Outcome::without_session(alloc, view_script(alloc, script, sink)),
        Err(status) => Outcome::without_session(alloc, status),
    }
}

/// Writes the view of a script.
fn view_script<K: Sink>(alloc: Global, script: Script, sink: &mut K) -> Status
    ensures ran { ends_early result ≡ false }
    ensures write_fault { result ≡ Status.WriteFault → HasRisen (K.faults sink.old) (K.faults sink.new) }
    ensures viewed { IsViewed result script (K.holds sink.old) (K.holds sink.new) }
{
    let mut script = script;
    let status = write_view(alloc, &mut script, sink);
    drop(script);
    status
}

/// The same. The rows of the script's image become those that its writes leave.
fn write_view<K: Sink>(alloc: Global, script: &mut Script, sink: &mut K) -> Status
    ensures ran { ends_early result ≡ false }
    ensures write_fault { result ≡ Status.WriteFault → HasRisen (K.faults sink.old) (K.faults sink.new) }
    ensures viewed { IsViewed result script.old (K.holds sink.old) (K.holds sink.new) }
{
    match lines_of_view(alloc, script) {
        Ok(lines) => match write_all(sink, &lines) {
            Output::Written => Status::Done,
            Output::Failed => Status::WriteFault,
            Output::NoMemory => Status::OutOfMemory,
        },
        Err(OutOfMemory) => Status::OutOfMemory,
    }
}

/// The lines of the view of a script.
fn lines_of_view(alloc: Global, script: &mut Script) -> Result<Vec<u8>, OutOfMemory>
    ensures { IfOk result (λ lines. IsViewText script.old lines.items) }
{
    apply_rounds(&mut script.image, script.rounds.items())?;
    let things = want(alloc, &script.plan, &script.image)?;
    let lines = view_lines(alloc, &script.plan, &things)?;
    Ok(lines)
}

/// Applies the writes of rounds to rows, in order.
fn apply_rounds(rows: &mut Rows, rounds: &[Round]) -> Result<(), OutOfMemory>
    ensures { OnOk result (rows.new ≡ fold (λ rows round. fold (λ rows section. after_writes rows (acts_of section.acts)) rows round.sections) rows.old rounds.now) }
{
    for round in rounds {
        apply_sections(rows, round.sections.items())?;
    }
    Ok(())
}

/// Applies the writes of sections to rows, in order.
fn apply_sections(rows: &mut Rows, sections: &[Section]) -> Result<(), OutOfMemory>
    ensures { OnOk result (rows.new ≡ fold (λ rows section. after_writes rows (acts_of section.acts)) rows.old sections.now) }
{
    for section in sections {
        apply_acts(rows, section.acts.items())?;
    }
    Ok(())
}

/// Applies the writes among acts to rows, in order.
fn apply_acts(rows: &mut Rows, acts: &[Act]) -> Result<(), OutOfMemory>
    ensures { OnOk result (rows.new ≡ after_writes rows.old (acts_of acts.now)) }
{
    for act in acts {
        apply_act(rows, act)?;
    }
    Ok(())
}

/// Applies an act to rows, if it is a write.
fn apply_act(rows: &mut Rows, act: &Act) -> Result<(), OutOfMemory>
    ensures { OnOk result (rows.new ≡ after_writes rows.old (acts_of (act.now ∷ []))) }
{
    match act {
        Act::Write(write) => rows.apply(write),
        Act::Restart => Ok(()),
    }
}
