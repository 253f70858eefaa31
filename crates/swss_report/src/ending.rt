// How a round ended.
ghost use Rattle.std.specs.Prelude.{◌≡◌, option_copied};
ghost use Rattle.swss_report.specs.Ending.{turns_at_end, turns_of, waits_at_end, waits_of};

use switch_model::{Mark, MarkEvent, Waits};

/// The keys that wait, where the mark of a settling ended the round; None where that of a fault did.
pub(crate) fn waits_at_end(marks: &[Mark]) -> Option<&Waits>
    ensures { option_copied result ≡ waits_at_end marks.now }
{
    waits_of(&marks.last()?.event)
}

/// The keys that wait at the end of a settling.
fn waits_of(event: &MarkEvent) -> Option<&Waits>
    ensures { option_copied result ≡ waits_of event.now }
{
    match event {
        MarkEvent::Settled { waits, .. } => Some(waits),
        _ => None,
    }
}

/// How many turns the settling made that ended the round; None where a fault did.
pub(crate) fn turns_at_end(marks: &[Mark]) -> Option<u64>
    ensures { result ≡ turns_at_end marks.now }
{
    turns_of(&marks.last()?.event)
}

/// How many turns a settling made.
fn turns_of(event: &MarkEvent) -> Option<u64>
    ensures { result ≡ turns_of event.now }
{
    match event {
        MarkEvent::Settled { turns, .. } => Some(*turns),
        _ => None,
    }
}
