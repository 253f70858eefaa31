// What holds of recordings. Each function is a law: it does nothing, and its contract is proved.
ghost use Rattle.std.specs.Prelude.{◌≡◌, List, [], Ok, Result, ℕ};
ghost use Rattle.sai_types.specs.After.{after_calls};
ghost use Rattle.sai_types.specs.ChipState.{ChipState};
ghost use Rattle.sai_types.specs.Made.{AreLegal};
ghost use Rattle.sai_types.specs.Named.{named};
ghost use Rattle.sai_types.specs.declared.ids.Rid.{Rid};
ghost use Rattle.sai_types.specs.declared.body.Call.{Call};
ghost use Rattle.sai_record.specs.Build.{Built, build};
ghost use Rattle.sai_record.specs.Line.{recording_text};
ghost use Rattle.sai_record.specs.Ranges.{IsRecording};
ghost use Rattle.sai_record.specs.Reading.{IsReadAs};
ghost use Rattle.sai_record.specs.Replayed.{IsReplayed};
ghost use Rattle.sai_record.specs.Session.{recording_of};
ghost use Rattle.sai_record.specs.declared.reading.BadRecord.{BadRecord};
ghost use Rattle.sai_record.specs.declared.recording.Recording.{Recording};
ghost use Rattle.sai_record.specs.declared.replaying.Replayed.{Replayed};
ghost use Rattle.sai_record.specs.declared.replaying.Replayed.TheVariants as replayed;

/// What is written reads as it was, and what is read is written as it was, byte for byte. A text has one reading: no two
/// recordings have one text, and a text that is no recording has one first line that is not in the grammar.
pub fn reads_what_is_written()
    ensures read { (r : Recording) (answer : Result Recording BadRecord) → IsRecording r → IsReadAs (recording_text r) answer → answer ≡ Ok r }
    ensures written { (text : List ℕ) (r : Recording) → IsReadAs text (Ok r) → recording_text r ≡ text }
    ensures one { (text : List ℕ) (answer other : Result Recording BadRecord) → IsReadAs text answer → IsReadAs text other → answer ≡ other }
{}

/// The recording of calls that were legal one after another, from a chip without objects, builds the objects that they left:
/// the very same where the chip had made no identifier before. Replayed on a chip without objects and of the same
/// capacities that does not fail, it is done, and the named things are those that the calls left.
pub fn session_is_built_again()
    ensures built { (capacities : List ℕ) (effects : List (Call Rid)) → AreLegal capacities 0 [] effects → (b : Built) × (build capacities (recording_of effects) ≡ Ok b) × (b.objects ≡ after_calls 0 [] effects) }
    ensures replayed { (effects : List (Call Rid)) (old new : ChipState) (answer : Replayed) → AreLegal old.capacities 0 [] effects → IsReplayed old (recording_of effects) answer new → new.faults ≡ old.faults → (answer ≡ replayed.Done) × (named new.objects ≡ named (after_calls 0 [] effects)) }
{}
