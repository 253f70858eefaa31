// What an accepted script is by its lines.
ghost use Rattle.std.specs.Prelude.{◌≡◌, ◌<◌, ◌≤◌, ◌∷◌, ◌++◌, ℕ, List, Ok, Some, false, length, slice_get, true};
ghost use Rattle.std.specs.List.{AllByRecursion, list_all};
ghost use Rattle.table_schema.specs.Rows.{Rows};
ghost use Rattle.table_schema.specs.SentBy.{sent_of};
ghost use Rattle.table_schema.specs.Writes.{HasField, HasReadKey};
ghost use Rattle.swss_script.specs.Generated.{drawn, next_state};
ghost use Rattle.swss_script.specs.Lines.{lines_in};
ghost use Rattle.swss_script.specs.Behind.{image_sent, rounds_behind};
ghost use Rattle.swss_script.specs.Plain.{has_batch};
ghost use Rattle.swss_script.specs.Script.{script_of};
ghost use Rattle.swss_script.specs.Sections.{producer_name, script_writes, sections_by, sections_of, text_writes, writes_of};
ghost use Rattle.swss_script.specs.Sent.{has_section, sent_by, sent_in_round};
ghost use Rattle.swss_script.specs.Stage.{AreOfProducers, IsOfStage};
ghost use Rattle.swss_script.specs.declared.parts.Round.{Round};
ghost use Rattle.swss_script.specs.declared.script.Script.{Script};
ghost use Rattle.swss_script.specs.declared.script.TheConstants.{MOST_LINES};

/// A script that is accepted has the writes of its lines, each in its round and by its producer, in order, and no others. So
/// what a producer writes in a round is what the lines of its sections in that round write.
pub fn script_has_the_writes_of_its_lines()
    ensures all { (bytes : List ℕ) (script : Script) → script_of bytes ≡ Ok script → script_writes script ≡ text_writes bytes }
    ensures each { (bytes : List ℕ) (script : Script) (round producer : ℕ) → script_of bytes ≡ Ok script → 0 < producer → producer ≤ length script.producers → sections_of script round producer ≡ writes_of round (producer_name script.producers producer) (text_writes bytes) }
{}

/// In a script that is accepted each failing call is named once, each row of the image has a key that was read and a field, each
/// section is of one of its producers, at most 4, and there is at least one round.
pub fn script_is_of_this_stage()
    ensures { (bytes : List ℕ) (script : Script) → script_of bytes ≡ Ok script → IsOfStage script }
{}

/// In a round each producer sends the writes of its sections in order, numbered from 0, and who sends has a section in it.
pub fn each_producer_sends_in_order()
    ensures order { (round : Round) (producer : ℕ) → sent_of producer (sent_in_round round) ≡ sent_by producer 0 (sections_by producer round.sections) }
    ensures senders { (round : Round) → list_all (λ s. has_section round.sections s.from) (sent_in_round round) ≡ true }
{}

/// Behind an image the first round of a script sends the rows of the image, by the sender 0, numbered from 0 in key order, and then
/// exactly what it sends without an image; and the later rounds stay.
pub fn image_is_sent_first()
    ensures { (image : Rows) (round : Round) (rounds : List Round) (count : ℕ) → AreOfProducers count round.sections → (opened : Round) × (rounds_behind image (round ∷ rounds) ≡ opened ∷ rounds) × (sent_in_round opened ≡ image_sent image ++ sent_in_round round) }
{}

/// A script that is accepted has at most `MOST_LINES` lines, and where none of them is a batch, each of its rounds has no more
/// writes than the script has lines.
pub fn plain_script_has_few_writes()
    ensures lines { (bytes : List ℕ) (script : Script) → script_of bytes ≡ Ok script → length (lines_in bytes) ≤ MOST_LINES }
    ensures writes { (bytes : List ℕ) (script : Script) (at : ℕ) (round : Round) → script_of bytes ≡ Ok script → has_batch bytes ≡ false → slice_get script.rounds at ≡ Some round → length (sent_in_round round) ≤ length (lines_in bytes) }
{}

/// In a script that is accepted each Set has a field.
pub fn each_set_has_a_field()
    ensures { (bytes : List ℕ) (script : Script) → script_of bytes ≡ Ok script → AllByRecursion (λ p. HasField p.write) (script_writes script) }
{}

/// In a script that is accepted the parts of each key are in their ranges: no prefix of a route has bits past its length, and
/// each address and each length is one of its family. The written form of each key reads as the key again.
pub fn each_key_was_read()
    ensures { (bytes : List ℕ) (script : Script) → script_of bytes ≡ Ok script → AllByRecursion (λ p. HasReadKey p.write) (script_writes script) }
{}

/// The first number that a script is made by, where the seed is 7.
pub fn seed_seven_gives_its_first_number()
    ensures { drawn (next_state 7) ≡ 1059165278 }
{}
