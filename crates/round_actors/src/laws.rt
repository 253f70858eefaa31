// What holds of the sections of scripts. The function is a law: it does nothing, and its contract is proved.
ghost use Rattle.std.specs.Prelude.{◌≡◌, ◌≤◌, ℕ, List, Ok, Some, length, slice_get};
ghost use Rattle.swss_script.specs.Script.{script_of};
ghost use Rattle.swss_script.specs.declared.parts.Round.{Round};
ghost use Rattle.swss_script.specs.declared.script.Script.{Script};
ghost use Rattle.round_actors.specs.Round.{AreSectionsOf};

/// The producers of an accepted script, at most 4, may make the sections of each of its rounds: each section is of one of them,
/// their acts are few, and their writes were read.
pub fn sections_of_scripts_can_run()
    ensures producers { (bytes : List ℕ) (script : Script) → script_of bytes ≡ Ok script → length script.producers ≤ 4 }
    ensures sections { (bytes : List ℕ) (script : Script) (at : ℕ) (round : Round) → script_of bytes ≡ Ok script → slice_get script.rounds at ≡ Some round → AreSectionsOf (length script.producers) round.sections }
{}
