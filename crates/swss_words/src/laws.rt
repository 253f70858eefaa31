// The table of the words, command by command. The function does nothing; its contract is the law.
ghost use Rattle.std.specs.Prelude.{◌≡◌, List, Some};
ghost use Rattle.swss_words.specs.Laws.{IsProper, AreWordsOf};
ghost use Rattle.swss_words.specs.Words.{Text, command};
ghost use Rattle.swss_words.specs.declared.command.Command.{Command};

/// Each list of words of a command means it, and no other list does.
pub fn commands_are_written()
    ensures read { (c : Command) (words : List Text) → IsProper c → AreWordsOf c words → command words ≡ Some c }
    ensures only { (c : Command) (words : List Text) → command words ≡ Some c → IsProper c × AreWordsOf c words }
{}
