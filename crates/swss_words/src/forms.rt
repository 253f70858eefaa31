// The test of the words against the forms of a command, by hand.
ghost use Rattle.std.specs.Prelude.{◌≡◌, ◌∷◌, [], is_some, map};
ghost use Rattle.std.specs.String.{string_bytes};
ghost use Rattle.swss_words.specs.Words.{command, option_workers_of};

use crate::number::{read_seed, read_workers};
use swss_types::read_number;

/// How many routes a generated script has at most.
pub const MOST_ROUTES: u32 = 60_000;

/// Whether the words are a command.
pub fn is_command(words: &[String]) -> bool
    ensures { result ≡ is_some (command (map (λ w. string_bytes w) words.now)) }
{
    match words {
        [only] => is_one(only.as_str()),
        [verb, option] => is_two(verb.as_str(), option.as_str()),
        [verb, first, second] => is_three(verb.as_str(), first.as_str(), second.as_str()),
        _ => false,
    }
}

/// Whether one word is a command.
#[tactic(auto, using(crate::proofs::Tested::one))]
fn is_one(only: &str) -> bool
    ensures { result ≡ is_some (command (only.now ∷ [])) }
{
    only == "run" || only == "view"
}

/// Whether two words are a command.
#[tactic(auto, using(crate::proofs::Tested::two))]
fn is_two(verb: &str, option: &str) -> bool
    ensures { result ≡ is_some (command (verb.now ∷ option.now ∷ [])) }
{
    verb == "run" && is_workers_option(option)
}

/// Whether three words are a command.
#[tactic(auto, using(crate::proofs::Tested::three))]
fn is_three(verb: &str, first: &str, second: &str) -> bool
    ensures { result ≡ is_some (command (verb.now ∷ first.now ∷ second.now ∷ [])) }
{
    let runs = verb == "run" && first == "--workers" && read_workers(second.as_bytes()).is_some();
    let loads = verb == "load"
        && read_number(first.as_bytes(), MOST_ROUTES).is_some()
        && read_seed(second.as_bytes()).is_some();
    runs || loads
}

/// Whether a word is `--workers=` and a number of workers.
fn is_workers_option(word: &str) -> bool
    ensures { result ≡ is_some (option_workers_of word.now) }
{
    match word.as_bytes().strip_prefix(b"--workers=") {
        Some(number) => read_workers(number).is_some(),
        None => false,
    }
}
