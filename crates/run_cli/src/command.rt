// The commands that carry out recorded turns.
ghost use Rattle.std.specs.Prelude.{◌≡◌, map, IfSome, IsNone, string_bytes};
ghost use Rattle.run_cli.specs.Commands.{IsGenerateOf, IsNamedBy, IsNumber, NamesCommand, NamesGenerate};

/// What is to be done with a plan and its turns.
#[derive(Clone, Copy, Drop)]
pub enum Command {
    /// Each event is written as a line, and then each ask.
    Replay,
    /// Live progress is written, on a terminal of this width.
    Progress(u32),
}

// The greatest width, and the greatest number of tests that are generated.
const MOST_WIDE: u32 = 1_000;

const MOST_TESTS: u32 = 20_000;

// The number that a word says, from 1 to the greatest: digits without a `0` in front.
fn number_of(word: &str, greatest: u32) -> Option<u32>
    ensures some { IfSome result (IsNumber greatest word.now) }
    ensures none { IsNone result → (number : _) → ¬ IsNumber greatest word.now number }
{
    let (b'1'..=b'9') = *word.as_bytes().first()? else {
        return None;
    };
    match word.parse::<u32>() {
        Ok(number) if number <= greatest => Some(number),
        _ => None,
    }
}

/// How many tests the words say that are to be generated.
pub fn generated_tests(words: &[String]) -> Option<u32>
    ensures some { IfSome result (λ tests. IsGenerateOf tests (map (λ w. string_bytes w) words.now)) }
    ensures none { IsNone result → ¬ NamesGenerate (map (λ w. string_bytes w) words.now) }
{
    match words {
        [word, tests] if word.as_str() == "generate" => number_of(tests.as_str(), MOST_TESTS),
        _ => None,
    }
}

/// The command that words name, which is another than `live` and `generate`.
pub fn command_of(words: &[String]) -> Option<Command>
    ensures some { IfSome result (λ command. IsNamedBy command (map (λ w. string_bytes w) words.now)) }
    ensures none { IsNone result → ¬ NamesCommand (map (λ w. string_bytes w) words.now) }
{
    match words {
        [word] if word.as_str() == "replay" => Some(Command::Replay),
        [word, width] if word.as_str() == "progress" => {
            Some(Command::Progress(number_of(width.as_str(), MOST_WIDE)?))
        }
        _ => None,
    }
}
