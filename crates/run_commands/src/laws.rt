// What holds of every environment text and of every command.
ghost use Rattle.run_commands.specs.CommandWords.{AreCommandWords};
ghost use Rattle.run_commands.specs.EnvGiven.{IsGivenOneWay};
ghost use Rattle.run_commands.specs.EnvText.{HasNoBadLine};
ghost use Rattle.run_commands.specs.Words.{HasOneReading};

/// An environment text is never both read and refused for a line.
pub fn an_env_text_has_no_bad_line()
    ensures { HasNoBadLine }
{}

/// The environment that a file's bytes give is what they say, and the error why they are refused.
pub fn an_environment_is_given_one_way()
    ensures { IsGivenOneWay }
{}

/// A text has one list of words at most.
pub fn a_text_has_one_reading()
    ensures { HasOneReading }
{}

/// The words of a command are those that the grammar gives it.
pub fn a_command_has_its_words()
    ensures { AreCommandWords }
{}
