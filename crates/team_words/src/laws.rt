ghost use Rattle.team_words.specs.Words.{WordsAreOneCommand};

/// Words are one command at most.
pub fn words_are_one_command()
    ensures { WordsAreOneCommand }
{}
