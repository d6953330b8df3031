//! Laws of command lines, each the contract of a function with an empty body.
ghost use Rattle.commands.specs.Laws.{MistakenWordsAskForNothing, PlainWordsAreTaken};
ghost use Rattle.commands.specs.Laws.{WhereTheNamesLieChangesNothing, WordsMakeOneRequest};
ghost use Rattle.commands.specs.Worked.{WorkedWords};

/// Words make at most one request.
pub fn words_make_one_request()
    ensures { WordsMakeOneRequest }
{}

/// Words with a mistake make no request.
pub fn mistaken_words_ask_for_nothing()
    ensures { MistakenWordsAskForNothing }
{}

/// Each command takes its words, if none of them is a flag and each is valid, and makes exactly the
/// request that they say.
pub fn plain_words_are_taken()
    ensures { PlainWordsAreTaken }
{}

/// Wherever the names of the hooks are in memory, the same words make the same request or have the
/// same mistakes.
pub fn where_the_names_lie_changes_nothing()
    ensures { WhereTheNamesLieChangesNothing }
{}

/// Worked command lines: the requests of some words, and the mistakes of others.
pub fn worked_words()
    ensures { WorkedWords }
{}
