//! Laws over scripts, which the clauses state. The calls do nothing.
ghost use Rattle.host_script.specs.Laws.{AcceptedIsSmall, AcceptedIsWorded, IsRefusedOrAccepted};
ghost use Rattle.host_script.specs.Laws.{EachFirstWordIsRead, HasOneRefusal, HasOneScript};
ghost use Rattle.host_script.specs.Spelling.{TextsAreSpelled};

/// Bytes are accepted or refused, and never both.
pub fn refused_or_accepted()
    ensures { IsRefusedOrAccepted }
{}

/// Accepted bytes say one script.
pub fn one_script()
    ensures { HasOneScript }
{}

/// Refused bytes are so at one line, for one cause.
pub fn one_refusal()
    ensures { HasOneRefusal }
{}

/// An accepted script has a thread, and no more threads, commands and images than a script may have.
pub fn accepted_is_small()
    ensures { AcceptedIsSmall }
{}

/// Each command of an accepted script has names that are names, texts of UTF-16 units, and images
/// that the script declares.
pub fn accepted_is_worded()
    ensures { AcceptedIsWorded }
{}

/// A word is read as a text just where it is spelled as one.
pub fn texts_are_spelled()
    ensures { TextsAreSpelled }
{}

/// Each word with which a line can begin is read where it is spelled.
pub fn first_words_are_read()
    ensures { EachFirstWordIsRead }
{}
