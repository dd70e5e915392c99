//! What is proved of the calls by themselves: theorems, each the contract of a function that does nothing.
ghost use Rattle.text.specs.Theorems.{ReadingIsDetermined, ReadingIsNumbered, WritingIsDetermined, WritingIsNumbered};

/// The contract of `write_text` leaves no choice: two answers that it allows for the same input are one, and so are the text buffers.
pub fn writing_is_determined()
    ensures { WritingIsDetermined }
{}

/// The answer of `write_text` has the number that the rules give to its outcome: 0, or that of its refusal.
pub fn writing_is_numbered()
    ensures { WritingIsNumbered }
{}

/// The contract of `read_text` leaves no choice: two answers that it allows for the same input are one, and so are all buffers.
pub fn reading_is_determined()
    ensures { ReadingIsDetermined }
{}

/// The answer of `read_text` has the number that the rules give to its outcome: 0, or that of its refusal.
pub fn reading_is_numbered()
    ensures { ReadingIsNumbered }
{}
