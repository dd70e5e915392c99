//! Theorems on the calls: each is the contract of a function that does nothing.
ghost use Rattle.names.specs.Theorems.{CallsDetermined, CallsNumbered};
ghost use Rattle.names.specs.Theorems.{EnteringKept, NumbersKept, FrontEnough, NumbersAlike};

/// The contracts of the calls leave no choice: two results that one of them allows are the same.
pub fn calls_are_determined()
    ensures { CallsDetermined }
{}

/// Each call's refusal has the number that the rules give to its outcome, and an answer has 0.
pub fn calls_are_numbered()
    ensures { CallsNumbered }
{}

/// A name that is entered keeps its number; known and new are said of just the names that were held and that were not; a refusal changes nothing
/// (`Promises`).
pub fn entering_keeps_its_promises()
    ensures { EnteringKept }
{}

/// No name has two numbers, none is empty, and each is a part of the pool (`NumberPromises`).
pub fn numbers_keep_their_names()
    ensures { NumbersKept }
{}

/// What lies behind the first 8,192 bytes and the first 257 words is not read (`FrontDecides`).
pub fn the_front_decides()
    ensures { FrontEnough }
{}

/// Numbers stand for names: two are equal just where their names are, byte by byte, and in the order of bytes (`Alike`).
pub fn numbers_stand_for_names()
    ensures { NumbersAlike }
{}
