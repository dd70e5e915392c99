//! What a caller in another language is given: the refusal's number is returned, and what is said goes as words to the front of a lent list.
#![tactic(auto)]

pub mod answers;
pub mod placing;
pub mod product_words;

ghost use Rattle.std.specs.Prelude.{◌≡◌};
ghost use Rattle.rules.specs.Numbers.{refusalIn};
ghost use Rattle.rules.specs.Refusals.{told};
ghost use Rattle.library_words.specs.Words.{answerWords};

use calls_defined::told::Told;
use records::inner::put;
use rules::Refusal;

/// The number of a check that says nothing else, 0 where it passes.
#[tactic(auto, unfolding(rules::specs::Numbers::refusalIn))]
pub fn number(c: Result<(), Refusal>) -> u32
    ensures { result ≡ refusalIn (told c) }
{
    match c {
        Ok(()) => 0,
        Err(why) => why.number(),
    }
}

/// What is said goes to the front of the answer, as far as it goes; the refusal's number is returned.
#[tactic(auto, unfolding(crate::specs::Words::answerWords))]
pub fn hand(t: Told, answer: &mut [u32]) -> u32
    ensures { (result ≡ t.refusal) × (answer.new ≡ answerWords t answer.old) }
{
    put(answer, 0, t.value);
    put(answer, 1, t.more);
    put(answer, 2, t.rounds);
    t.refusal
}
