//! The laws of scripts of which every call was answered, each the contract of a function that does nothing.

ghost use Rattle.load_served.specs.Complete.{AnswersAreHistories, AnswersAreSeen, AnswersPrintAlike, LoadsHaveGuests};

use load_calls::loads_end_alike;

/// What is so of scripts of which every call was made and told its reply.
pub fn answers_are_histories()
    ensures history { AnswersAreHistories }
    ensures seen { AnswersAreSeen }
    ensures guests { LoadsHaveGuests }
    ensures prints { AnswersPrintAlike }
{
    loads_end_alike();
}
