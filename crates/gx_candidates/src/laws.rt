//! What makes an index safe to ask.

ghost use Rattle.gx_candidates.specs.Laws.{CandidatesSee, QuestionsAreAsked, QuestionsAreValid, ScalarQuestionsAreValid};

/// A value of which the operator holds is a candidate of each index that answers the question: an index loses no row.
pub fn candidates_see()
    ensures { CandidatesSee }
{
    gx_opr::decided();
    gx_value::rows_are_valid();
}

/// The right side of a question that an index answers is a valid one, and for classes of scalars one of their type.
pub fn questions_are_valid()
    ensures right { QuestionsAreValid }
    ensures scalar { ScalarQuestionsAreValid }
{
    gx_opr::decided();
    gx_value::rows_are_valid();
}

/// An index that answers a question is asked it: the class has a query for the operator with its right side.
pub fn questions_are_asked()
    ensures { QuestionsAreAsked }
{}
