//! The law over all dealings with a graph, and that at most one answer is right.
ghost use Rattle.verdict.specs.Judging.{AnswersFit, OneAnswer, OneVerdict};
ghost use Rattle.verdict.specs.Law.{EveryRun, CallsCarryOn};

/// What holds of all dealings with a graph, whichever they are.
pub fn law_over_all_dealings()
    ensures exact_shown_and_lasting_in_every_run { EveryRun }
    ensures every_call_carries_every_run_on { CallsCarryOn }
{}

/// That a graph, a model and a sheet leave no choice of the answer.
pub fn one_right_verdict()
    ensures every_answer_fits_its_sheet { AnswersFit }
    ensures one_right_answer_at_most { OneAnswer }
    ensures one_result_and_one_sheet { OneVerdict }
{}
