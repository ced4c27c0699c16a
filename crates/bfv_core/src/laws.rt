ghost use Rattle.bfv_core.specs.Evaluations.{
  EvaluationsCarry,
  CarriedOpens,
  EvaluationsOpen,
  SlotsEvaluate,
  CarriesExist,
  CarriesAreSmall,
  CarriesLeaveRests,
};

/// What the evaluation of a polynomial at encrypted powers carries and opens to, under parameters that are allowed. It does nothing: the
/// clauses are what it is for.
pub fn evaluations_open()
    ensures carried { EvaluationsCarry }
    ensures carried_opens { CarriedOpens }
    ensures opened { EvaluationsOpen }
    ensures slots { SlotsEvaluate }
    ensures carries_exist { CarriesExist }
    ensures carries_are_small { CarriesAreSmall }
    ensures carries_leave_rests { CarriesLeaveRests }
{}
