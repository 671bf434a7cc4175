// The rules for numbers as theorems: laws of all ints, and the edges case by case.
ghost use Rattle.values.specs.Cases.{CasesHold};
ghost use Rattle.values.specs.Laws.{LawsHold};

pub fn number_cases()
    ensures laws { LawsHold }
    ensures cases { CasesHold }
{}
