// What follows from the definitions of news.
ghost use Rattle.pp_news.specs.Laws.{AllAreTold, AllAreAcknowledged, NoneElse, OwnAreIn};

/// What was committed is told, and nothing else: in the ranges, and in the acknowledgements of a seat. It does nothing.
pub fn laws_of_news()
    ensures told { AllAreTold }
    ensures acknowledged { AllAreAcknowledged }
    ensures none_else { NoneElse }
    ensures own { OwnAreIn }
{}
