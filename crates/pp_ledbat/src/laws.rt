//! Laws on the window.

ghost use Rattle.pp_ledbat.specs.Laws.{SamplesAreSigned, BaseIsLeast, WindowsAreBounded, FlightsAreFresh, TimeoutsSettle, CallsStand, CutsAcknowledgeAlike};
ghost use Rattle.pp_ledbat.specs.Examples.{WindowExamples};

/// What is so of every window, whatever its story (RFC 6817, section 2.4). It does nothing.
pub fn laws_of_windows()
    ensures samples { SamplesAreSigned }
    ensures base { BaseIsLeast }
    ensures bounds { WindowsAreBounded }
    ensures flights { FlightsAreFresh }
    ensures timeouts { TimeoutsSettle }
    ensures calls { CallsStand }
    ensures cuts { CutsAcknowledgeAlike }
{}

/// Windows in examples that were worked out elsewhere. It does nothing.
pub fn examples_of_windows()
    ensures { WindowExamples }
{}
