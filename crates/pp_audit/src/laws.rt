//! Small runs, decided.

ghost use Rattle.pp_audit.specs.KeptTurns.{KeptTurns};

/// Runs that keep what is promised of dials and of silence.
pub fn kept_turns()
    ensures { KeptTurns }
{}
