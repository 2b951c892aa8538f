// What holds of the members that the first bytes of a wire decide.
ghost use Rattle.wire_run.specs.Decided.{DecidedIsMost};

/// What the first bytes decide is what every wire that begins with them begins with, and nothing more is.
pub fn decided_law()
    ensures { DecidedIsMost }
{}
