// What holds of the messages that the first bytes of a wire decide, and of the places of faults.
ghost use Rattle.std.specs.Prelude.{◌≡◌, ◌+◌, ◌≤◌, ℕ, List, length, Err};
ghost use Rattle.agency_wires.specs.declared.fault.What.{What};
ghost use Rattle.agency_wires.specs.declared.fault.WireFault.TheVariants as fault;
ghost use Rattle.agency_wires.specs.Reading.{told};
ghost use Rattle.agency_runs.specs.Decided.{DecidedIsMost};

/// What the first bytes decide is what every wire that begins with them begins with, and nothing more is.
pub fn decided_law()
    ensures { DecidedIsMost }
{}

/// The place of a fault lies within its message, at the byte that ends it, or one further.
pub fn place_law()
    ensures { (day : ℕ) (bytes : List ℕ) (within : ℕ) (what : What) → told day bytes ≡ Err (fault.Fault within what) → within ≤ length bytes + 1 }
{}
