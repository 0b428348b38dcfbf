// What the last micro-step makes of the records is what the decision comes to. Each function does nothing: its contract is the
// law.

ghost use Rattle.kernel_records.specs.Concluding.{IsConcluded, HasOutcome};

/// What a decision comes to is just that in the records, whatever the lists are.
pub fn a_decision_is_concluded()
    ensures { IsConcluded }
{}

/// And its outcome is this.
pub fn a_decision_has_its_outcome()
    ensures { HasOutcome }
{}
