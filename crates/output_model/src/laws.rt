// The definitions seen from the other side.
ghost use Rattle.output_model.specs.Laws.{SummariesAreDetermined};

/// There is one summary of a program, its samples and its functions.
pub fn summaries_are_determined()
    ensures { SummariesAreDetermined }
{}
