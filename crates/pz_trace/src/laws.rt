//! Laws of traces. Each is what a function without a body ensures.

ghost use Rattle.pz_trace.specs.FiringLaws.{FiringsEndTheBlock, LineIsTheRules};
ghost use Rattle.pz_trace.specs.Laws.{StagesEndTheStep};

/// The last stage of a step is the step itself, and the stages stop exactly if the step does.
pub fn stages_end_the_step()
    ensures { StagesEndTheStep }
{}

/// The last firing of a block leaves the level that the block leaves, there is one exactly if the block changes something, and the firings
/// stop exactly if the block does.
pub fn firings_end_the_block()
    ensures { FiringsEndTheBlock }
{}

/// The line that is told of an instance is the line of its rule.
pub fn line_is_the_rules()
    ensures { LineIsTheRules }
{}
