//! The law of verdicts. The function does nothing: what it ensures is the law.

ghost use Rattle.trace_check_core.specs.Verdicts.{LegalTracesGetAYes};

/// A file gets a yes exactly where it is a legal trace, and is told how many lines stand behind its
/// head.
pub fn legal_traces_get_a_yes()
    ensures { LegalTracesGetAYes }
{}
