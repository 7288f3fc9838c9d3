//! The laws of conversations. Each function does nothing: what it ensures is the law.

ghost use Rattle.sasl.specs.Laws.{EachLineHasOneAnswer, EachTextHasOneOutcome, NobodyIsLetInUnknown, PiecesAreOneText, RejectionsAreCounted};

/// In each state, each line has one answer.
pub fn each_line_has_one_answer()
    ensures { EachLineHasOneAnswer }
{}

/// Each text of a client has one outcome.
pub fn each_text_has_one_outcome()
    ensures { EachTextHasOneOutcome }
{}

/// However a text is cut into pieces, it is one conversation.
pub fn pieces_are_one_text()
    ensures { PiecesAreOneText }
{}

/// Rejections are counted, and the sixth closes.
pub fn rejections_are_counted()
    ensures { RejectionsAreCounted }
{}

/// Nobody is let in but who has shown the right digest or, where that is allowed, is anonymous; and
/// no byte before a line BEGIN is handed on.
pub fn nobody_is_let_in_unknown()
    ensures { NobodyIsLetInUnknown }
{}
