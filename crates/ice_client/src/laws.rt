//! What the definitions promise of each other, one law a function.

ghost use Rattle.ice_client.specs.Laws.{RepliesHaveOneAnswer, TalksHaveOneRow};

/// What went over a connection tells how the attempt ended: the rows of the table exclude each other.
pub fn one_row()
    ensures { TalksHaveOneRow }
{}

/// What went over a connection tells the answer that was read over it.
pub fn one_answer()
    ensures { RepliesHaveOneAnswer }
{}
