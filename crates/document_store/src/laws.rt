//! What follows for callers from what columns and positions are.
ghost use Rattle.document_store.specs.Laws.{ColumnIsFoundAgain, ColumnIsRounded, PositionIsFoundAgain, PositionIsRounded, PlaceStands};

/// The column of the position of a column that lies in the text is that column; another column is rounded. It does
/// nothing; its contract is the claim.
pub fn columns_are_found_again()
    ensures same { ColumnIsFoundAgain }
    ensures rounded { ColumnIsRounded }
{}

/// The position of the column of a position at the start of a character is that position; another position is rounded,
/// and the place where it lies stands. It does nothing; its contract is the claim.
pub fn positions_are_found_again()
    ensures same { PositionIsFoundAgain }
    ensures rounded { PositionIsRounded }
    ensures place { PlaceStands }
{}
