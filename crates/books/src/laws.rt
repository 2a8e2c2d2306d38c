// The laws of gross prices and rulings, each the contract of a function that answers nothing else.
ghost use Rattle.books.specs.Laws.{GrossIsNetAndRowsUnder, ClearRulingAnswersAsBelow, BarAndLiftDecide, LiftUndoesBar, MarksStandApart, EqualLayersAreOne};

// A row's gross price is its net price and the gross prices of the rows whose parent it is.
pub fn gross_is_net_and_rows_under()
    ensures { GrossIsNetAndRowsUnder }
{}

// With no mark set a ruling answers as the book below, but for the height of a fault.
pub fn clear_ruling_answers_as_below()
    ensures { ClearRulingAnswersAsBelow }
{}

// A question in range is barred once its mark is set, and answered from below once it is cleared.
pub fn bar_and_lift_decide()
    ensures { BarAndLiftDecide }
{}

// Barring an open question and lifting it again leaves the marks as they were.
pub fn lift_undoes_bar()
    ensures { LiftUndoesBar }
{}

// Barring or lifting one question leaves every other as it was.
pub fn marks_stand_apart()
    ensures { MarksStandApart }
{}

// Two layers with the same marks answer as one, wherever the book below does not fault.
pub fn equal_layers_are_one()
    ensures { EqualLayersAreOne }
{}
