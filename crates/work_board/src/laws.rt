// What holds on every schedule. The functions do nothing: their contracts are the laws.
ghost use Rattle.work_board.specs.Laws.{DrawsOnce, DrawsBelow, ClosedAtEnd, DrawnAlike};
ghost use Rattle.work_board.specs.Laws.{MarksOnce, MarkersStay, GathersOnce, GathersRun};

/// On any schedule each unit is drawn once, and all of them where a worker was told that none is left.
pub fn each_unit_is_drawn_once()
    ensures once { DrawsOnce }
    ensures below { DrawsBelow }
    ensures whole { ClosedAtEnd }
    ensures alike { DrawnAlike }
{}

/// On any schedule each bit has one first marker at most, which never changes.
pub fn each_bit_has_one_first_marker()
    ensures once { MarksOnce }
    ensures stays { MarkersStay }
{}

/// Whoever drew which unit, the results at their places are those of one thread.
pub fn gathered_is_one_threads_answer<T>()
    ensures numbers { GathersOnce T }
    ensures run { GathersRun T }
{}
