//! Laws: functions that do nothing, and whose contracts are what follows from the definitions.

ghost use Rattle.iopub_queue.specs.Laws.{OrderIsKept};

/// What a publisher was told of before it published an entry stands before that entry in what is taken.
///
/// `whole` is what a token or the taker was told of, and agrees with what was taken. `told` is a beginning of it: a
/// front, and last the entry. If as many entries of the entry's publisher are taken as stand in `told`, the entry is
/// taken, and the front stands before it.
pub fn law_stands_behind<T>()
    ensures { OrderIsKept T }
{}
