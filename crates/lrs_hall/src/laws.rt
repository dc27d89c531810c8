ghost use Rattle.lrs_hall.specs.Laws.{Alone, AnswersAsAsked, EntriesOnce, InOrder, KeepsPromises, OneStream, OwnEntries, Points};
ghost use Rattle.lrs_hall.specs.Refusals.{RefusalsLeaveNothing, TroubleLeavesAtMostDoubt};

use lrs_disk::Disk;

/// The entries of the first records of a line are the first entries of its history. So each act is answered over the
/// first entries of the one history, up to its point. It is a law of the definitions.
pub fn law_of_points()
    ensures { Points }
{}

/// An act's own entry is the answer's, and stands at its point in the one history. It is a law of the definitions.
pub fn law_of_own_entries()
    ensures { OwnEntries }
{}

/// Each entry is that of as many receipts of a worker as its record stands among the worker's own. So where each record
/// is the own of just one worker, each entry is that of just one receipt. It is a law of the definitions.
pub fn law_of_entries()
    ensures { EntriesOnce }
{}

/// A worker to which all further records belong acts on just what it has seen. It is a law of the definitions.
pub fn law_of_one_worker()
    ensures { Alone }
{}

/// The points of a worker's acts never fall, from what it had seen on, and each comes after the own entries of earlier
/// acts. Nor do the counts of the disk's faults and its moments that they tell. It is a law of the definitions.
pub fn law_of_order()
    ensures { InOrder }
{}

/// What the responses of a worker promise is kept, whenever the machine stops: if each image of the disk holds what
/// stood without doubt after each record, it holds what each act without trouble was answered over, and its own entry.
pub fn law_of_receipts<D: Disk>(disk: &D)
    ensures { KeepsPromises (D.time disk.now) (D.image_since disk.now) }
{
    let _moment = disk.moment();
}

/// A request is answered as what it asks. If its caller isn't let in, neither its parameters nor its body need to be
/// read for that. It is a law of the definitions.
pub fn law_of_unread_requests()
    ensures { AnswersAsAsked }
{}

/// Two links with one stream, cut differently, get the same bytes: from one history, with the same readings of the
/// clock and the same draws, if memory suffices, nothing fails, and nobody else acts. It is a law of the definitions.
pub fn law_of_one_stream()
    ensures { OneStream }
{}

/// With another status than 200, 204 and 503 an act makes no entry, and the history is what it was. With 503 the history
/// is what it was, or, only if the disk failed, it has the act's one entry, in doubt. It is a law of the definitions.
pub fn law_of_refusals()
    ensures refusals { RefusalsLeaveNothing }
    ensures trouble { TroubleLeavesAtMostDoubt }
{}
