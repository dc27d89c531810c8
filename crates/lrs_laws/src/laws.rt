ghost use Rattle.lrs_laws.specs.Documents.{DocumentsAreFolds, HeldDocumentsAreShown, IdsTellDocuments, MergedIsRead, NothingIsDroppedQuietly, PostedDocumentsAreMerged, UnmergeableIsTold};
ghost use Rattle.lrs_laws.specs.Editions.{CoursesAreEditions, CoursesCountEditions, CoursesNameOne, EditionsAreFound};
ghost use Rattle.lrs_laws.specs.Editions.{EditionsAreNumbered, EditionsStay, NewestIsLast, RegistrationsKeepTheirEdition};
ghost use Rattle.lrs_laws.specs.Fetches.{FetchesGive, KeysGiveOnce, UsedKeysAreTold};
ghost use Rattle.lrs_laws.specs.Former.{FormerHistoriesAreLegal, FormerHistoriesAreMovable};
ghost use Rattle.lrs_laws.specs.Laws.{BatchConflictsAreTold, BatchesAreWhole, CallersHaveAuthority, CallersStayLetIn, ConflictsAreTold, DeskIdsAreNew, FirstPagesAreTold, LinksGoOn, LinksStay, LinksWhereMoreComes, MadeIdsAreNew, NamesForGood, NamesOne, PagesEnd, PagesGiveTheList, PositionsComeOnce, PutsAreHeld, RepeatedBatchesAreTaken, RepeatsAreTaken, StaysVoided, StrangersAreToldAlike};
ghost use Rattle.lrs_laws.specs.Refusals.{RefusedMakesNoEntry, StatusesTellRefusals};
ghost use Rattle.lrs_laws.specs.Sessions.{GivenTokensAct, KeysAreTheirLaunches, LaunchesLeaveStatements, OneSessionIsOpen, OtherTokensAreUnknown, SessionTokensWereGiven, SessionsAreBarredFromTheDesk, SessionsAreLaunched, SessionsKeepLaunchData, SessionsKeepToTheirDocuments, SessionsSeeTheirRegistration};
ghost use Rattle.lrs_laws.specs.Speaking.{AbandonedSessionsAreSilent, ResultsCountOnce, SessionsSpeakInOrder};
ghost use Rattle.lrs_laws.specs.Verdicts.{SatisfiedAreTold, SatisfiedOnce};

/// Over every history whoever is let in has an authority, and stays let in after every further entry. Who isn't let in
/// is told the same whatever it asks. An id names one statement, for good, and what is voided stays so. A repeat makes
/// no entry, and another statement under the id is told it, alone and in a batch. Made ids are new, what isn't refused
/// is held, and a batch is kept whole.
pub fn law_of_names()
    ensures authority { CallersHaveAuthority }
    ensures stay { CallersStayLetIn }
    ensures strangers { StrangersAreToldAlike }
    ensures one { NamesOne }
    ensures good { NamesForGood }
    ensures voided { StaysVoided }
    ensures repeats { RepeatsAreTaken }
    ensures conflicts { ConflictsAreTold }
    ensures repeated_batches { RepeatedBatchesAreTaken }
    ensures batch_conflicts { BatchConflictsAreTold }
    ensures made { MadeIdsAreNew }
    ensures desk { DeskIdsAreNew }
    ensures held { PutsAreHeld }
    ensures whole { BatchesAreWhole }
{}

/// The links from the first page of a list on give the whole list as of that page, each position once, whatever is
/// accepted between the pages, and end. A link is told the same page for ever.
pub fn law_of_pages()
    ensures whole { PagesGiveTheList }
    ensures once { PositionsComeOnce }
    ensures on { LinksGoOn }
    ensures link { LinksWhereMoreComes }
    ensures end { PagesEnd }
    ensures first { FirstPagesAreTold }
    ensures stay { LinksStay }
{}

/// Over every history the number of an edition of a course is one more than the number of earlier editions of its id,
/// the newest is the last of them, and each is found by id and number, for good. Over every legal history each entry
/// that brings a course makes an edition, and a registration has the edition that its enrolment named, or else the
/// newest of the id before it.
pub fn law_of_editions()
    ensures numbers { EditionsAreNumbered }
    ensures found { EditionsAreFound }
    ensures newest { NewestIsLast }
    ensures counts { CoursesCountEditions }
    ensures one { CoursesNameOne }
    ensures stay { EditionsStay }
    ensures entries { CoursesAreEditions }
    ensures registrations { RegistrationsKeepTheirEdition }
{}

/// Each history that was legal before courses had editions is legal, and can be moved into a store, under a limit that
/// holds its frames.
pub fn law_of_former_histories()
    ensures legal { FormerHistoriesAreLegal }
    ensures movable { FormerHistoriesAreMovable }
{}

/// Over every history the document under a key is made by the entries on that key alone: it is what was put, what
/// was merged, what a launch told its unit, or none once it was dropped. What is merged can be read and merged again;
/// what can't be is told why. What is held is shown to everyone who may look at it, and a deletion of nothing makes no
/// entry. The ids that are told are those of the documents that are held, in the order of their bytes.
pub fn law_of_documents()
    ensures folds { DocumentsAreFolds }
    ensures merged { PostedDocumentsAreMerged }
    ensures read { MergedIsRead }
    ensures unmergeable { UnmergeableIsTold }
    ensures shown { HeldDocumentsAreShown }
    ensures quiet { NothingIsDroppedQuietly }
    ensures ids { IdsTellDocuments }
{}

/// Over every legal history a fetch key gives one token, once: a fetch that was accepted gave a token, no later one has
/// the same key, and whoever comes with it again is told that it was used.
pub fn law_of_fetches()
    ensures give { FetchesGive }
    ensures once { KeysGiveOnce }
    ensures used { UsedKeysAreTold }
{}

/// Over every history a session is that of a launch, and its token was given away by a fetch. A token that a fetch gave
/// away acts, for good, in the session of the launch whose entry gave the key away; one that is neither an admin's nor
/// a provider's, and that no fetch gave away, is nobody's. A launch leaves its statement. A session sees the statements
/// of its launch's registration and no others, is let in at no command of the desk, and has no documents but those of
/// its launch's actor, in its launch's registration or in none; of these it never changes what its launch wrote. In a
/// registration at most one session of a unit is open. Over every legal history a session speaks in order, from
/// initialized on to terminated, and says nothing behind its abandonment; and in a registration a unit is completed
/// once and passed once, unless the earlier statement was voided.
pub fn law_of_sessions()
    ensures launched { SessionsAreLaunched }
    ensures given { SessionTokensWereGiven }
    ensures act { GivenTokensAct }
    ensures keys { KeysAreTheirLaunches }
    ensures left { LaunchesLeaveStatements }
    ensures others { OtherTokensAreUnknown }
    ensures sight { SessionsSeeTheirRegistration }
    ensures desk { SessionsAreBarredFromTheDesk }
    ensures documents { SessionsKeepToTheirDocuments }
    ensures launch_data { SessionsKeepLaunchData }
    ensures one { OneSessionIsOpen }
    ensures order { SessionsSpeakInOrder }
    ensures silent { AbandonedSessionsAreSilent }
    ensures results { ResultsCountOnce }
{}

/// Over every legal history of a registration and a node at most one statement says that it is satisfied, whether one
/// is voided or not. Of a block or a course that is satisfied one does, unless half of all ids are in use.
pub fn law_of_verdicts()
    ensures once { SatisfiedOnce }
    ensures told { SatisfiedAreTold }
{}

/// Over every history a command that is refused makes no entry, whatever the reason. The status of an answer is 200 or
/// 204 exactly if nothing is refused.
pub fn law_of_answers()
    ensures none { RefusedMakesNoEntry }
    ensures status { StatusesTellRefusals }
{}
