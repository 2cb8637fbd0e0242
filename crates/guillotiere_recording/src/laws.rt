//! Laws over the definitions of recordings, each the contract of a function that does nothing.
ghost use Rattle.guillotiere_recording.specs.Books.{EventsKeepNames, SessionsAreNamed, BooksAreTrue};
ghost use Rattle.guillotiere_recording.specs.Twins.{TwinsAnswerAlike, TwinsShareNames, NewSessionsAreTwins};
ghost use Rattle.guillotiere_recording.specs.Twins.{EventsKeepTwins};

/// An event leads from a sound state whose names go one to one with its live ids to another such state.
pub fn events_keep_names()
    ensures { EventsKeepNames }
{}

/// In every state that recorded events lead to, names and live ids go together one to one, and the state is sound.
pub fn sessions_are_named()
    ensures { SessionsAreNamed }
{}

/// The book of recorded events lists the live names with their boxes, in every state that they lead to.
pub fn books_are_true()
    ensures { BooksAreTrue }
{}

/// Sessions that differ only in ids answer all but rearrangements alike, and the same events keep them so.
pub fn twins()
    ensures answers { TwinsAnswerAlike }
    ensures names { TwinsShareNames }
    ensures beginning { NewSessionsAreTwins }
    ensures events { EventsKeepTwins }
{}
