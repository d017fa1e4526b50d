ghost use Rattle.sv_room.specs.RoomLaws.{PrefixesHaveRoom, StatesAreWithin, EntriesHaveRoom};

/// Where the entries before one were within the room of a log, there is room for that entry.
pub fn prefixes_have_room()
    ensures { PrefixesHaveRoom }
{}

/// Entries that are accepted from a condition leave no more than what they take, beside what the condition holds.
pub fn states_are_within()
    ensures { StatesAreWithin }
{}

/// After each beginning of a log that is accepted, what the condition holds and the room of the log together have room for the next entry.
pub fn entries_have_room()
    ensures { EntriesHaveRoom }
{}
