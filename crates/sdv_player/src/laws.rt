//! Laws of the calls, from the start of a run on.

ghost use Rattle.sdv_player.specs.Plays.{PlaysAreCounted, PlaysAreWalks, PlaysAreGood, PlaysAreAlike};

/// Whatever the words, the state and the answers are, no more commands are asked for than the state has left, and no more events
/// than it has moves left: each that returned is taken off, and one is left for the event that was just said.
pub fn plays_are_counted()
    ensures { PlaysAreCounted }
{}

/// The events that a player said from the start of a table, each with what it heard that it returned, are a path of
/// the table's graph, and so a walk of its script. It ends as the player says. At most as many commands were asked for as the
/// table says, whatever came of them.
pub fn plays_are_walks()
    ensures { PlaysAreWalks }
{}

/// By the table of an accepted script, beside a card of the profile whose steps these events are, each is legal and in
/// bounds, also the one that was just said; at most the certified number of commands is sent, that one counted; `done` comes
/// only with the card in the transfer state, no command is too wide to be sent, and none is one more than the table says.
pub fn plays_are_good()
    ensures { PlaysAreGood }
{}

/// A player does what any run of the script does whose events return the same, as long as that run sends no more commands than
/// the table says: it makes the same events, whichever blocks are given, and then says the next one, or the same end. The
/// events of the runner are such a run.
pub fn plays_are_alike()
    ensures { PlaysAreAlike }
{}
