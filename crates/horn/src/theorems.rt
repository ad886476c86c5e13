// Each theorem is the contract of a function that does nothing.
ghost use Rattle.horn.specs.Theorems.{TotalOrder, Decided, DeckGrown, SearchMoves, Agreement, OneLine, OneTranscript};

// Dictionary order is a strict total order.
pub fn order_is_total()
    ensures { TotalOrder }
{}

// The definitions leave at most one reply after n answers.
pub fn replies_are_decided()
    ensures { Decided }
{}

// The paths of a deck and a query make a search tree.
pub fn deck_is_grown()
    ensures { DeckGrown }
{}

// A depth-first search finds the answers, the end and the halt.
pub fn search_is_exact()
    ensures { SearchMoves }
{}

// The solutions of a path's equations are the instances of its clauses.
pub fn equations_are_instances()
    ensures { Agreement }
{}

// A path has at most one answer line.
pub fn line_is_decided()
    ensures { OneLine }
{}

// A query prints at most one list of lines.
pub fn transcript_is_decided()
    ensures { OneTranscript }
{}
