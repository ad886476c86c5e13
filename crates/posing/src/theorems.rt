// What is proved of queries that are set up.
ghost use Rattle.posing.specs.Stored.{StartStores};
ghost use Rattle.posing.specs.Spelling.{QuerySpelled};

// The theorem that the cells of a query that is set up store the empty path.
pub fn started_query_is_stored()
    ensures { StartStores }
{}

// The theorem that the words of a query's terms may be set up, and stand for it, where symbols and variables are numbered rightly.
pub fn query_is_spelled()
    ensures { QuerySpelled }
{}
