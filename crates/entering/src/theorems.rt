// What is proved of entry.
ghost use Rattle.entering.specs.Paths.{PathStep, PathEnd};
ghost use Rattle.entering.specs.Keys.{KeyDenies};

// The theorem that entry goes from path to path: cells that store a path store the longer one once a clause of the goal's symbol is entered; where
// it is denied, and where there is no such clause, no longer path passes.
pub fn entry_is_a_step()
    ensures { PathStep }
{}

// The theorem that a path that cells store passes, and succeeds just where no goals are left.
pub fn stored_path_passes()
    ensures { PathEnd }
{}

// The theorem that a clause whose key clashes with the goal's is denied.
pub fn clashing_key_is_denied()
    ensures { KeyDenies }
{}
