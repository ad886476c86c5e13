// Each theorem is the contract of a function that does nothing.
ghost use Rattle.sheets.specs.Worked.{Worked};
ghost use Rattle.sheets.specs.ReadBack.{AnswersReadBack};
ghost use Rattle.sheets.specs.Theorems.{OnePrinted, LinesFit};

// The worked cases print as written, and the faulty lines are refused.
pub fn cases_are_worked()
    ensures { Worked }
{}

// An answer line is read back as the answer's terms.
pub fn answers_read_back()
    ensures { AnswersReadBack }
{}

// Clause lines and a query line print at most one list of lines.
pub fn lines_print_once()
    ensures { OnePrinted }
{}

// Accepted lines are as the theorems about decks and queries ask.
pub fn lines_fit()
    ensures { LinesFit }
{}
