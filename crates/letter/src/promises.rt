// What is promised of letters beside the checker. The contract of each function here is a theorem, and the function does
// nothing else.
ghost use Rattle.letter.specs.Statements.{FirstRanksSuffice, PossibleLines};

// One rank past the pairs, of either side, gives the four numbers of a letter.
pub fn first_ranks_suffice()
    ensures { FirstRanksSuffice }
{}

// A line follows from its own numbers exactly if it is the line of a member in some row of entries.
pub fn possible_lines()
    ensures { PossibleLines }
{}
