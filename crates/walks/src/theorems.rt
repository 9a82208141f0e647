// The theorems, each on the contract of a function that does nothing.
ghost use Rattle.walks.specs.Theorems.{WalkIsOne, TurnsWalkTheWalk, RowsAreCounted, StatesStandApart, WindowIsFewest, MarksHaveTheirFields};

/// Does nothing. Its contract: on every graph that reading accepts, each packet has one plain walk, of
/// at most 32 marks.
pub fn walk_is_one()
    ensures { WalkIsOne }
{}

/// Does nothing. Its contract: each mark of a plain walk has its fields. Whatever field is asked for, it
/// is handed out or the kind has none of that number; none is refused.
pub fn marks_have_their_fields()
    ensures { MarksHaveTheirFields }
{}

/// Does nothing. Its contract: for every graph that reading accepts, every plan that keeps the rules and
/// every packet, the turns over the rows of graph and plan give the marks and the outcome of the plain
/// walk, and put at most as many questions as there are marks.
pub fn turns_walk_the_walk()
    ensures { TurnsWalkTheWalk }
{}

/// Does nothing. Its contract: the rows of graph and plan are as many as the formula says.
pub fn rows_are_counted()
    ensures { RowsAreCounted }
{}

/// Does nothing. Its contract: a question of a state is answered as by that state's own rows.
pub fn states_stand_apart()
    ensures { StatesStandApart }
{}

/// Does nothing. Its contract: the window is the fewest bytes that hold every header and lookup byte of
/// a node and its chain.
pub fn window_is_fewest()
    ensures { WindowIsFewest }
{}
