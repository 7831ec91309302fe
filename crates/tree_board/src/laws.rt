//! The laws of boards: each function states one as its contract and does nothing.

ghost use Rattle.tree_board.specs.AloneLaws.{OneWorkerIsAlone, LeftBoardGivesUp};
ghost use Rattle.tree_board.specs.FirstOpen.{WalkFindsFirst};
ghost use Rattle.tree_board.specs.Laws.{ReplaysAreBoards, NoMinimalIsLost, CompleteCovers, CountIsSplits, OneIsLawful, EachPassesLive, DeadIsClosed, RefuteIsNeverComplete, OpenIsDue, BoardsAreBounded, TreeOrderIsPreorder, BoardIsItsJournal};
ghost use Rattle.tree_board.specs.Lightness.{LiteralsAreLight};
ghost use Rattle.tree_board.specs.OpenLists.{OpenNodesAreListed};
ghost use Rattle.tree_board.specs.PlainLaws.{PlainBounds, StuckExceeds, PlainGoesOn};
ghost use Rattle.tree_board.specs.Turns.{WalkGoesByTurns};
ghost use Rattle.tree_board.specs.WorkerLaws.{OneWorkerIsUnique, OneWorkerExists};

/// The facts hold of every board that a lawful journal leaves.
pub fn replays_are_boards()
    ensures { ReplaysAreBoards }
{}

/// Each minimal set is found or passes an open or heavy node.
pub fn no_minimal_is_lost()
    ensures { NoMinimalIsLost }
{}

/// Where nothing is left to do, the instances used cover the minimal sets among the leaves.
pub fn complete_board_covers()
    ensures { CompleteCovers }
{}

/// The count is the number of split nodes.
pub fn count_is_splits()
    ensures { CountIsSplits }
{}

/// No more extensions stand at a node and below it than its plain tree has.
pub fn plain_tree_bounds()
    ensures { PlainBounds }
{}

/// A stuck board that a limit blocks has no plain tree within the budget.
pub fn stuck_board_exceeds()
    ensures { StuckExceeds }
{}

/// At an open node at most one event is lawful.
pub fn one_event_is_lawful()
    ensures { OneIsLawful }
{}

/// One worker has one journal.
pub fn one_worker_is_unique()
    ensures { OneWorkerIsUnique }
{}

/// Each clash-free set that obeys the instances used passes an open, heavy, found or covered node.
pub fn each_passes_live()
    ensures { EachPassesLive }
{}

/// Where no node is live, the root is closed.
pub fn dead_board_is_closed()
    ensures { DeadIsClosed }
{}

/// In mode Refute a board is never complete.
pub fn refute_is_never_complete()
    ensures { RefuteIsNeverComplete }
{}

/// At an open node an event is lawful, or the node waits for an extension and the budget is spent.
pub fn open_node_is_due()
    ensures { OpenIsDue }
{}

/// Where the plain tree fits the limits, the search goes on at each open node.
pub fn plain_tree_goes_on()
    ensures { PlainGoesOn }
{}

/// A board has few nodes, and no more events than nodes.
pub fn boards_are_bounded()
    ensures { BoardsAreBounded }
{}

/// Tree order is preorder.
pub fn tree_order_is_preorder()
    ensures { TreeOrderIsPreorder }
{}

/// A walk down the tree finds exactly the first open node.
pub fn walk_finds_first()
    ensures { WalkFindsFirst }
{}

/// A board is the replay of its own journal, and each lawful event adds itself alone.
pub fn board_is_its_journal()
    ensures { BoardIsItsJournal }
{}

/// Where the plain tree fits the limits, one worker in mode Refute has a journal.
pub fn one_worker_exists()
    ensures { OneWorkerExists }
{}

/// The walk to the first open node goes by turns that need no stack.
pub fn walk_goes_by_turns()
    ensures { WalkGoesByTurns }
{}

/// The first open node is the head of the list of all, in which an event puts the open children in the place of its node.
pub fn open_nodes_are_listed()
    ensures { OpenNodesAreListed }
{}

/// The literals of each node weigh at most the limit.
pub fn literals_are_light()
    ensures { LiteralsAreLight }
{}

/// Where the plain tree fits the limits, the journal of one worker in mode Refute is the one at first open nodes.
pub fn one_worker_is_alone()
    ensures { OneWorkerIsAlone }
{}

/// A board at which one worker leaves off in mode Refute has ended, or is given up at a limit with no found set.
pub fn left_board_gives_up()
    ensures { LeftBoardGivesUp }
{}
