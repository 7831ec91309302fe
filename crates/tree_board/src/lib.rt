//! The search tree: nodes, events, kept lemmas and covering.
#![tactic(auto)]

mod alone;
mod barred;
mod barring;
mod board;
mod cell;
mod cell_climb;
mod cell_growth;
mod cell_moves;
mod commit;
mod event;
mod growing;
mod laws;
mod leaves;
mod mode;
mod next_open;
mod node;
mod path;
mod quick;
mod standing;
mod tally;

pub use alone::finish_alone;
pub use board::{Board, MOST_BUDGET, MOST_WEIGHT};
pub use commit::{Claim, Commit};
pub use event::Event;
pub use laws::{
    board_is_its_journal, boards_are_bounded, complete_board_covers, count_is_splits,
    dead_board_is_closed, each_passes_live, left_board_gives_up, literals_are_light,
    no_minimal_is_lost, one_event_is_lawful, one_worker_exists, one_worker_is_alone,
    one_worker_is_unique, open_node_is_due, open_nodes_are_listed, plain_tree_bounds,
    plain_tree_goes_on, refute_is_never_complete, replays_are_boards, stuck_board_exceeds,
    tree_order_is_preorder, walk_finds_first, walk_goes_by_turns,
};
pub use mode::{BoardState, Limit, Limits, Mode};
pub use node::NodeKind;
