//! The grammar of problem files in clause normal form: what a file is, and the table that follows it token by token.
#![tactic(auto)]

mod annotations;
mod brackets;
mod formulas;
mod item;
mod laws;
mod lexeme;
mod position;
mod state;
mod statements;

pub use brackets::{Bracket, Brackets};
pub use item::ItemState;
pub use laws::{
    clean_tokens_give_right_symbols, counters_count_open_brackets, each_clause_is_sound,
    each_file_has_one_tree, each_file_is_accepted, each_file_leaves_its_meaning,
    each_position_can_be_completed, fronts_lead_on, items_are_followed, only_files_are_accepted,
    position_tells_what_may_come, quoted_forms_mean_their_parts, stops_at_first_fault,
};
pub use lexeme::Lexeme;
pub use position::Position;
pub use state::State;
