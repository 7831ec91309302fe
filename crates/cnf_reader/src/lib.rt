//! The reader of problems: from the bytes of files to clauses, or to the first fault.
#![tactic(auto)]

mod draft;
mod end;
mod enter;
mod fault;
mod files;
mod keep;
mod kept;
mod laws;
mod names;
mod numbers;
mod opening;
mod part;
mod pending;
mod reading;
mod selections;
mod text;

pub use fault::{ReadFault, ReadKind};
pub use laws::{
    each_file_is_read_as_its_statements, each_statement_holds_its_meaning,
    faults_are_the_rows_of_a_table, faults_stand_where_the_grammar_stops, files_read_as_one_thing,
    folders_end_with_the_last_slash, includes_go_by_their_limits, numbers_stand_for_their_symbols,
};
pub use reading::read_problem;
