//! The words of first-order clauses: symbols, terms, literals, clauses, forms and problems.
#![tactic(auto)]

mod clause;
mod crossing;
mod form;
mod input;
mod instances;
mod item;
mod items;
mod limits;
mod lit;
mod lit_set;
mod memory;
mod orders;
mod pattern;
mod problem;
mod problem_laws;
mod same;
mod spelling;
mod spelling_laws;
mod subst;
mod symbol;
mod text;
mod word;
mod word_laws;

pub use clause::{Clause, ClauseLit, Name, Place};
pub use form::{Form, Inst};
pub use input::Input;
pub use instances::{inst_of, instance, instance_of_form, instance_of_lit, instances_of_lits};
pub use item::Item;
pub use items::Items;
pub use limits::{MOST_CONCLUSIONS, MOST_FORMS, MOST_ITEMS, MOST_SYMBOLS};
pub use lit::{Lit, PatLit, complement, is_complement};
pub use lit_set::LitSet;
pub use memory::NoMemory;
pub use orders::{lit_cmp, lits_cmp, weight, word_cmp};
pub use pattern::Pattern;
pub use problem::Problem;
pub use problem_laws::numbers_are_in_symbol_order;
pub use spelling::{lit_text, push_lit, push_name, push_pattern_lit, push_word, word_text};
pub use spelling_laws::{
    lits_are_spelled_apart, symbols_are_spelled_apart, words_are_spelled_apart,
};
pub use subst::Subst;
pub use symbol::{Kind, Symbols};
pub use text::Text;
pub use word::Word;
pub use word_laws::{sets_hold_their_lits, words_are_symbols_with_arguments};
