//! Rules over places.

use mg_word::Items;

/// Where all of the premises are in, one of the conclusions has to be. Places count from 0.
#[derive(Debug, Drop)]
pub struct Rule {
    pub premises: Items<usize>,
    pub conclusions: Items<usize>,
}
