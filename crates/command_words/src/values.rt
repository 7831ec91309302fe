//! The values of a command's options and places, as what they stand for.

ghost use Rattle.std.specs.Prelude.{◌≡◌, ◌≢◌, ℕ, List, Option, [], MatchOption, codes, option_map};
ghost use Rattle.command_words.specs.Given.{Values, Word};
ghost use Rattle.command_words.specs.Clap.{Hold};
ghost use Rattle.command_words.specs.Asking.{HasFile, HasNumber, HasRoot, HasSize, IsNumberIn};
ghost use Rattle.command_words.specs.Requests.{number_row};

use crate::arguments::Arguments;
use crate::options::NumberRow;
use ascii_text::plain_value;
use sample_maker::{LEAST_SIZE, MOST_SIZE};

// The number that the text spells, where it is from the least to the greatest.
fn number_in(text: &str, least: u32, most: u32) -> Option<u32>
    ensures { MatchOption result ((number : ℕ) → IsNumberIn least most text.now number → ⊥) (IsNumberIn least most text.now) }
{
    let number = plain_value(text.as_bytes())?;
    if number < least || most < number {
        return None;
    }
    Some(number)
}

/// The number of an option, which is the default where the option is not given, and `None` where the value is no such number.
pub(crate) fn number(given: &Arguments<'_>, row: &NumberRow) -> Option<u32>
    ensures { (values : Values) → Hold given.now values → MatchOption result ((n : ℕ) → HasNumber (number_row row.now) values n → ⊥) (HasNumber (number_row row.now) values) }
{
    let Some(text) = given.value(row.name) else {
        return Some(row.default);
    };
    number_in(text, row.least, row.most)
}

/// The size of a problem that is made, and `None` where it is no such number.
pub(crate) fn size(given: &Arguments<'_>) -> Option<u32>
    ensures { (values : Values) → Hold given.now values → MatchOption result ((n : ℕ) → HasSize (codes "K") values n → ⊥) (HasSize (codes "K") values) }
{
    let text = given.value("K")?;
    number_in(text, LEAST_SIZE, MOST_SIZE)
}

/// The name of a file in this place, and `None` where it is empty.
pub(crate) fn file<'a>(given: &Arguments<'a>, place: &str) -> Option<&'a str>
    ensures { (values : Values) → Hold given.now values → MatchOption result
        ((name : List ℕ) → HasFile place.now values name → ⊥) (λ name. HasFile place.now values name.now) }
{
    let name = given.value(place)?;
    if name.is_empty() {
        return None;
    }
    Some(name)
}

/// The folder of includes, if one is given, and `None` where its name is empty.
pub(crate) fn root<'a>(given: &Arguments<'a>) -> Option<Option<&'a str>>
    ensures { (values : Values) → Hold given.now values → MatchOption result
        ((folder : Option (List ℕ)) → HasRoot values folder → ⊥) (λ folder. HasRoot values (option_map (λ name. name.now) folder)) }
{
    let Some(folder) = given.value("root") else {
        return Some(None);
    };
    if folder.is_empty() {
        return None;
    }
    Some(Some(folder))
}
