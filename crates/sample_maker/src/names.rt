//! The names of a sample: a letter and a number in two digits, as `a01`.

ghost use Rattle.std.specs.Prelude.{◌≡◌, ◌<◌, IfOk, string_bytes};
ghost use Rattle.sample_maker.specs.Sample as sample;

use mg_word::NoMemory;
use std::alloc::Global;

/// The letter, then the number in two digits.
pub fn numbered(alloc: Global, letter: &str, number: u32) -> Result<String, NoMemory>
    requires { number < 100 }
    ensures { IfOk result (λ name. string_bytes name ≡ sample.numbered letter.now number) }
{
    Ok(format!(in alloc; "{letter}{number:02}")?)
}
