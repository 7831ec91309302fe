//! Lists of argument numbers.

ghost use Rattle.std.specs.Prelude.{◌≡◌, ◌<◌, ◌≤◌, ◌-◌, ◌+◌, ◌^◌, ◌++◌, All, IfOk, MatchOption, OnOk, drop, length, reverse, slice_index, sum_by, take};

use mg_word::NoMemory;
use smallvec::SmallVec;
use std::alloc::Global;

/// The most arguments of a term that take no memory of their own.
const INLINE: usize = 4;

/// The numbers of a term's arguments.
pub type Arguments = SmallVec<u32, INLINE>;

/// The numbers in 32 bits, where they fit.
pub fn narrow(alloc: Global, numbers: &[usize]) -> Result<Option<Arguments>, NoMemory>
    ensures { IfOk result (λ made. MatchOption made (¬ All (λ number. number < 2 ^ 32) numbers.now) (λ narrow. narrow.items ≡ numbers.now)) }
{
    let mut made = SmallVec::new(alloc);
    for number in numbers {
        let Ok(small) = u32::try_from(*number) else {
            return Ok(None);
        };
        made.push(small)?;
    }
    Ok(Some(made))
}

/// Takes so many numbers off the end, the last first.
pub fn take_last(alloc: Global, pending: &mut Vec<u32>, count: usize) -> Result<Arguments, NoMemory>
    requires { count ≤ length pending.old.items }
    ensures taken { IfOk result (λ made. made.items ≡ take count (reverse pending.old.items)) }
    ensures left { OnOk result (reverse pending.new.items ≡ drop count (reverse pending.old.items)) }
{
    let start = pending.len() - count;
    let made = reversed_from(alloc, pending.as_slice(), start)?;
    pending.truncate(start);
    Ok(made)
}

// The numbers from the last down to that place.
fn reversed_from(alloc: Global, numbers: &[u32], start: usize) -> Result<Arguments, NoMemory>
    requires { start ≤ length numbers.now }
    ensures { IfOk result (λ made. made.items ≡ reverse (drop start numbers.now)) }
{
    let mut made = SmallVec::new(alloc);
    let mut at = numbers.len();
    while at > start {
        at -= 1;
        made.push(numbers[at])?;
    }
    Ok(made)
}

/// Adds the numbers from the last to the first.
pub fn push_reversed(pending: &mut Vec<u32>, numbers: &[u32]) -> Result<(), NoMemory>
    ensures { OnOk result (pending.new.items ≡ pending.old.items ++ reverse numbers.now) }
{
    let mut at = numbers.len();
    while at > 0 {
        at -= 1;
        pending.push(numbers[at])?;
    }
    Ok(())
}

/// One more than the weights of the arguments together.
pub fn weight_with(weights: &[u32], arguments: &[u32]) -> u32
    requires held { All (λ argument. argument < length weights.now) arguments.now }
    requires light { sum_by (λ argument. slice_index weights.now argument) arguments.now < 2 ^ 32 - 1 }
    ensures { result ≡ sum_by (λ argument. slice_index weights.now argument) arguments.now + 1 }
{
    let mut weight = 1;
    for argument in arguments {
        weight += weights[*argument as usize];
    }
    weight
}
