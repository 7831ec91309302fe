//! The lines that are above the branch under way, with the conclusions of their children to come.

ghost use Rattle.std.specs.Prelude.{◌≡◌, ◌<◌, ◌≤◌, ◌-◌, ◌++◌, [], ◌∷◌, OnOk, IfOk, MatchBool, IsTrue, length, take, reverse};
ghost use Rattle.tree_checker.specs.Trees.{split_by};
ghost use Rattle.tree_checker.specs.Inside.{pending, AreNested};

use crate::trail::Trail;
use mg_word::{Lit, NoMemory};

/// A line whose children are being closed.
#[derive(Drop)]
pub struct Frame {
    /// How many literals the branch of the child under way begins with: the last is the child's own.
    pub held: usize,
    /// How many literals that branch begins with as barred.
    pub barred: usize,
    /// The conclusions of the children after it, the next one last.
    pub later: Vec<Lit>,
}

// Makes the branch that of the frame's next child, whose literal is given.
fn begin_next(
    held: &mut Trail<'_>,
    barred: &mut Trail<'_>,
    frame: &mut Frame,
    lit: Lit,
) -> Result<(), NoMemory>
    requires counted { 0 < frame.old.held }
    requires reached { frame.old.held ≤ length held.old }
    ensures held { OnOk result (held.new ≡ take (frame.old.held - 1) held.old ++ lit ∷ []) }
    ensures barred { OnOk result ((closed : _) × (take frame.old.held held.old ≡ take (frame.old.held - 1) held.old ++ closed ∷ []) × (barred.new ≡ take frame.old.barred barred.old ++ closed ∷ [])) }
    ensures same_held { OnOk result (frame.new.held ≡ frame.old.held) }
    ensures all_barred { OnOk result (frame.new.barred ≡ length barred.new) }
    ensures same_later { OnOk result (frame.new.later.items ≡ frame.old.later.items) }
{
    held.truncate(frame.held);
    let closed = held.last().copy()?;
    held.truncate(frame.held - 1);
    barred.truncate(frame.barred);
    barred.push(closed)?;
    held.push(lit)?;
    frame.barred = barred.len();
    Ok(())
}

/// Goes on to the next child of the last line that has one, and says whether there was one.
pub fn go_back(
    held: &mut Trail<'_>,
    barred: &mut Trail<'_>,
    frames: &mut Vec<Frame>,
) -> Result<bool, NoMemory>
    requires { AreNested 0 0 frames.old.items (length held.old) (length barred.old) }
    ensures next { IfOk result (λ more. MatchBool more
        (pending held.old barred.old frames.old.items ≡ record { held = held.new; barred = barred.new } ∷ pending held.new barred.new frames.new.items)
        (pending held.old barred.old frames.old.items ≡ [])) }
    ensures nested { IfOk result (λ more. IsTrue more → AreNested 0 0 frames.new.items (length held.new) (length barred.new)) }
{
    while let Some(mut frame) = frames.pop() {
        let Some(lit) = frame.later.pop() else {
            continue;
        };
        begin_next(held, barred, &mut frame, lit)?;
        frames.push(frame)?;
        return Ok(true);
    }
    Ok(false)
}

/// Begins the first of a line's children, whose conclusions are given, the first one last. Where there is none goes
/// on to the next child of the last line that has one. Says whether there was one.
pub fn begin_first(
    held: &mut Trail<'_>,
    barred: &mut Trail<'_>,
    frames: &mut Vec<Frame>,
    mut later: Vec<Lit>,
) -> Result<bool, NoMemory>
    requires { AreNested 0 0 frames.old.items (length held.old) (length barred.old) }
    ensures next { IfOk result (λ more. MatchBool more
        (split_by (record { held = held.old; barred = barred.old }) (reverse later.items) ++ pending held.old barred.old frames.old.items
        ≡ record { held = held.new; barred = barred.new } ∷ pending held.new barred.new frames.new.items)
        (split_by (record { held = held.old; barred = barred.old }) (reverse later.items) ++ pending held.old barred.old frames.old.items ≡ [])) }
    ensures nested { IfOk result (λ more. IsTrue more → AreNested 0 0 frames.new.items (length held.new) (length barred.new)) }
{
    let Some(lit) = later.pop() else {
        return go_back(held, barred, frames);
    };
    held.push(lit)?;
    if later.is_empty() {
        return Ok(true);
    }
    frames.push(Frame {
        held: held.len(),
        barred: barred.len(),
        later,
    })?;
    Ok(true)
}
