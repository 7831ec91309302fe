//! Laws of replies. The functions do nothing: they are called for what they ensure.

ghost use Rattle.std.specs.Prelude.{◌≡◌, ◌≢◌, ℕ, List, Some};
ghost use Rattle.mg_outside.specs.Reading.{Table};
ghost use Rattle.command_line.specs.PrintLaws.{ProofsAreAccepted};
ghost use Rattle.command_line.specs.Replies.{Reply, IsRightReply};
ghost use Rattle.command_line.specs.Runs.{AreDetermined};

/// Where files are told and determine the answer, no read failed and memory was enough, one reply to the words has its
/// cause.
pub fn one_reply()
    ensures { (words : List (List ℕ)) (files : Table) → AreDetermined words files → (a b : Reply) → IsRightReply words files a → IsRightReply words files b → a ≡ b }
{}

/// All that is printed of a proof, put into a file, is a tree that is accepted, where no line feed is in the problem's name.
pub fn proofs_are_accepted()
    ensures { ProofsAreAccepted }
{}
