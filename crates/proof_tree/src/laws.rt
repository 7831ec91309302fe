//! Laws of the texts of documents, each the contract of a function that does nothing.

ghost use Rattle.std.specs.Prelude.{◌≡◌, ◌≢◌, ℕ, List};
ghost use Rattle.mg_word.specs.Facts.{IsProblem, ProblemData};
ghost use Rattle.tree_checker.specs.Docs.{IsWellFormed};
ghost use Rattle.proof_tree.specs.FirstFaults.{IsDocFault};
ghost use Rattle.proof_tree.specs.DocText.{doc_text};
ghost use Rattle.proof_tree.specs.LineLaws.{LinesAreSpelledApart, DocumentsLeadToTheirEnd, DocumentsHaveNoFirstFault, DocumentsHaveTheirTexts, DocumentsStandAmongRemarks};

use tree_checker::{Doc, DocFault};

/// A text has at most one first fault.
pub fn one_first_fault()
    ensures { (problem : ProblemData) → IsProblem problem → (text : List ℕ) (a b : DocFault) → a ≢ DocFault.NoMemory → b ≢ DocFault.NoMemory → IsDocFault problem text a → IsDocFault problem text b → a ≡ b }
{}

/// No text of a well-formed document of a problem is the text of another one.
pub fn documents_are_spelled_apart()
    ensures { (problem : ProblemData) → IsProblem problem → (a b : Doc) → IsWellFormed problem a → IsWellFormed problem b → doc_text problem a ≡ doc_text problem b → a ≡ b }
{}

/// A text is that of one line at most, whatever terms it names.
pub fn lines_are_spelled_apart()
    ensures { LinesAreSpelledApart }
{}

/// Each line of a well-formed document stands rightly, from the header to the end of the root's tree.
pub fn documents_lead_to_their_end()
    ensures { DocumentsLeadToTheirEnd }
{}

/// The text of a well-formed document has no first fault.
pub fn documents_have_no_first_fault()
    ensures { DocumentsHaveNoFirstFault }
{}

/// The text of a well-formed document, as it is written, is that of the document, so that it is read as it again.
pub fn documents_have_their_texts()
    ensures { DocumentsHaveTheirTexts }
{}

/// Lines that begin with `%` may stand between the lines of a document.
pub fn documents_stand_among_remarks()
    ensures { DocumentsStandAmongRemarks }
{}
