//! Where a reader stands in a file: what has just been read, and what may come next.

/// What has just been read, and what may come next.
#[derive(Clone, Copy, Debug, PartialEq, Eq)]
pub enum State {
    /// Between statements: `cnf` or `include` comes, or the file ends.
    Statement,
    /// Behind `cnf`: its opening bracket comes.
    ClauseWord,
    /// Behind `cnf(`: the clause's name comes.
    NameStart,
    /// Behind the clause's name: a comma comes.
    NameRead,
    /// Behind that comma: the role comes.
    RoleStart,
    /// Behind the role: a comma comes.
    RoleRead,
    /// Where the formula, or one in a bracket of it, must begin: an opening bracket or a literal comes.
    FormulaStart,
    /// Behind a bar: a literal comes.
    LiteralStart,
    /// Behind `~`: an atom comes.
    AtomStart,
    /// Behind the word of an atom or a term: its arguments may come.
    WordRead,
    /// Behind an opening bracket or a comma of arguments: a term comes.
    TermStart,
    /// Behind a term, or, with no bracket of arguments open, behind an atom.
    TermRead,
    /// Behind a closing bracket of the formula.
    FormulaClosed,
    /// Behind the comma after the formula: the source comes.
    SourceStart,
    /// In the source, behind a token of it.
    Source,
    /// Behind the comma after the source: the opening bracket of the info comes.
    InfoStart,
    /// In the info, behind a token of it.
    Info,
    /// Behind the closing bracket of the info: the closing bracket of the clause comes.
    InfoClosed,
    /// Behind the closing bracket of the clause: its dot comes.
    ClauseClosed,
    /// Behind `include`: its opening bracket comes.
    IncludeWord,
    /// Behind `include(`: the file name comes.
    FileStart,
    /// Behind the file name: a comma or the closing bracket comes.
    FileRead,
    /// Behind that comma: the opening bracket of the list of names comes.
    SelectionStart,
    /// Behind the opening bracket of the list: a name or the closing bracket comes.
    SelectionOpen,
    /// Behind a comma of the list: a name comes.
    SelectedStart,
    /// Behind a name of the list: a comma or the closing bracket comes.
    SelectedRead,
    /// Behind the closing bracket of the list: that of the include comes.
    SelectionClosed,
    /// Behind the closing bracket of the include: its dot comes.
    IncludeClosed,
}
