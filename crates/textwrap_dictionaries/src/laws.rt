//! Laws of the definitions on dictionaries.
ghost use Rattle.textwrap_dictionaries.specs.Laws.{BlanksOfListsAreSkipped, ChangesAllowNoHyphen, CommentsOfListsAreSkipped};
ghost use Rattle.textwrap_dictionaries.specs.Laws.{CommentsOfTexAreSkipped};
ghost use Rattle.textwrap_dictionaries.specs.Laws.{ErrorsAreOfLines, ErrorsOfTexAreOfLines, ListsAreRead, NamedListsAreRead, SectionsAreRead, TexIsRead};

/// A line that is empty or a comment makes no difference behind the first of a list, but to the
/// numbers of lines in errors. Nor do blanks on the sides of its lines, or comments in a text of TeX in
/// which none begins the numbers of letters.
pub fn comments_are_skipped()
    ensures lists { CommentsOfListsAreSkipped }
    ensures blanks { BlanksOfListsAreSkipped }
    ensures tex { CommentsOfTexAreSkipped }
{}

/// A pattern that is read with a change behind it has its letters, and its levels but for those before,
/// between and behind the letters that change: these are even, and never lower.
pub fn changes_allow_no_hyphen()
    ensures { ChangesAllowNoHyphen }
{}

/// In a list of at most two groups an error is told of a line exactly where this line is the first that
/// is wrong by itself, in the way that is told. `Empty` and `TooMany` are errors of the whole text. So it is
/// in a text of TeX without minima in its header, where a line is wrong in its group or outside of groups.
pub fn errors_are_of_lines()
    ensures lists { ErrorsAreOfLines }
    ensures tex { ErrorsOfTexAreOfLines }
{}

/// A text of TeX without minima in its header is read exactly where its lines are those outside of groups
/// and whole groups, one at least; and as what the words of these groups say, in order.
pub fn sections_are_read()
    ensures { SectionsAreRead }
{}

/// A text that is written from any patterns and exceptions is read as these: a list, with the minima
/// that it has by default, and a text of TeX as the list.
pub fn written_texts_are_read()
    ensures lists { ListsAreRead }
    ensures named { NamedListsAreRead }
    ensures tex { TexIsRead }
{}
