//! Laws of the definitions that the contracts cite. Each is the contract of a function that does
//! nothing, so that a proof may call on it.
ghost use Rattle.text_files.specs.Laws.{DiffsLeadBack, DiffsLeadOn, HunksAreRead};
ghost use Rattle.text_files.specs.Laws.{TextsAreTheirLines};

/// The hunks of a diff make the new text of the old one: before and behind each the lines stay, and
/// at its place its new lines stand for its old ones.
pub fn diffs_lead_on()
    ensures { DiffsLeadOn }
{}

/// Turned round, they make the old text of the new one.
pub fn diffs_lead_back()
    ensures { DiffsLeadBack }
{}

/// A text is its lines, one after another.
pub fn texts_are_their_lines()
    ensures { TextsAreTheirLines }
{}

/// What a reader finds in the text of a diff's hunks, which takes each line by its first byte, is these
/// hunks.
pub fn hunks_are_read()
    ensures { HunksAreRead }
{}
