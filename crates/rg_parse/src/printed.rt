//! The text of a formula, read back.

ghost use Rattle.rg_parse.specs.PrintedBack.{PrintedSpells, PrintedIsRead, ReadComparesWords, ReadPrintsBack};

/// What `rg_tree::print` writes of a formula is the text of this formula: `formula` reads it, and answers the formula.
pub fn printed_reads_back()
    // The tokens of the text spell the formula, whatever their number and depth.
    ensures spells { PrintedSpells }
    // Within the limits of size and depth the text is read as the formula.
    ensures is_read { PrintedIsRead }
    // A formula that was read is such a formula: each of its comparisons has a word.
    ensures compares_words { ReadComparesWords }
    // So its text spells it.
    ensures prints_back { ReadPrintsBack }
{}
