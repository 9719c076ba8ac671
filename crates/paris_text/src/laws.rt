//! Laws of the text of instructions and of commands. Each function does nothing; what it ensures is the law.

ghost use Rattle.paris_text.specs.Laws.{SpellingsDiffer, LinesAreSpellings, ColumnsAreUnique, LinesHaveNoColumn, WidthIsLength, CommandsAreRead, ColumnsOfCommands, CommandSpellingsDiffer, LinesAreCommands};

/// No two instructions share a spelling.
pub fn spellings_differ()
    ensures { SpellingsDiffer }
{}

/// A line is in the grammar exactly where it is the spelling of an instruction.
pub fn lines_are_spellings()
    ensures { LinesAreSpellings }
{}

/// A line that is not in the grammar leaves it at one column, and a line of the grammar leaves it at none.
pub fn one_column()
    ensures unique { ColumnsAreUnique }
    ensures none { LinesHaveNoColumn }
{}

/// The words of a line, each with the space after it, have one byte more than the line: where more words are wanted, the
/// column is the line's length plus 1.
pub fn width_is_length()
    ensures { WidthIsLength }
{}

/// A line reads as a command exactly where it is the spelling of that command, and reading stops at a column exactly where
/// the line leaves the grammar of commands there.
pub fn commands_are_read()
    ensures command { CommandsAreRead }
    ensures column { ColumnsOfCommands }
{}

/// No two commands share a spelling.
pub fn command_spellings_differ()
    ensures { CommandSpellingsDiffer }
{}

/// A line is in the grammar of commands exactly where it is the spelling of a command.
pub fn lines_are_commands()
    ensures { LinesAreCommands }
{}
