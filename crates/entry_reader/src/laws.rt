//! What holds of all lines.
ghost use Rattle.entry_reader.specs.Reading.{PrintedLinesReadBack};

/// The line of an entry is read as that entry: no two entries that are printed have one line.
pub fn printed_lines_read_back()
    ensures { PrintedLinesReadBack }
{}
