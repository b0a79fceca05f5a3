//! Laws of the table's definitions. Each stands on a function that does nothing, so that it is proved with the crate.
ghost use Rattle.fx_table.specs.TableExamples.{TableExamples};
ghost use Rattle.fx_table.specs.TableLaws.{TablesAreRead, ReadTextsAreTables, TablesAreReadable, BadLinesAreFirst, LinesAreTables};

/// The text of a table is read as the lines of the table.
pub fn tables_are_read()
    ensures { TablesAreRead }
{}

/// A text that is read is the text of the table that was read, so that no table has a second spelling.
pub fn read_texts_are_tables()
    ensures { ReadTextsAreTables }
{}

/// Different lines have different texts.
pub fn tables_are_readable()
    ensures { TablesAreReadable }
{}

/// Where a text is refused, the lines before the bad one have their places, and with one line more of the text they have not; or
/// it is of version 2 and all its lines are good, and none has need of that.
pub fn bad_lines_are_first()
    ensures { BadLinesAreFirst }
{}

/// The lines of a whole filestore are a table over its files and directories, none of the files executable.
pub fn lines_are_tables()
    ensures { LinesAreTables }
{}

/// Small tables: how they are spelled, how they are read, and which line of others is bad.
pub fn table_examples()
    ensures { TableExamples }
{}
