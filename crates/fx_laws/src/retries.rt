//! Worked transactions of two shells: before and after what the other one commits.
ghost use Rattle.fx_laws.specs.Retried.{EachReadsAndWrites, NamesAreAdded, LinkIsTurned, EntryIsMade, ElementIsRemoved};

/// Two shells of which each reads one of two files and writes the other.
pub fn reading_one_file_and_writing_the_other()
    ensures { EachReadsAndWrites }
{}

/// A directory's names are counted, and one more is added.
pub fn adding_a_name_to_a_directory()
    ensures { NamesAreAdded }
{}

/// A file is read through a link, and the link is turned.
pub fn turning_a_link()
    ensures { LinkIsTurned }
{}

/// An option is asked for, and its entry is made.
pub fn making_the_entry_of_an_option()
    ensures { EntryIsMade }
{}

/// The only file of a directory is read, and removed.
pub fn removing_an_element()
    ensures { ElementIsRemoved }
{}
