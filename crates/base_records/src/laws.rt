//! What holds of the records of each text.
ghost use Rattle.base_records.specs.Pieces.{RecordsJoin, TextsDiffer, WholeFrontsEnd};

/// The records of a text, one after the other, are the text.
pub fn records_join()
    ensures { RecordsJoin }
{}

/// Where all records of a text are the first ones of another's, the two texts are the same.
pub fn records_tell_their_text()
    ensures { TextsDiffer }
{}

/// The first records of a text are all of them where the last one is empty.
pub fn whole_fronts_end()
    ensures { WholeFrontsEnd }
{}
