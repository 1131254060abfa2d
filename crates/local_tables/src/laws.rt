//! What holds of opening rows, of images that are applied, and of the effects of statements.
ghost use Rattle.local_tables.specs.EffectRows.{EffectsAreOfTheirTables, ReadsAreTheLast};
ghost use Rattle.local_tables.specs.FittingRows.{EffectsFitTheirTables, ImagesKeepRows, OpeningRowsFit};
ghost use Rattle.local_tables.specs.Puts.{PutsImages};

/// Images of different rows put their rows and no others: at the key of an image stands what it puts, and at each other
/// key what stood there.
pub fn images_put_their_rows()
    ensures { PutsImages }
{}

/// The effect of statements, on any tables, has images and reads of different rows of the tables that the statements name,
/// in rising order of keys, and each image has the row that stood there before.
pub fn effects_are_of_their_tables()
    ensures { EffectsAreOfTheirTables }
{}

/// Of statements with one more behind them, each row that is read is as this one reads it, on the tables as the others
/// leave them; and where it doesn't read it, as the others read it last.
pub fn reads_are_the_last()
    ensures { ReadsAreTheLast }
{}

/// Opening rows make tables whose rows stand in order, fit their tables and have their keys.
pub fn opening_rows_fit()
    ensures { OpeningRowsFit }
{}

/// Images of the tables, done or undone, leave rows that fit their tables and have their keys.
pub fn images_keep_rows()
    ensures { ImagesKeepRows }
{}

/// The effect of statements, on tables whose rows fit, has images and reads of rows that fit, and of no more rows than a call
/// may touch or read.
pub fn effects_fit_their_tables()
    ensures { EffectsFitTheirTables }
{}
