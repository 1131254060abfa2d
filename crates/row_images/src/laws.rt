//! What holds of images that are done, undone and joined.
ghost use Rattle.row_images.specs.Joining.{JoinsEffects};
ghost use Rattle.row_images.specs.Undoing.{UndoingRestores, UndoingAnEffectRestores, ExchangingUndoes};

/// Images of present rows that were done and then undone leave the tables as they were, those of every effect among them.
pub fn undoing_gives_the_tables_back()
    ensures restores { UndoingRestores }
    ensures effects { UndoingAnEffectRestores }
    ensures exchanging { ExchangingUndoes }
{}

/// The images of two lists of statements, one after the other, are those of the first joined with those of the second.
pub fn joined_images_are_those_of_both()
    ensures { JoinsEffects }
{}
