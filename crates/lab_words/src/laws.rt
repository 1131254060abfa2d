//! What holds of the grammar, and the grammar on examples.
ghost use Rattle.lab_words.specs.Laws.{AnyOrder, OnlyOnce, SpeltAlike};
ghost use Rattle.lab_words.specs.Worked.{RightWords, WrongWords, Folders};

/// Options may stand in any order, each at most once, and as one word or as two.
pub fn options_stand_in_any_order()
    ensures order { AnyOrder }
    ensures once { OnlyOnce }
    ensures alike { SpeltAlike }
{}

/// What words of the grammar ask for, words that are outside of it, and folders.
pub fn the_words_on_examples()
    ensures right { RightWords }
    ensures wrong { WrongWords }
    ensures folders { Folders }
{}
