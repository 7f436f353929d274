//! What holds of emitted C; nothing here is run.
ghost use Rattle.lt_c.specs.Head.{HeadIsSound};
ghost use Rattle.lt_c.specs.Sound.{NothingUndefined};
ghost use Rattle.lt_c.specs.Truths.{TruthsStay};

/// The functions at the head of an emitted file have the language's values, end, and have nothing undefined in them.
pub fn head_is_sound()
    ensures { HeadIsSound }
{}

/// On numbers of 64 bits nothing in an emitted expression is undefined, and all variables keep 64 bits.
pub fn nothing_undefined()
    ensures { NothingUndefined }
{}

/// A variable of the type `bool` to which truth values alone are assigned holds 0 or 1.
pub fn truths_stay()
    ensures { TruthsStay }
{}
