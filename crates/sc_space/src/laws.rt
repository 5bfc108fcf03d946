//! A law about the definitions, the contract of a function without code.
ghost use Rattle.sc_space.specs.Texts.{AreTexts, Texts};

/// Each text has an answer: it is an option of a name, or it is none.
pub fn texts_have_answers()
    ensures { (texts : Texts) × AreTexts texts }
{}
