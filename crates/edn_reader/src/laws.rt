//! What reading and writing promise each other, as functions that do nothing.

ghost use Rattle.edn_reader.specs.Laws.{OneReading, TextSpells, JoinedSpell, LinesSpell};

/// A text spells one list of forms at most. So a form that was written is what is read back.
pub fn one_reading()
    ensures { OneReading }
{}

/// The text that is written for a form spells it. A caller that writes a form piece by piece, with
/// no `Form` at hand, can show by this what its text spells.
pub fn text_spells()
    ensures { TextSpells }
{}

/// Two texts with a line feed between them spell the forms of both.
pub fn joined_spell()
    ensures { JoinedSpell }
{}

/// The texts of some forms, each followed by a line feed, spell these forms.
pub fn lines_spell()
    ensures { LinesSpell }
{}
