// What the packed form of a table is worth. Each function stands for one theorem, over every arithmetic; it
// does nothing, and its contract is the theorem.
ghost use Rattle.sheet.specs.Forms.{PackedFormExists, PackedFormIsUnique, SoundSheetIsPacked};

use arithmetic::Arithmetic;

pub fn packed_form_exists<F: Arithmetic>()
    ensures { PackedFormExists F.Arithmetic.figures.ring }
{}

pub fn packed_form_is_unique<F: Arithmetic>()
    ensures { PackedFormIsUnique F.Arithmetic.figures.ring }
{}

pub fn sound_sheet_is_packed<F: Arithmetic>()
    ensures { SoundSheetIsPacked F.Arithmetic.figures.ring }
{}
