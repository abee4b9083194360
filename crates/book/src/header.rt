// The words of a header, by what they say.
ghost use Rattle.std.specs.Prelude.{◌≡◌, ◌+◌, ◌<◌, ◌≤◌, [], ◌∷◌, length, slice_index};
ghost use Rattle.sheet.specs.declared.refusal.Refusal.TheVariants.{Sheet};
ghost use Rattle.book.specs.Lines.{line, FirstMissing};
ghost use Rattle.book.specs.Checked.{LineChecked};

use sheet::Refusal;

// A header as long as it should be.
#[derive(Drop)]
pub struct Header<'a> {
    pub words: &'a [u32],
    pub ghost long: { length words.now ≡ 19 },
}

impl Header<'_> {
    pub fn order(&self) -> usize
        ensures { result ≡ slice_index self.now.words.now 0 }
    {
        self.words[0] as usize
    }

    // How many sheets the book has.
    pub fn sheets(&self) -> usize
        ensures { result ≡ slice_index self.now.words.now 1 }
    {
        self.words[1] as usize
    }

    // Whether the book has this sheet.
    pub(crate) fn check_there(&self, sheet: usize) -> Result<(), Refusal>
        ensures { LineChecked (line Sheet (FirstMissing (slice_index self.now.words.now 1) (sheet ∷ []))) result }
    {
        if sheet >= self.sheets() {
            return Err(Refusal::Sheet(sheet));
        }
        Ok(())
    }

    // The start of a sheet, which is the end of the sheet before it.
    fn start(&self, sheet: usize) -> usize
        requires { sheet ≤ 16 }
        ensures { result ≡ slice_index self.now.words.now (2 + sheet) }
    {
        self.words[2 + sheet] as usize
    }

    // Where a sheet begins and ends.
    pub(crate) fn place_of(&self, sheet: usize) -> (usize, usize)
        requires { sheet < 16 }
        ensures { result ≡ (slice_index self.now.words.now (2 + sheet), slice_index self.now.words.now (2 + (sheet + 1))) }
    {
        (self.start(sheet), self.start(sheet + 1))
    }

    // The end of the last sheet.
    pub(crate) fn last_end(&self) -> usize
        requires { slice_index self.now.words.now 1 ≤ 16 }
        ensures { result ≡ slice_index self.now.words.now (2 + slice_index self.now.words.now 1) }
    {
        self.start(self.sheets())
    }
}
