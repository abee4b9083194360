ghost use Rattle.std.specs.Prelude.{◌≡◌};
ghost use Rattle.sheet.specs.Refusals.{refusal_number, refusal_place};

// Why a call was sent back: one case for each number, with the place. The place is a number in every case, also where
// it tells one of a few kinds, since a number and a place are what every caller is told.
#[derive(Clone, Copy, Debug, PartialEq, Eq)]
pub enum Refusal {
    // 1: 0, the header has not the right number of words; 1, index and figures differ in length; 2, the
    // capacity is too large.
    Layout(usize),
    // 2: the order given is 0 or too large.
    Order(usize),
    // 3: the first header word that breaks its rule.
    Header(usize),
    // 4: the first position of the index array that breaks its rule.
    Position(usize),
    // 5: a vector or a list is not as long as it has to be. The place says which: 1 is the second of two.
    Lengths(usize),
    // 6: the number of a sheet that is not there; 0 where there is none to strike.
    Sheet(usize),
    // 7: the book has as many sheets as it can have.
    Full(usize),
    // 8: the first entry that is misplaced; or 0 for a row, 1 for a column that is not in the table.
    Misplaced(usize),
    // 9: the length of the new sheet, for which there is no room.
    Room(usize),
}

// No `From`: `u8::from` and `usize::from` would not say which is the number and which the place.
impl Refusal {
    pub fn number(self) -> u8
        ensures { result ≡ refusal_number self }
    {
        match self {
            Refusal::Layout(_) => 1,
            Refusal::Order(_) => 2,
            Refusal::Header(_) => 3,
            Refusal::Position(_) => 4,
            Refusal::Lengths(_) => 5,
            Refusal::Sheet(_) => 6,
            Refusal::Full(_) => 7,
            Refusal::Misplaced(_) => 8,
            Refusal::Room(_) => 9,
        }
    }

    pub fn place(self) -> usize
        ensures { result ≡ refusal_place self }
    {
        match self {
            Refusal::Layout(place)
            | Refusal::Order(place)
            | Refusal::Header(place)
            | Refusal::Position(place)
            | Refusal::Lengths(place)
            | Refusal::Sheet(place)
            | Refusal::Full(place)
            | Refusal::Misplaced(place)
            | Refusal::Room(place) => place,
        }
    }
}
