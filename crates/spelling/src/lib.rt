// Figures as they are written in a script, one word each.
#![tactic(auto)]

ghost use Rattle.std.specs.Prelude.{ℕ, List};
ghost use Rattle.spelling.specs.Spelling.{Reads, Writes, SpellsAmount, SpellsYesNo, SpellsWait, SpellsRow, SpellsBlock};

use arithmetic::{Amount, Arithmetic, Block, Wait, YesNo};

// A figure that can be read from a word.
pub trait Figure: Arithmetic {
    // Which figure a word writes.
    ghost spells: { List ℕ → Self → Type 0 };

    // What a word has to be, for the reader of a complaint.
    const EXPECTED: &'static str;

    fn read(word: &str) -> Option<Self>
        ensures { Reads spells word.now result };
}

// What is expected of a word that is a number.
pub const WHOLE_NUMBER: &str = "a whole number from 0 to 4294967295";

// The number that digits write; none at a sign, at any other character or above 4294967295.
pub fn whole_number(word: &str) -> Option<u32>
    ensures { Reads Writes word.now result }
{
    match word.as_bytes() {
        [b'+', ..] => None,
        _ => word.parse::<u32>().ok(),
    }
}

// Two amounts with a comma between them.
fn row(text: &str) -> Option<(Amount, Amount)>
    ensures { Reads SpellsRow text.now result }
{
    let (left, right) = text.split_once(',')?;
    Some((Amount::read(left)?, Amount::read(right)?))
}

impl Figure for Amount {
    ghost spells = { SpellsAmount };

    const EXPECTED: &'static str = WHOLE_NUMBER;

    fn read(word: &str) -> Option<Amount> {
        Some(Amount::new(whole_number(word)?))
    }
}

impl Figure for YesNo {
    ghost spells = { SpellsYesNo };

    const EXPECTED: &'static str = "'yes' or 'no'";

    fn read(word: &str) -> Option<YesNo> {
        match word {
            "yes" => Some(YesNo::Yes),
            "no" => Some(YesNo::No),
            _ => None,
        }
    }
}

impl Figure for Wait {
    ghost spells = { SpellsWait };

    const EXPECTED: &'static str = "a whole number of days from 0 to 4294967294, or 'never'";

    fn read(word: &str) -> Option<Wait> {
        match word {
            "never" => Some(Wait::never()),
            _ => Wait::days(whole_number(word)?),
        }
    }
}

impl Figure for Block<Amount> {
    ghost spells = { SpellsBlock };

    const EXPECTED: &'static str = "a block such as 1,1;0,1, of whole numbers from 0 to 4294967295";

    fn read(word: &str) -> Option<Block<Amount>> {
        let (upper, lower) = word.split_once(';')?;
        let (p, q) = row(upper)?;
        let (r, s) = row(lower)?;
        Some(Block { p, q, r, s })
    }
}
