// The parts of a script: each begins with the arithmetic that its figures are of.
ghost use Rattle.std.specs.Prelude.{◌<◌, ◌≤◌, IfOk, vec_len};
ghost use Rattle.script.specs.Left.{left};

use crate::command::Command;
use crate::fault::Fault;
use crate::lines::{Line, Lines};
use arithmetic::{Amount, Block, Wait, YesNo};
use spelling::Figure;
use std::alloc::Global;

const ARITHMETIC: &str = "'arithmetic'";

const ARITHMETICS: &str = "'amounts', 'yes-or-no', 'waits' or 'blocks'";

#[derive(Drop)]
pub enum Part {
    Amounts(Vec<Command<Amount>>),
    YesOrNo(Vec<Command<YesNo>>),
    Waits(Vec<Command<Wait>>),
    Blocks(Vec<Command<Block<Amount>>>),
}

// The commands up to the next part.
fn read_commands<F: Figure>(lines: &mut Lines<'_>) -> Result<Vec<Command<F>>, Fault>
    ensures { left lines.new ≤ left lines.old }
{
    let mut commands = Vec::new(lines.heap);
    while let Some(line) = lines.next_of_part()? {
        commands.push(Command::read(&line, lines)?)?;
    }
    Ok(commands)
}

impl Part {
    // The part that a line `arithmetic NAME` begins.
    fn read(line: &Line<'_>, lines: &mut Lines<'_>) -> Result<Part, Fault>
        ensures { left lines.new ≤ left lines.old }
    {
        if !line.begins_part() {
            return Err(line.fault(ARITHMETIC, line.head));
        }
        let name = line.word_at(0, ARITHMETICS)?;
        line.ends_after(1)?;
        match name {
            "amounts" => read_commands(lines).map(Part::Amounts),
            "yes-or-no" => read_commands(lines).map(Part::YesOrNo),
            "waits" => read_commands(lines).map(Part::Waits),
            "blocks" => read_commands(lines).map(Part::Blocks),
            other => Err(line.fault(ARITHMETICS, other)),
        }
    }
}

// The parts of a script, in order and one at least; or the first line that is not what was expected.
pub fn read(heap: Global, text: &str) -> Result<Vec<Part>, Fault>
    ensures { IfOk result (λ parts. 0 < vec_len parts) }
{
    let mut lines = Lines::new(heap, text);
    let mut parts: Vec<Part> = Vec::new(heap);
    while let Some(line) = lines.next_line()? {
        parts.push(Part::read(&line, &mut lines)?)?;
    }
    if parts.is_empty() {
        return Err(lines.ended(ARITHMETIC));
    }
    Ok(parts)
}
