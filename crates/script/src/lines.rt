// The lines of a script and their words.
ghost use Rattle.std.specs.Prelude.{◌≡◌, ◌<◌, ◌≤◌, IfOk, IfSome, None};
ghost use Rattle.script.specs.Left.{left};

use crate::fault::{Fault, Found};
use spelling::{Figure, WHOLE_NUMBER, whole_number};
use std::alloc::{AllocError, Global};
use std::str;

const LARGEST_CAPACITY: u32 = 1_000_000;

const CAPACITY: &str = "a whole number from 0 to 1000000";

const END_OF_LINE: &str = "the end of the line";

// A line that counts: neither blank nor a comment.
#[derive(Drop)]
pub(crate) struct Line<'a> {
    // Counted from 1, with the lines that do not count.
    number: usize,
    pub(crate) head: &'a str,
    rest: Vec<&'a str>,
}

impl<'a> Line<'a> {
    // The words of a line; none where it does not count.
    fn cut(heap: Global, number: usize, text: &'a str) -> Result<Option<Line<'a>>, AllocError> {
        let mut words = text.split_whitespace();
        let Some(head) = words.next().filter(|head| !head.starts_with('#')) else {
            return Ok(None);
        };
        let rest = words.collect(heap)?;
        Ok(Some(Line { number, head, rest }))
    }
}

// The words after the head have places, from 0 on.
impl Line<'_> {
    pub(crate) fn begins_part(&self) -> bool {
        self.head == "arithmetic"
    }

    // That a word of the line is not what was expected.
    pub(crate) fn fault(&self, expected: &'static str, word: &str) -> Fault {
        Fault::word(*self.rest.allocator(), self.number, expected, word)
    }

    pub(crate) fn word_at(&self, place: usize, expected: &'static str) -> Result<&str, Fault> {
        let word = self.rest.get(place).copied();
        word.ok_or_else(|| Fault::Line {
            number: self.number,
            expected,
            found: Found::EndOfLine,
        })
    }

    fn number_up_to(
        &self,
        largest: u32,
        place: usize,
        expected: &'static str,
    ) -> Result<u32, Fault> {
        let word = self.word_at(place, expected)?;
        let number = whole_number(word).filter(|n| *n <= largest);
        number.ok_or_else(|| self.fault(expected, word))
    }

    pub(crate) fn number_at(&self, place: usize) -> Result<u32, Fault> {
        self.number_up_to(u32::MAX, place, WHOLE_NUMBER)
    }

    pub(crate) fn capacity_at(&self, place: usize) -> Result<u32, Fault> {
        self.number_up_to(LARGEST_CAPACITY, place, CAPACITY)
    }

    // As `number_up_to`: one function with the reader as a parameter is not proved where what is read is a type
    // parameter.
    pub(crate) fn figure_at<F: Figure>(&self, place: usize) -> Result<F, Fault> {
        let word = self.word_at(place, F::EXPECTED)?;
        F::read(word).ok_or_else(|| self.fault(F::EXPECTED, word))
    }

    // The words after the head, which are to be N numbers.
    pub(crate) fn numbers<const N: usize>(&self) -> Result<[usize; N], Fault> {
        let mut numbers = [0; N];
        for (place, number) in numbers.iter_mut().enumerate() {
            *number = self.number_at(place)? as usize;
        }
        self.ends_after(N)?;
        Ok(numbers)
    }

    // Reads the words after the head, one at least, as figures, and adds them to `list`.
    pub(crate) fn read_figures<F: Figure>(&self, list: &mut Vec<F>) -> Result<(), Fault> {
        // By place, so that the first word is asked for also where there is none.
        for place in 0..self.rest.len().max(1) {
            list.push(self.figure_at(place)?)?;
        }
        Ok(())
    }

    // There are no more than so many words after the head.
    pub(crate) fn ends_after(&self, words: usize) -> Result<(), Fault> {
        match self.rest.get(words) {
            Some(more) => Err(self.fault(END_OF_LINE, *more)),
            None => Ok(()),
        }
    }
}

// What the lines after a command give, up to a line `end`.
pub(crate) trait Given: Drop {
    // Adds what a line gives.
    fn read_line(&mut self, line: &Line<'_>) -> Result<(), Fault>;
}

// The lines of a text that count, read one after the other. Each is cut when its turn comes, and none is kept once it
// has been read: a list of them all would be several times as large as the text.
#[derive(Drop)]
pub(crate) struct Lines<'t> {
    // The lines of the text that are left.
    text: str::Lines<'t>,
    // How many lines of the text have been passed, with those that do not count.
    passed: usize,
    // A line that has been cut and is still to be read.
    ahead: Option<Line<'t>>,
    // For what is read.
    pub(crate) heap: Global,
}

impl<'t> Lines<'t> {
    pub(crate) fn new(heap: Global, text: &'t str) -> Lines<'t> {
        Lines {
            text: text.lines(),
            passed: 0,
            ahead: None,
            heap,
        }
    }

    // That there are no more lines where one was expected.
    pub(crate) fn ended(&self, expected: &'static str) -> Fault {
        Fault::Line {
            number: self.passed.saturating_add(1),
            expected,
            found: Found::EndOfInput,
        }
    }

    // Cuts the next line of the text that counts.
    fn cut(&mut self) -> Result<Option<Line<'t>>, AllocError>
        ensures shorter { IfOk result (λ line. IfSome line (λ _. left self.new < left self.old)) }
        ensures no_longer { left self.new ≤ left self.old }
        ensures ahead { self.new.ahead ≡ self.old.ahead }
    {
        while let Some(words) = self.text.next() {
            self.passed = self.passed.saturating_add(1);
            let line = Line::cut(self.heap, self.passed, words)?;
            if line.is_some() {
                return Ok(line);
            }
        }
        Ok(None)
    }

    pub(crate) fn next_line(&mut self) -> Result<Option<Line<'t>>, AllocError>
        ensures shorter { IfOk result (λ line. IfSome line (λ _. left self.new < left self.old)) }
        ensures no_longer { left self.new ≤ left self.old }
        ensures ahead { self.new.ahead ≡ None }
    {
        match self.ahead.take() {
            Some(line) => Ok(Some(line)),
            None => self.cut(),
        }
    }

    // The next line, unless a part begins with it.
    pub(crate) fn next_of_part(&mut self) -> Result<Option<Line<'t>>, AllocError>
        ensures shorter { IfOk result (λ line. IfSome line (λ _. left self.new < left self.old)) }
        ensures no_longer { left self.new ≤ left self.old }
    {
        let line = self.next_line()?;
        if line.as_ref().is_some_and(|line| line.begins_part()) {
            self.ahead = line;
            return Ok(None);
        }
        Ok(line)
    }

    // Adds what the lines up to `end` give.
    pub(crate) fn read_up_to_end<G: Given>(&mut self, mut given: G) -> Result<G, Fault>
        ensures { left self.new ≤ left self.old }
    {
        while let Some(line) = self.next_line()? {
            if line.head == "end" {
                line.ends_after(0)?;
                return Ok(given);
            }
            given.read_line(&line)?;
        }
        Err(self.ended("'end'"))
    }
}
