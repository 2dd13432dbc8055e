// What is counted and written: how many answers of each function and sort were replayed, and how many lines differ.
use crate::answers::Answer;
use crate::functions::{COUNT, FUNCTIONS, Function};
use std::fmt;

// A refusal's numbers, and 0, which none has.
const NUMBERS: usize = 15;

// How often a function gave each sort of answer.
#[derive(Clone, Copy, Debug)]
struct Counts {
    all: u64,
    accepted: u64,
    refused: [u64; NUMBERS],
    need: u64,
}

#[derive(Debug, Drop)]
pub struct Report {
    of: [Counts; COUNT],
    wrong: u64,
}

impl Counts {
    fn count(&mut self, answer: &Answer) {
        self.all = self.all.saturating_add(1);
        match *answer {
            Answer::Accepted(_) => self.accepted = self.accepted.saturating_add(1),
            Answer::Need(_) => self.need = self.need.saturating_add(1),
            Answer::Refused { number, offset: _ } => {
                if let Some(n) = self.refused.get_mut(usize::from(number)) {
                    *n = n.saturating_add(1);
                }
            }
        }
    }
}

impl fmt::Display for Counts {
    fn fmt<W: fmt::Write>(&self, f: &mut fmt::Formatter<W>) -> fmt::Result {
        write!(f, "{} answers:", self.all)?;
        if self.accepted != 0 {
            write!(f, " {} ok;", self.accepted)?;
        }
        for (number, n) in self.refused.iter().enumerate() {
            if *n != 0 {
                write!(f, " {n} no {number};")?;
            }
        }
        if self.need != 0 {
            write!(f, " {} need;", self.need)?;
        }
        Ok(())
    }
}

impl Report {
    pub fn new() -> Report {
        let none = Counts {
            all: 0,
            accepted: 0,
            refused: [0; NUMBERS],
            need: 0,
        };
        Report {
            of: [none; COUNT],
            wrong: 0,
        }
    }

    pub fn count(&mut self, function: Function, answer: &Answer) {
        if let Some(counts) = self.of.get_mut(function as usize) {
            counts.count(answer);
        }
    }

    // A line that differs, or cannot be read.
    pub fn wrong(&mut self) {
        self.wrong = self.wrong.saturating_add(1);
    }
}

impl fmt::Display for Report {
    fn fmt<W: fmt::Write>(&self, f: &mut fmt::Formatter<W>) -> fmt::Result {
        let mut all: u64 = 0;
        for (function, counts) in FUNCTIONS.iter().zip(&self.of) {
            writeln!(f, "{} {counts}", function.name())?;
            all = all.saturating_add(counts.all);
        }
        writeln!(f, "all {all} answers")?;
        if self.wrong == 0 {
            writeln!(f, "all agreed")
        } else {
            writeln!(f, "lines that differ: {}", self.wrong)
        }
    }
}
