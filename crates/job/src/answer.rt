// What the program prints for a line.
ghost use Rattle.std.specs.Prelude.{Some};
ghost use Rattle.job.specs.Texts.{answer_text};

use super::wrong::Wrong;
use std::fmt;
use table::shape::ShapeFault;

#[derive(Clone, Copy)]
pub enum Answer {
    // to `shape`
    Shape(Result<(), ShapeFault>),
    // to a line that says no command, by its number, counted from 1
    Line { number: u64, wrong: Wrong },
}

impl fmt::Display for Answer {
    ghost output = { λ a. Some (answer_text a) };

    fn fmt<W: fmt::Write>(&self, f: &mut fmt::Formatter<W>) -> fmt::Result {
        match *self {
            Answer::Shape(Ok(())) => write!(f, "shape: ok"),
            Answer::Shape(Err(fault)) => {
                let number = fault.number();
                match fault.at() {
                    None => write!(f, "shape: refused {number}"),
                    Some(at) => write!(f, "shape: refused {number} at {at}"),
                }
            }
            Answer::Line { number, wrong } => write!(f, "line {number}: {wrong}"),
        }
    }
}
