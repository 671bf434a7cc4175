// Drives two stores with the same operations, many of them refused, and prints every answer.
// `tools/stores.py` makes the same operations on a model of its own and writes down what is expected.
#![tactic(auto)]

ghost use Rattle.std.specs.Prelude.{◌<◌};

use rows::held::Rows;
use slips::slips::Slips;
use std::io::{BufWriter, Write};
use std::{fmt, io};
use store::traits::Store;
use values::value::Value;

#[derive(Clone, Copy)]
enum Operation {
    Clear,
    Create {
        class: u16,
        cells: usize,
    },
    ClassOf {
        record: u16,
    },
    Read {
        record: u16,
        cell: usize,
    },
    Write {
        record: u16,
        cell: usize,
        value: u16,
    },
}

#[derive(Clone, Copy)]
enum Answer {
    Done,
    Number(u16),
    Holds(i32),
    Null,
    Other,
}

impl From<Value> for Answer {
    fn from(value: Value) -> Answer {
        match value {
            Value::Null => Answer::Null,
            Value::Int(n) => Answer::Holds(n),
            _ => Answer::Other,
        }
    }
}

// What a store answered; nothing where it refused.
#[derive(Clone, Copy)]
struct Reply(Option<Answer>);

impl fmt::Display for Reply {
    fn fmt<W: fmt::Write>(&self, f: &mut fmt::Formatter<W>) -> fmt::Result {
        match self.0 {
            Some(Answer::Done) => write!(f, "done"),
            Some(Answer::Number(n)) => write!(f, "{n}"),
            Some(Answer::Holds(n)) => write!(f, "int {n}"),
            Some(Answer::Null) => write!(f, "null"),
            Some(Answer::Other) => write!(f, "other"),
            None => write!(f, "refused"),
        }
    }
}

// Numbers that look random: a linear congruential generator with fixed constants.
#[derive(Clone, Copy)]
struct Dice {
    state: u32,
}

impl Dice {
    // The next number below `sides`.
    fn roll(&mut self, sides: u16) -> u16
        requires { 0 < sides }
        ensures { result < sides }
    {
        self.state = self.state.wrapping_mul(1664525).wrapping_add(1013904223);
        (self.state / 65536) as u16 % sides
    }

    // An operation on a store of five records with twelve cells; a good part of them names what is not there.
    fn operation(&mut self) -> Operation {
        match self.roll(64) {
            0 => Operation::Clear,
            1..=12 => Operation::Create {
                class: self.roll(32),
                cells: usize::from(self.roll(5)),
            },
            13..=18 => Operation::ClassOf {
                record: self.roll(6),
            },
            19..=40 => Operation::Read {
                record: self.roll(6),
                cell: usize::from(self.roll(3)),
            },
            _ => Operation::Write {
                record: self.roll(6),
                cell: usize::from(self.roll(3)),
                value: self.roll(1000),
            },
        }
    }
}

// Makes one operation on a store. Operations are data, since both stores get the same.
fn play<S: Store>(store: &mut S, operation: Operation) -> Option<Answer> {
    match operation {
        Operation::Clear => {
            store.clear();
            Some(Answer::Done)
        }
        Operation::Create { class, cells } => store.create(class, cells).map(Answer::Number),
        Operation::ClassOf { record } => store.class_of(record).map(Answer::Number),
        Operation::Read { record, cell } => store.read(record, cell).map(Answer::from),
        Operation::Write {
            record,
            cell,
            value,
        } => {
            store.write(record, cell, Value::Int(i32::from(value)))?;
            Some(Answer::Done)
        }
    }
}

// The answers of both stores to the same operation, on one line.
fn compare<S: Store, T: Store, W: Write>(
    out: &mut W,
    first: &mut S,
    second: &mut T,
    operation: Operation,
) -> io::Result<()> {
    let a = Reply(play(first, operation));
    let b = Reply(play(second, operation));
    writeln!(out, "{a} {b}")
}

fn main(rt: HostRuntime) -> anyhow::Result<()> {
    let heap = rt.alloc();
    let mut rows = Rows::<5, 12>::new(heap)?;
    let mut slips = Slips::<5, 12>::new(heap)?;
    let mut out = BufWriter::new(heap, rt.stdout())?;
    let mut dice = Dice { state: 2026 };
    for _ in 0..800 {
        let operation = dice.operation();
        compare(&mut out, &mut rows, &mut slips, operation)?;
    }
    out.flush()?;
    Ok(())
}
