// A job as it is played: byte by byte in, answer by answer out.
ghost use Rattle.std.specs.Prelude.{◌≡◌, List, [], length, IfOk, None, MatchBool, ◌==◌, nat_lt};
ghost use Rattle.job.specs.Play.{Holds, Replies, after};
ghost use Rattle.table.specs.declared.kinds.Node.{Node};
ghost use Rattle.job.specs.Sessions.{front_of, Stands, Longer, Ended};

use super::answer::Answer;
use super::command::{Command, LONGEST_LINE, read_line};
use super::reserved::Reserved;
use std::alloc::{AllocError, Global};
use table::kinds::Node;
use table::shape::{MOST_NODES, check_shape};

// With one byte more than it may have, a line is too long whatever follows.
const LINE_ROOM: usize = LONGEST_LINE + 1;

// With one node more than it may have, a batch is refused for its length whatever follows.
const BATCH_ROOM: usize = MOST_NODES + 1;

#[derive(Drop)]
pub struct Session {
    line: Reserved<u8, LINE_ROOM>,
    batch: Reserved<Node, BATCH_ROOM>,
    // how many lines have ended
    ended: u64,
}

impl Session {
    pub fn new(heap: Global) -> Result<Session, AllocError>
        ensures { IfOk result (λ s. (s.ended ≡ 0) × Stands s [] []) }
    {
        let line = Reserved::new(heap)?;
        let batch = Reserved::new(heap)?;
        Ok(Session {
            line,
            batch,
            ended: 0,
        })
    }

    // Takes the next byte of the job. A newline ends a line.
    pub fn take_byte(&mut self, byte: u8) -> Option<Answer>
        ensures { MatchBool (byte == 10) (Ended self.old result self.new) ((result ≡ None) × Longer self.old byte self.new) }
    {
        if byte == b'\n' {
            return self.end_line();
        }
        self.line.push(byte);
        None
    }

    // Ends the job. Its last line needs no newline.
    pub fn finish(&mut self) -> Option<Answer>
        ensures { MatchBool (nat_lt 0 (length (front_of self.old))) (Ended self.old result self.new) ((result ≡ None) × (self.new ≡ self.old)) }
    {
        if self.line.as_slice().is_empty() {
            return None;
        }
        self.end_line()
    }

    // Plays the line, and goes on to the next.
    fn end_line(&mut self) -> Option<Answer>
        ensures { Ended self.old result self.new }
    {
        self.ended = self.ended.saturating_add(1);
        let command = read_line(self.line.as_slice());
        self.line.clear();
        match command {
            Ok(command) => self.obey(command?),
            Err(wrong) => Some(Answer::Line {
                number: self.ended,
                wrong,
            }),
        }
    }

    // Does what a command says.
    fn obey(&mut self, command: Command) -> Option<Answer>
        ensures replies { (written : List Node) → Holds self.old.batch written → Replies command written result }
        ensures holds { (written : List Node) → Holds self.old.batch written → Holds self.new.batch (after command written) }
        ensures same_line { self.new.line ≡ self.old.line }
        ensures same_count { self.new.ended ≡ self.old.ended }
    {
        match command {
            Command::Node(node) => {
                self.batch.push(node);
                None
            }
            Command::Shape => {
                let shape = check_shape(self.batch.as_slice());
                self.batch.clear();
                Some(Answer::Shape(shape))
            }
        }
    }
}
