// Plays the job on standard input, and prints its answers.
#![tactic(auto)]

use job::answer::Answer;
use job::session::Session;
use std::io;
use std::io::{BufWriter, Read, Write};

fn main(rt: HostRuntime) -> io::Result<()> {
    let mut session = Session::new(rt.alloc())?;
    let mut input = rt.stdin();
    let mut out = BufWriter::new(rt.alloc(), rt.stdout())?;
    for _ in 0..u64::MAX {
        if !play_chunk(&mut session, &mut input, &mut out)? {
            break;
        }
    }
    print_answer(&mut out, session.finish())?;
    out.flush()
}

// Plays what the input has at hand, and says whether there may be more. By pieces on the stack: a `BufReader` allocates, and
// with `bytes()` a job takes longer than by pieces (docs/DESIGN-PASS.md).
fn play_chunk<R: Read, W: Write>(
    session: &mut Session,
    input: &mut R,
    out: &mut W,
) -> io::Result<bool> {
    let mut chunk = [0u8; 4096];
    let n = input.read(&mut chunk)?;
    for byte in &chunk[..n] {
        print_answer(out, session.take_byte(*byte))?;
    }
    Ok(n > 0)
}

fn print_answer<W: Write>(out: &mut W, answer: Option<Answer>) -> io::Result<()> {
    match answer {
        Some(answer) => writeln!(out, "{answer}"),
        None => Ok(()),
    }
}
