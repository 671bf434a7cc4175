// The commands of a job, and how a line says one.
ghost use Rattle.std.specs.Prelude.{◌≡◌};
ghost use Rattle.job.specs.Commands.{line_of, command_of, node_of, node_by};

use super::number::decimal;
use super::words::Words;
use super::wrong::Wrong;
use table::kinds::Node;

// The most bytes that a line may have.
pub const LONGEST_LINE: usize = 65536;

#[derive(Clone, Copy)]
pub enum Command {
    // adds a node to the batch
    Node(Node),
    // checks the shape of the batch, and starts an empty one
    Shape,
}

// The command that a line says, if it has words.
pub fn read_line(line: &[u8]) -> Result<Option<Command>, Wrong>
    ensures { result ≡ line_of line.now }
{
    if line.len() > LONGEST_LINE {
        return Err(Wrong::LineTooLong);
    }
    read_command(&mut Words::new(line))
}

// The command of which these are the words.
fn read_command(words: &mut Words) -> Result<Option<Command>, Wrong>
    ensures { result ≡ command_of words.old }
{
    let Some(name) = words.next() else {
        return Ok(None);
    };
    let command = match name {
        b"node" => Command::Node(read_node(words)?),
        b"shape" => {
            words.end()?;
            Command::Shape
        }
        _ => return Err(Wrong::UnknownCommand),
    };
    Ok(Some(command))
}

// The node whose kind, size and word are the words that are left.
fn read_node(words: &mut Words) -> Result<Node, Wrong>
    ensures { result ≡ node_of words.old }
{
    let kind = words.needed_word()?;
    let size = words.needed_word()?;
    let word = words.needed_word()?;
    words.end()?;
    node_by(kind, size, word)
}

// The node of three numbers, each of which fits its place.
fn node_by(kind: &[u8], size: &[u8], word: &[u8]) -> Result<Node, Wrong>
    ensures { result ≡ node_by kind.now size.now word.now }
{
    let kind = decimal(kind)?;
    let size = decimal(size)?;
    let word = decimal(word)?;
    Ok(Node { kind, size, word })
}
