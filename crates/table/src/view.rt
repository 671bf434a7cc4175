// The view of a node: its kind with the places of its children, as a later pass wants to match on it.
ghost use Rattle.std.specs.Prelude.{◌≡◌, ◌+◌, ◌<◌, ◌≤◌, true, List, ◌++◌, length, ◌≢◌};
ghost use Rattle.table.specs.declared.kinds.Node.{Node};
ghost use Rattle.table.specs.Shape.{Laid, Worded, node_at, end_of};
ghost use Rattle.table.specs.View.{view, moved, named, Stand, head_of};
ghost use Rattle.table.specs.Kinds.{row_of, number_of, fits};

use self::Instruction::Evaluate;
use self::View::Execute;
use super::kinds::{Kind, Node};
use super::shape::{Front, end_of};

#[derive(Clone, Copy)]
pub enum BinaryOp {
    Divide,
    Minus,
    Modulo,
    Multiply,
    Plus,
    And,
    Or,
    Equals,
    NotEquals,
    Greater,
    GreaterOrEquals,
    Lower,
    LowerOrEquals,
}

#[derive(Clone, Copy)]
pub enum UnaryOp {
    Minus,
    Not,
}

// An expression. Each number but that of a literal or a symbol is the place of a child.
#[rattlefmt::skip]
#[derive(Clone, Copy)]
pub enum Expression {
    Assign { target: usize, value: usize },
    Binary { op: BinaryOp, left: usize, right: usize },
    Unary { op: UnaryOp, operand: usize },
    ReadInt,
    ReadFloat,
    Cast { to: usize, value: usize },
    InstanceOf { value: usize, class: usize },
    MethodCall { receiver: usize, method: usize, args: usize },
    New { class: usize },
    This,
    IntLiteral { value: u32 },
    FloatLiteral { bits: u64 },
    StringLiteral { number: u16 },
    BooleanLiteral { value: bool },
    NullLiteral,
    Selection { object: usize, field: usize },
    Identifier { symbol: u16 },
}

#[rattlefmt::skip]
#[derive(Clone, Copy)]
pub enum Instruction {
    Print { args: usize },
    Println { args: usize },
    IfThenElse { condition: usize, then: usize, otherwise: usize },
    NoOperation,
    Return { value: usize },
    While { condition: usize, body: usize },
    Evaluate(Expression),
}

#[rattlefmt::skip]
#[derive(Clone, Copy)]
pub enum View {
    Program { classes: usize, main: usize },
    // the elements follow one another from `first` to `end`
    List { first: usize, end: usize },
    DeclClass { name: usize, parent: usize, fields: usize, methods: usize },
    DeclField { protected: bool, of: usize, name: usize, init: usize },
    DeclMethod { result: usize, name: usize, params: usize, body: usize },
    DeclParam { of: usize, name: usize },
    DeclVar { of: usize, name: usize, init: usize },
    Initialization { value: usize },
    NoInitialization,
    MethodBody { vars: usize, instructions: usize },
    Main { vars: usize, instructions: usize },
    EmptyMain,
    Execute(Instruction),
    // no node of a known kind: `view` of the specs is total, so that clauses name a view with no Some in front;
    // `view_of` never gives it
    Nothing,
}

// The places of at most four children, and of the end of the node's part.
#[derive(Clone, Copy)]
struct Places {
    a: usize,
    b: usize,
    c: usize,
    d: usize,
    end: usize,
}

// The view of a node with that kind and word, and with its children at those places: an arm for each kind, as the definition has an
// entry for each.
#[rattlefmt::skip]
fn head(kind: Kind, word: u64, at: Places) -> View
    requires { fits (row_of (number_of kind)).word word ≡ true }
    ensures { result ≡ head_of (number_of kind) word at.a at.b at.c at.d at.end }
{
    let Places { a, b, c, d, end } = at;
    match kind {
        Kind::Program => View::Program { classes: a, main: b },
        Kind::List => View::List { first: a, end },
        Kind::DeclClass => View::DeclClass { name: a, parent: b, fields: c, methods: d },
        Kind::DeclField => View::DeclField { protected: word == 1, of: a, name: b, init: c },
        Kind::DeclMethod => View::DeclMethod { result: a, name: b, params: c, body: d },
        Kind::DeclParam => View::DeclParam { of: a, name: b },
        Kind::DeclVar => View::DeclVar { of: a, name: b, init: c },
        Kind::Initialization => View::Initialization { value: a },
        Kind::NoInitialization => View::NoInitialization,
        Kind::MethodBody => View::MethodBody { vars: a, instructions: b },
        Kind::Main => View::Main { vars: a, instructions: b },
        Kind::EmptyMain => View::EmptyMain,
        Kind::Print => Execute(Instruction::Print { args: a }),
        Kind::Println => Execute(Instruction::Println { args: a }),
        Kind::IfThenElse => Execute(Instruction::IfThenElse { condition: a, then: b, otherwise: c }),
        Kind::NoOperation => Execute(Instruction::NoOperation),
        Kind::Return => Execute(Instruction::Return { value: a }),
        Kind::While => Execute(Instruction::While { condition: a, body: b }),
        Kind::Assign => Execute(Evaluate(Expression::Assign { target: a, value: b })),
        Kind::Divide => Execute(Evaluate(Expression::Binary { op: BinaryOp::Divide, left: a, right: b })),
        Kind::Minus => Execute(Evaluate(Expression::Binary { op: BinaryOp::Minus, left: a, right: b })),
        Kind::Modulo => Execute(Evaluate(Expression::Binary { op: BinaryOp::Modulo, left: a, right: b })),
        Kind::Multiply => Execute(Evaluate(Expression::Binary { op: BinaryOp::Multiply, left: a, right: b })),
        Kind::Plus => Execute(Evaluate(Expression::Binary { op: BinaryOp::Plus, left: a, right: b })),
        Kind::And => Execute(Evaluate(Expression::Binary { op: BinaryOp::And, left: a, right: b })),
        Kind::Or => Execute(Evaluate(Expression::Binary { op: BinaryOp::Or, left: a, right: b })),
        Kind::Equals => Execute(Evaluate(Expression::Binary { op: BinaryOp::Equals, left: a, right: b })),
        Kind::NotEquals => Execute(Evaluate(Expression::Binary { op: BinaryOp::NotEquals, left: a, right: b })),
        Kind::Greater => Execute(Evaluate(Expression::Binary { op: BinaryOp::Greater, left: a, right: b })),
        Kind::GreaterOrEquals => Execute(Evaluate(Expression::Binary { op: BinaryOp::GreaterOrEquals, left: a, right: b })),
        Kind::Lower => Execute(Evaluate(Expression::Binary { op: BinaryOp::Lower, left: a, right: b })),
        Kind::LowerOrEquals => Execute(Evaluate(Expression::Binary { op: BinaryOp::LowerOrEquals, left: a, right: b })),
        Kind::UnaryMinus => Execute(Evaluate(Expression::Unary { op: UnaryOp::Minus, operand: a })),
        Kind::Not => Execute(Evaluate(Expression::Unary { op: UnaryOp::Not, operand: a })),
        Kind::ReadInt => Execute(Evaluate(Expression::ReadInt)),
        Kind::ReadFloat => Execute(Evaluate(Expression::ReadFloat)),
        Kind::Cast => Execute(Evaluate(Expression::Cast { to: a, value: b })),
        Kind::InstanceOf => Execute(Evaluate(Expression::InstanceOf { value: a, class: b })),
        Kind::MethodCall => Execute(Evaluate(Expression::MethodCall { receiver: a, method: b, args: c })),
        Kind::New => Execute(Evaluate(Expression::New { class: a })),
        Kind::This => Execute(Evaluate(Expression::This)),
        Kind::IntLiteral => Execute(Evaluate(Expression::IntLiteral { value: word as u32 })),
        Kind::FloatLiteral => Execute(Evaluate(Expression::FloatLiteral { bits: word })),
        Kind::StringLiteral => Execute(Evaluate(Expression::StringLiteral { number: word as u16 })),
        Kind::BooleanLiteral => Execute(Evaluate(Expression::BooleanLiteral { value: word == 1 })),
        Kind::NullLiteral => Execute(Evaluate(Expression::NullLiteral)),
        Kind::Selection => Execute(Evaluate(Expression::Selection { object: a, field: b })),
        Kind::Identifier => Execute(Evaluate(Expression::Identifier { symbol: word as u16 })),
    }
}

// The view of the node at `p`. It names the node's children, each at its place, and of a List where its
// elements begin and end.
// Wherever the table is put, with other nodes before and behind it, the node has this view there, moved along.
pub fn view_of(nodes: &[Node], p: usize) -> View
    requires within { p < length nodes.now }
    requires laid { Laid nodes.now p }
    requires worded { Worded (node_at nodes.now p) }
    ensures value { result ≡ view nodes.now p }
    ensures children { ((node_at nodes.now p).kind ≢ 2) → Stand nodes.now (end_of nodes.now p) (p + 1) (named result) }
    ensures elements { (node_at nodes.now p).kind ≡ 2 → result ≡ View.List (p + 1) (end_of nodes.now p) }
    ensures moves { (before behind : List Node) → view (before ++ (nodes.now ++ behind)) (length before + p) ≡ moved (length before) result }
{
    let node = nodes[p];
    let kind = Kind::try_from(node.kind).unwrap();
    let end = end_of(nodes, p);
    let front = Front { nodes, end };
    let b = front.past(p + 1);
    let c = front.past(b);
    let d = front.past(c);
    head(
        kind,
        node.word,
        Places {
            a: p + 1,
            b,
            c,
            d,
            end,
        },
    )
}
