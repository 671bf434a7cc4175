// The 48 kinds of node: the children that each has and the word that it carries, as one table.
ghost use Rattle.std.specs.Prelude.{◌≡◌};
ghost use Rattle.table.specs.declared.kinds.Word.TheVariants.{Float};
ghost use Rattle.table.specs.Kinds.{admits, range, carries, between, fits, row_of, list_row_of, number_of, word_of, KindNumbered, ListWorded};

// The weight of the sign's bit among those of a float.
const SIGN: u64 = 0x8000_0000_0000_0000;

// The bits of the positive infinity: of those without a sign, they are the lowest that stand for no finite float.
const INFINITY: u64 = 0x7ff0_0000_0000_0000;

// A node of a batch, as it is handed in.
#[repr(C)]
#[derive(Clone, Copy)]
pub struct Node {
    pub kind: u8,
    pub size: u16,
    pub word: u64,
}

#[derive(Clone, Copy, PartialEq, Eq)]
pub enum Kind {
    Program = 1,
    List = 2,
    DeclClass = 3,
    DeclField = 4,
    DeclMethod = 5,
    DeclParam = 6,
    DeclVar = 7,
    Initialization = 8,
    NoInitialization = 9,
    MethodBody = 10,
    Main = 11,
    EmptyMain = 12,
    Print = 13,
    Println = 14,
    IfThenElse = 15,
    NoOperation = 16,
    Return = 17,
    While = 18,
    Assign = 19,
    Divide = 20,
    Minus = 21,
    Modulo = 22,
    Multiply = 23,
    Plus = 24,
    And = 25,
    Or = 26,
    Equals = 27,
    NotEquals = 28,
    Greater = 29,
    GreaterOrEquals = 30,
    Lower = 31,
    LowerOrEquals = 32,
    UnaryMinus = 33,
    Not = 34,
    ReadInt = 35,
    ReadFloat = 36,
    Cast = 37,
    InstanceOf = 38,
    MethodCall = 39,
    New = 40,
    This = 41,
    IntLiteral = 42,
    FloatLiteral = 43,
    StringLiteral = 44,
    BooleanLiteral = 45,
    NullLiteral = 46,
    Selection = 47,
    Identifier = 48,
}

// What a List holds: its word, 1 to 7.
#[derive(Clone, Copy)]
pub enum Listed {
    Classes = 1,
    Fields = 2,
    Methods = 3,
    Params = 4,
    Vars = 5,
    Instructions = 6,
    Expressions = 7,
}

// The nodes that may stand at one place among the children of a node.
#[derive(Clone, Copy)]
pub enum Class {
    // an Identifier that names something, a super-class or a type
    Name,
    Expression,
    Instruction,
    // what an assignment writes to: a Selection or an Identifier
    Target,
    // an Initialization or a NoInitialization
    Initializer,
    Body,
    // a Main or an EmptyMain
    MainBlock,
    OneClass,
    OneField,
    OneMethod,
    OneParam,
    OneVar,
    ListOf(Listed),
}

// The values that the word of a node may have.
#[derive(Clone, Copy)]
pub enum Word {
    Zero,
    // a symbol, 1 to 65,535
    Symbol,
    // 0 or 1
    Flag,
    // below 2^31
    Int,
    // the bits of a finite float of 64 bits
    Float,
    // below 65,536
    Text,
    // 1 to 7
    ListWord,
}

// A row of the table: a kind, the classes of its children in order, and the word that it carries.
// A List has the children that its word says (`LISTS`).
#[derive(Clone, Copy)]
pub(super) struct Row {
    pub kind: Kind,
    pub children: &'static [Class],
    pub word: Word,
}

// What a List with one of the seven words holds: at most `most` elements of one class.
#[derive(Clone, Copy)]
pub(super) struct ListRow {
    pub list: Listed,
    pub element: Class,
    pub most: usize,
}

#[rattlefmt::skip]
static ROWS: [Row; 48] = [
    Row { kind: Kind::Program, children: &[Class::ListOf(Listed::Classes), Class::MainBlock], word: Word::Zero },
    Row { kind: Kind::List, children: &[], word: Word::ListWord },
    Row { kind: Kind::DeclClass, children: &[Class::Name, Class::Name, Class::ListOf(Listed::Fields), Class::ListOf(Listed::Methods)], word: Word::Zero },
    Row { kind: Kind::DeclField, children: &[Class::Name, Class::Name, Class::Initializer], word: Word::Flag },
    Row { kind: Kind::DeclMethod, children: &[Class::Name, Class::Name, Class::ListOf(Listed::Params), Class::Body], word: Word::Zero },
    Row { kind: Kind::DeclParam, children: &[Class::Name, Class::Name], word: Word::Zero },
    Row { kind: Kind::DeclVar, children: &[Class::Name, Class::Name, Class::Initializer], word: Word::Zero },
    Row { kind: Kind::Initialization, children: &[Class::Expression], word: Word::Zero },
    Row { kind: Kind::NoInitialization, children: &[], word: Word::Zero },
    Row { kind: Kind::MethodBody, children: &[Class::ListOf(Listed::Vars), Class::ListOf(Listed::Instructions)], word: Word::Zero },
    Row { kind: Kind::Main, children: &[Class::ListOf(Listed::Vars), Class::ListOf(Listed::Instructions)], word: Word::Zero },
    Row { kind: Kind::EmptyMain, children: &[], word: Word::Zero },
    Row { kind: Kind::Print, children: &[Class::ListOf(Listed::Expressions)], word: Word::Zero },
    Row { kind: Kind::Println, children: &[Class::ListOf(Listed::Expressions)], word: Word::Zero },
    Row { kind: Kind::IfThenElse, children: &[Class::Expression, Class::ListOf(Listed::Instructions), Class::ListOf(Listed::Instructions)], word: Word::Zero },
    Row { kind: Kind::NoOperation, children: &[], word: Word::Zero },
    Row { kind: Kind::Return, children: &[Class::Expression], word: Word::Zero },
    Row { kind: Kind::While, children: &[Class::Expression, Class::ListOf(Listed::Instructions)], word: Word::Zero },
    Row { kind: Kind::Assign, children: &[Class::Target, Class::Expression], word: Word::Zero },
    Row { kind: Kind::Divide, children: &[Class::Expression, Class::Expression], word: Word::Zero },
    Row { kind: Kind::Minus, children: &[Class::Expression, Class::Expression], word: Word::Zero },
    Row { kind: Kind::Modulo, children: &[Class::Expression, Class::Expression], word: Word::Zero },
    Row { kind: Kind::Multiply, children: &[Class::Expression, Class::Expression], word: Word::Zero },
    Row { kind: Kind::Plus, children: &[Class::Expression, Class::Expression], word: Word::Zero },
    Row { kind: Kind::And, children: &[Class::Expression, Class::Expression], word: Word::Zero },
    Row { kind: Kind::Or, children: &[Class::Expression, Class::Expression], word: Word::Zero },
    Row { kind: Kind::Equals, children: &[Class::Expression, Class::Expression], word: Word::Zero },
    Row { kind: Kind::NotEquals, children: &[Class::Expression, Class::Expression], word: Word::Zero },
    Row { kind: Kind::Greater, children: &[Class::Expression, Class::Expression], word: Word::Zero },
    Row { kind: Kind::GreaterOrEquals, children: &[Class::Expression, Class::Expression], word: Word::Zero },
    Row { kind: Kind::Lower, children: &[Class::Expression, Class::Expression], word: Word::Zero },
    Row { kind: Kind::LowerOrEquals, children: &[Class::Expression, Class::Expression], word: Word::Zero },
    Row { kind: Kind::UnaryMinus, children: &[Class::Expression], word: Word::Zero },
    Row { kind: Kind::Not, children: &[Class::Expression], word: Word::Zero },
    Row { kind: Kind::ReadInt, children: &[], word: Word::Zero },
    Row { kind: Kind::ReadFloat, children: &[], word: Word::Zero },
    Row { kind: Kind::Cast, children: &[Class::Name, Class::Expression], word: Word::Zero },
    Row { kind: Kind::InstanceOf, children: &[Class::Expression, Class::Name], word: Word::Zero },
    Row { kind: Kind::MethodCall, children: &[Class::Expression, Class::Name, Class::ListOf(Listed::Expressions)], word: Word::Zero },
    Row { kind: Kind::New, children: &[Class::Name], word: Word::Zero },
    Row { kind: Kind::This, children: &[], word: Word::Zero },
    Row { kind: Kind::IntLiteral, children: &[], word: Word::Int },
    Row { kind: Kind::FloatLiteral, children: &[], word: Word::Float },
    Row { kind: Kind::StringLiteral, children: &[], word: Word::Text },
    Row { kind: Kind::BooleanLiteral, children: &[], word: Word::Flag },
    Row { kind: Kind::NullLiteral, children: &[], word: Word::Zero },
    Row { kind: Kind::Selection, children: &[Class::Expression, Class::Name], word: Word::Zero },
    Row { kind: Kind::Identifier, children: &[], word: Word::Symbol },
];

#[rattlefmt::skip]
static LISTS: [ListRow; 7] = [
    ListRow { list: Listed::Classes, element: Class::OneClass, most: 31 },
    ListRow { list: Listed::Fields, element: Class::OneField, most: 16 },
    ListRow { list: Listed::Methods, element: Class::OneMethod, most: 16 },
    ListRow { list: Listed::Params, element: Class::OneParam, most: 8 },
    ListRow { list: Listed::Vars, element: Class::OneVar, most: 24 },
    ListRow { list: Listed::Instructions, element: Class::Instruction, most: 64 },
    ListRow { list: Listed::Expressions, element: Class::Expression, most: 16 },
];

// A number that no kind has, or a word that no List has.
#[derive(Clone, Copy, Debug, PartialEq, Eq)]
pub struct Unknown<N>(pub N);

impl TryFrom<u8> for Kind {
    type Error = Unknown<u8>;

    ghost try_from_gives = { KindNumbered };

    fn try_from(number: u8) -> Result<Kind, Unknown<u8>> {
        match number {
            1..=48 => Ok(ROWS[usize::from(number) - 1].kind),
            _ => Err(Unknown(number)),
        }
    }
}

impl From<Kind> for u8 {
    ghost from_gives = { λ kind number. number ≡ number_of kind };

    fn from(kind: Kind) -> u8 {
        kind as u8
    }
}

impl Kind {
    pub(super) fn row(self) -> Row
        ensures kind { result.kind ≡ (row_of (number_of self)).kind }
        ensures children { result.children.now ≡ (row_of (number_of self)).children }
        ensures word { result.word ≡ (row_of (number_of self)).word }
    {
        ROWS[usize::from(u8::from(self)) - 1]
    }
}

// A kind and what a List holds share the traits of std; a table generic over both would be a third trait with two impls, and longer.
impl TryFrom<u64> for Listed {
    type Error = Unknown<u64>;

    ghost try_from_gives = { ListWorded };

    fn try_from(word: u64) -> Result<Listed, Unknown<u64>> {
        match word {
            1..=7 => Ok(LISTS[word as usize - 1].list),
            _ => Err(Unknown(word)),
        }
    }
}

impl From<Listed> for u64 {
    ghost from_gives = { λ list word. word ≡ word_of list };

    fn from(list: Listed) -> u64 {
        list as u64
    }
}

impl Listed {
    pub(super) fn row(self) -> ListRow
        ensures { result ≡ list_row_of (word_of self) }
    {
        LISTS[self as usize - 1]
    }
}

impl Node {
    fn is_between(self, low: Kind, high: Kind) -> bool
        ensures { result ≡ between (number_of low) (number_of high) self.kind }
    {
        (u8::from(low)..=u8::from(high)).contains(&self.kind)
    }
}

impl Class {
    // The first and the last kind.
    fn range(self) -> (Kind, Kind)
        ensures { result ≡ range self }
    {
        match self {
            Class::Name => (Kind::Identifier, Kind::Identifier),
            Class::Expression => (Kind::Assign, Kind::Identifier),
            Class::Instruction => (Kind::Print, Kind::Identifier),
            Class::Target => (Kind::Selection, Kind::Identifier),
            Class::Initializer => (Kind::Initialization, Kind::NoInitialization),
            Class::Body => (Kind::MethodBody, Kind::MethodBody),
            Class::MainBlock => (Kind::Main, Kind::EmptyMain),
            Class::OneClass => (Kind::DeclClass, Kind::DeclClass),
            Class::OneField => (Kind::DeclField, Kind::DeclField),
            Class::OneMethod => (Kind::DeclMethod, Kind::DeclMethod),
            Class::OneParam => (Kind::DeclParam, Kind::DeclParam),
            Class::OneVar => (Kind::DeclVar, Kind::DeclVar),
            Class::ListOf(_) => (Kind::List, Kind::List),
        }
    }

    // Whether a node of those kinds may have that word here.
    fn carries(self, word: u64) -> bool
        ensures { result ≡ carries self word }
    {
        match self {
            Class::ListOf(list) => word == u64::from(list),
            _ => true,
        }
    }

    pub(super) fn admits(self, node: Node) -> bool
        ensures { result ≡ admits self node }
    {
        let (low, high) = self.range();
        node.is_between(low, high) && self.carries(node.word)
    }
}

// Whether the bits stand for a finite float.
pub fn is_finite(bits: u64) -> bool
    ensures { result ≡ fits Float bits }
{
    bits % SIGN < INFINITY
}

impl Word {
    pub(super) fn allows(self, word: u64) -> bool
        ensures { result ≡ fits self word }
    {
        match self {
            Word::Zero => word == 0,
            Word::Symbol => word != 0 && u16::try_from(word).is_ok(),
            Word::Flag => word <= 1,
            Word::Int => i32::try_from(word).is_ok(),
            Word::Float => is_finite(word),
            Word::Text => u16::try_from(word).is_ok(),
            Word::ListWord => Listed::try_from(word).is_ok(),
        }
    }
}
