// The children of declarations, each with what the shape of the table says of it.
#![tactic(auto)]

ghost use Rattle.std.specs.Prelude.{◌≡◌, ◌+◌, ◌-◌, ◌≤◌, [], ◌∷◌, length, MatchResult};
ghost use Rattle.std.specs.Iterator.{at_most};
ghost use Rattle.table.specs.Shape.{Formed, Refused, end_of};
ghost use Rattle.table.specs.View.{view, named_expression, named_instruction, Stand};
ghost use Rattle.table.specs.declared.view.Instruction.TheVariants.{Evaluate};
ghost use Rattle.table.specs.declared.kinds.Class.TheVariants.{Name, Expression as AnyExpression, Instruction as AnyInstruction, MainBlock, OneClass, OneField, OneMethod, OneParam, ListOf, Initializer, Body};
ghost use Rattle.table.specs.declared.kinds.Listed.TheVariants.{Classes, Fields, Methods, Params};
ghost use Rattle.table.specs.declared.view.View.TheVariants.{Program, List, Execute, DeclClass, DeclField, DeclMethod, DeclParam};
ghost use Rattle.parts.specs.OneFormed.{Formed-prop};
ghost use Rattle.parts.specs.Parts.{Is, IsList, Holds, symbol_at};

use table::kinds::Node;
use table::shape::{ShapeFault, check_shape, end_of};
use table::view::{Expression, Instruction, View, view_of};

// A batch whose shape was checked. Its places are plain numbers, and what stands at one is asked by a clause (`Is`): a type for each
// class of places would be as many types as classes, with every view generic over them.
#[derive(Clone, Copy)]
pub struct Shaped<'a> {
    pub nodes: &'a [Node],
    pub ghost formed: { Formed nodes.now } by { Formed-prop nodes.now },
}

// Where the elements of a list begin, and where the last ends. It is copied, as a Range of std cannot be.
#[derive(Clone, Copy)]
pub struct Span {
    pub first: usize,
    pub end: usize,
}

// The variants of View keep their fields apart, since the definitions of this and four more crates match on them, as
// `view T p ≡ DeclClass n s f m`. So the methods below copy what a variant has into one of these.
#[derive(Clone, Copy)]
pub struct ProgramParts {
    pub classes: usize,
    pub main: usize,
}

#[derive(Clone, Copy)]
pub struct ClassParts {
    pub name: usize,
    pub parent: usize,
    pub fields: usize,
    pub methods: usize,
}

#[derive(Clone, Copy)]
pub struct FieldParts {
    pub protected: bool,
    pub of: usize,
    pub name: usize,
    pub init: usize,
}

#[derive(Clone, Copy)]
pub struct MethodParts {
    pub result: usize,
    pub name: usize,
    pub params: usize,
    pub body: usize,
}

#[derive(Clone, Copy)]
pub struct ParamParts {
    pub of: usize,
    pub name: usize,
}

// The positions of the elements in a span, one after the other.
#[derive(Drop)]
pub struct Positions<'a> {
    pub batch: Shaped<'a>,
    pub next: usize,
    pub end: usize,
    pub ghost within: { end ≤ length batch.nodes.now },
}

impl<'a> Iterator for Positions<'a> {
    ghost use Rattle.parts.specs.Walk.{Steps};

    type Item = usize;

    ghost next_gives = { Steps };

    ghost remaining = { λ s. at_most (s.end - s.next) };

    fn next(&mut self) -> Option<usize> {
        let here = self.next;
        if here >= self.end {
            return None;
        }
        self.next = end_of(self.batch.nodes, here);
        Some(here)
    }
}

impl<'a> Shaped<'a> {
    ghost use Rattle.parts.specs.Walk.{Over};

    // Checks the shape of a batch.
    pub fn check(nodes: &'a [Node]) -> Result<Shaped<'a>, ShapeFault>
        ensures { MatchResult result (λ batch. batch.nodes.now ≡ nodes.now) (λ f. Refused nodes.now f) }
    {
        check_shape(nodes)?;
        Ok(Shaped { nodes })
    }

    // The positions of the elements in a span of the batch.
    pub fn positions(self, list: Span) -> Positions<'a>
        requires { list.end ≤ length self.nodes.now }
        ensures over { Over self.entry.nodes.now list.end result }
        ensures next { result.next ≡ list.first }
    {
        Positions {
            batch: self,
            next: list.first,
            end: list.end,
        }
    }

    // The symbol of the Identifier at `p`.
    pub fn symbol(self, p: usize) -> u16
        requires name { Is self.nodes.now Name p }
        ensures { result ≡ symbol_at self.entry.nodes.now p }
    {
        self.nodes[p].word as u16
    }

    // The elements of the List at `p`.
    pub fn elements(self, p: usize) -> Span
        requires list { IsList self.nodes.now p }
        ensures view { view self.entry.nodes.now p ≡ List result.first result.end }
        ensures first { result.first ≡ p + 1 }
        ensures end { result.end ≡ end_of self.entry.nodes.now p }
        ensures holds { Holds self.entry.nodes.now p result.first result.end }
    {
        Span {
            first: p + 1,
            end: end_of(self.nodes, p),
        }
    }

    // The instruction at `p`, with its children behind it in turn.
    pub fn instruction(self, p: usize) -> Instruction
        requires class { Is self.nodes.now AnyInstruction p }
        ensures view { view self.entry.nodes.now p ≡ Execute result }
        ensures stand { Stand self.entry.nodes.now (end_of self.entry.nodes.now p) (p + 1) (named_instruction result) }
    {
        match view_of(self.nodes, p) {
            View::Execute(found) => found,
            _ => unreachable(),
        }
    }

    // The expression at `p`, with its children behind it in turn.
    pub fn expression(self, p: usize) -> Expression
        requires class { Is self.nodes.now AnyExpression p }
        ensures view { view self.entry.nodes.now p ≡ Execute (Evaluate result) }
        ensures stand { Stand self.entry.nodes.now (end_of self.entry.nodes.now p) (p + 1) (named_expression result) }
    {
        match self.instruction(p) {
            Instruction::Evaluate(found) => found,
            _ => unreachable(),
        }
    }

    // The children of the Program at position 0.
    pub fn program(self) -> ProgramParts
        ensures view { view self.entry.nodes.now 0 ≡ Program result.classes result.main }
        ensures classes { Is self.entry.nodes.now (ListOf Classes) result.classes }
        ensures main { Is self.entry.nodes.now MainBlock result.main }
    {
        match view_of(self.nodes, 0) {
            View::Program { classes, main } => ProgramParts { classes, main },
            _ => unreachable(),
        }
    }

    // The children of the DeclClass at `p`.
    pub fn class(self, p: usize) -> ClassParts
        requires class { Is self.nodes.now OneClass p }
        ensures view { view self.entry.nodes.now p ≡ DeclClass result.name result.parent result.fields result.methods }
        ensures name { Is self.entry.nodes.now Name result.name }
        ensures parent { Is self.entry.nodes.now Name result.parent }
        ensures fields { Is self.entry.nodes.now (ListOf Fields) result.fields }
        ensures methods { Is self.entry.nodes.now (ListOf Methods) result.methods }
        ensures stand { Stand self.entry.nodes.now (end_of self.entry.nodes.now p) (p + 1) ((Name, result.name) ∷ (Name, result.parent) ∷ (ListOf Fields, result.fields) ∷ (ListOf Methods, result.methods) ∷ []) }
    {
        match view_of(self.nodes, p) {
            View::DeclClass {
                name,
                parent,
                fields,
                methods,
            } => ClassParts {
                name,
                parent,
                fields,
                methods,
            },
            _ => unreachable(),
        }
    }

    // The children of the DeclField at `p`.
    pub fn field(self, p: usize) -> FieldParts
        requires class { Is self.nodes.now OneField p }
        ensures view { view self.entry.nodes.now p ≡ DeclField result.protected result.of result.name result.init }
        ensures of { Is self.entry.nodes.now Name result.of }
        ensures name { Is self.entry.nodes.now Name result.name }
        ensures init { Is self.entry.nodes.now Initializer result.init }
    {
        match view_of(self.nodes, p) {
            View::DeclField {
                protected,
                of,
                name,
                init,
            } => FieldParts {
                protected,
                of,
                name,
                init,
            },
            _ => unreachable(),
        }
    }

    // The children of the DeclMethod at `p`.
    pub fn method(self, p: usize) -> MethodParts
        requires class { Is self.nodes.now OneMethod p }
        ensures view { view self.entry.nodes.now p ≡ DeclMethod result.result result.name result.params result.body }
        ensures result { Is self.entry.nodes.now Name result.result }
        ensures name { Is self.entry.nodes.now Name result.name }
        ensures params { Is self.entry.nodes.now (ListOf Params) result.params }
        ensures body { Is self.entry.nodes.now Body result.body }
    {
        match view_of(self.nodes, p) {
            View::DeclMethod {
                result,
                name,
                params,
                body,
            } => MethodParts {
                result,
                name,
                params,
                body,
            },
            _ => unreachable(),
        }
    }

    // The children of the DeclParam at `p`.
    pub fn param(self, p: usize) -> ParamParts
        requires class { Is self.nodes.now OneParam p }
        ensures view { view self.entry.nodes.now p ≡ DeclParam result.of result.name }
        ensures of { Is self.entry.nodes.now Name result.of }
        ensures name { Is self.entry.nodes.now Name result.name }
    {
        match view_of(self.nodes, p) {
            View::DeclParam { of, name } => ParamParts { of, name },
            _ => unreachable(),
        }
    }
}
