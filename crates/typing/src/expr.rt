// Pass three: expressions. The functions for an expression, a left side, a value and a call lead to one another in a circle, each
// time to a smaller part.
ghost use Rattle.std.specs.Prelude.{◌<◌, length};
ghost use Rattle.table.specs.declared.kinds.Class.TheVariants.{Target, Expression as AnyExpression};
ghost use Rattle.table.specs.declared.view.Expression.TheVariants.{Assign, Binary, Unary, Cast, InstanceOf, MethodCall, New, This, Selection, Identifier};
ghost use Rattle.parts.specs.Parts.{Is, RowOf};
ghost use Rattle.typing.specs.Expressions.{Expr, typed, types_of};
ghost use Rattle.typing.specs.Checked.{IsExpr, ArgsAnswer};
ghost use Rattle.typing.specs.Checking.{batch, held, around, Stays, ExprFound, LvalueFound, RvalueFound};

use super::checker::Checker;
use grammar::fault::{Rule, RuleFault};
use library::definition::{Nature, Signature};
use parts::Span;
use table::view::{BinaryOp, Expression, UnaryOp};
use types::operators::{allows_instance_of, binary_type, unary_type};
use values::types::Type;

impl Checker<'_> {
    // An Identifier: a field, a parameter or a variable that is in view.
    fn name(&mut self, p: usize, symbol: u16) -> Result<Type, RuleFault>
        requires { IsExpr (batch self.old) p (Identifier symbol) }
        ensures stays { Stays self.old self.new }
        ensures answer { LvalueFound self.old self.new p result }
    {
        let found = self.definition_named(symbol).ok_or(Rule::Identifier.at(p))?;
        if !found.nature.is_variable() {
            return Err(Rule::Variable.at(p));
        }
        self.define(p, found);
        Ok(found.of)
    }

    // The object itself, of the class around.
    fn this(&mut self, p: usize) -> Result<Type, RuleFault>
        requires { IsExpr (batch self.old) p This }
        ensures stays { Stays self.old self.new }
        ensures answer { ExprFound self.old self.new p result }
    {
        let class = self.scene.class.ok_or(Rule::This.at(p))?;
        Ok(self.note(p, Type::Class(class)))
    }

    // A new object.
    fn new(&mut self, p: usize, class: usize) -> Result<Type, RuleFault>
        requires { IsExpr (batch self.old) p (New class) }
        ensures stays { Stays self.old self.new }
        ensures answer { ExprFound self.old self.new p result }
    {
        let of = self.type_at(class)?;
        self.note(class, of);
        let Type::Class(_) = of else {
            return Err(Rule::New.at(p));
        };
        Ok(self.note(p, of))
    }

    // A unary operator and its operand.
    #[cycle(expressions)]
    fn unary(&mut self, p: usize, op: UnaryOp, operand: usize) -> Result<Type, RuleFault>
        requires { IsExpr (batch self.old) p (Unary op operand) }
        ensures stays { Stays self.old self.new }
        ensures answer { ExprFound self.old self.new p result }
    {
        let of = self.expr(operand)?;
        let found = unary_type(op, of).ok_or(Rule::Unary.at(p))?;
        Ok(self.note(p, found))
    }

    // A binary operator and its operands.
    #[cycle(expressions)]
    fn binary(
        &mut self,
        p: usize,
        op: BinaryOp,
        left: usize,
        right: usize,
    ) -> Result<Type, RuleFault>
        requires { IsExpr (batch self.old) p (Binary op left right) }
        ensures stays { Stays self.old self.new }
        ensures answer { ExprFound self.old self.new p result }
    {
        let first = self.expr(left)?;
        let second = self.expr(right)?;
        let found = binary_type(op, first, second).ok_or(Rule::Binary.at(p))?;
        Ok(self.note(p, found))
    }

    // An assignment.
    #[cycle(expressions)]
    fn assign(&mut self, p: usize, target: usize, value: usize) -> Result<Type, RuleFault>
        requires { IsExpr (batch self.old) p (Assign target value) }
        ensures stays { Stays self.old self.new }
        ensures answer { ExprFound self.old self.new p result }
    {
        let of = self.lvalue(target)?;
        self.rvalue(value, of)?;
        Ok(self.note(p, of))
    }

    // A value that is converted to a type.
    #[cycle(expressions)]
    fn cast(&mut self, p: usize, to: usize, value: usize) -> Result<Type, RuleFault>
        requires { IsExpr (batch self.old) p (Cast to value) }
        ensures stays { Stays self.old self.new }
        ensures answer { ExprFound self.old self.new p result }
    {
        let of = self.type_at(to)?;
        self.note(to, of);
        let from = self.expr(value)?;
        if !self.hierarchy().is_castable(from, of) {
            return Err(Rule::Cast.at(p));
        }
        Ok(self.note(p, of))
    }

    // Whether a value is an object of a class.
    #[cycle(expressions)]
    fn instance_of(&mut self, p: usize, value: usize, class: usize) -> Result<Type, RuleFault>
        requires { IsExpr (batch self.old) p (InstanceOf value class) }
        ensures stays { Stays self.old self.new }
        ensures answer { ExprFound self.old self.new p result }
    {
        let of = self.expr(value)?;
        let asked = self.type_at(class)?;
        self.note(class, asked);
        if !allows_instance_of(of, asked) {
            return Err(Rule::InstanceOf.at(p));
        }
        Ok(self.note(p, Type::Boolean))
    }

    // A field of an object.
    #[cycle(expressions)]
    fn selection(&mut self, p: usize, object: usize, field: usize) -> Result<Type, RuleFault>
        requires { IsExpr (batch self.old) p (Selection object field) }
        ensures stays { Stays self.old self.new }
        ensures answer { LvalueFound self.old self.new p result }
    {
        let Type::Class(class) = self.expr(object)? else {
            return Err(Rule::Selection.at(p));
        };
        let found = self.member_at(class, field)?.definition;
        if !found.nature.is_field() {
            return Err(Rule::FieldName.at(field));
        }
        self.define(field, found);
        if !self.may_select(class, found.nature) {
            return Err(Rule::Protected.at(p));
        }
        Ok(self.note(p, found.of))
    }

    // The left side of an assignment.
    #[cycle(expressions)]
    fn lvalue(&mut self, p: usize) -> Result<Type, RuleFault>
        requires { Is (batch self.old) Target p }
        ensures stays { Stays self.old self.new }
        ensures answer { LvalueFound self.old self.new p result }
    {
        match self.scene.batch.expression(p) {
            Expression::Identifier { symbol } => self.name(p, symbol),
            Expression::Selection { object, field } => self.selection(p, object, field),
            _ => unreachable(),
        }
    }

    // A value that goes where the type `want` is declared.
    #[cycle(expressions)]
    pub fn rvalue(&mut self, p: usize, want: Type) -> Result<(), RuleFault>
        requires { Is (batch self.old) AnyExpression p }
        ensures stays { Stays self.old self.new }
        ensures answer { RvalueFound self.old self.new want p result }
    {
        let of = self.expr(p)?;
        if !self.hierarchy().is_assignable(want, of) {
            return Err(Rule::Assigned.at(p));
        }
        Ok(())
    }

    // The arguments of the call at `p`, one for each parameter.
    #[cycle(expressions)]
    fn arguments(&mut self, p: usize, list: Span, signature: Signature) -> Result<(), RuleFault>
        requires { RowOf (batch self.old) AnyExpression list.first list.end }
        ensures stays { Stays self.old self.new }
        ensures answer { ArgsAnswer (batch self.old) (around self.old) self.old.scene.kept p list.end (types_of signature) list.first (held self.old) (held self.new) result }
    {
        // No zip: which of both ends first tells a missing argument from an extra one.
        let mut positions = self.scene.batch.positions(list);
        for of in &signature.types[..signature.count.min(8)] {
            let next = positions.next().ok_or(Rule::MissingArgument.at(p))?;
            self.rvalue(next, *of)?;
        }
        match positions.next() {
            Some(extra) => Err(Rule::ExtraArgument.at(extra)),
            None => Ok(()),
        }
    }

    // A call of a method that the class of the receiver has.
    #[cycle(expressions)]
    fn method_call(
        &mut self,
        p: usize,
        receiver: usize,
        method: usize,
        args: usize,
    ) -> Result<Type, RuleFault>
        requires { IsExpr (batch self.old) p (MethodCall receiver method args) }
        ensures stays { Stays self.old self.new }
        ensures answer { ExprFound self.old self.new p result }
    {
        let Type::Class(class) = self.expr(receiver)? else {
            return Err(Rule::MethodCall.at(p));
        };
        let found = self.member_at(class, method)?.definition;
        let Nature::Method(signature) = found.nature else {
            return Err(Rule::MethodName.at(method));
        };
        self.define(method, found);
        self.arguments(p, self.scene.batch.elements(args), signature)?;
        Ok(self.note(p, found.of))
    }

    // A node that has a type by itself.
    fn literal(&mut self, p: usize, of: Type) -> Result<Type, RuleFault>
        requires within { p < length (batch self.old) }
        requires holds { Expr (batch self.old) (around self.old) p of (typed p of) }
        ensures stays { Stays self.old self.new }
        ensures answer { ExprFound self.old self.new p result }
    {
        Ok(self.note(p, of))
    }

    // An expression. Arms that are alike stay apart: each is a rule of its own.
    #[cycle(expressions)]
    pub fn expr(&mut self, p: usize) -> Result<Type, RuleFault>
        requires { Is (batch self.old) AnyExpression p }
        ensures stays { Stays self.old self.new }
        ensures answer { ExprFound self.old self.new p result }
    {
        match self.scene.batch.expression(p) {
            Expression::Assign { target, value } => self.assign(p, target, value),
            Expression::Binary { op, left, right } => self.binary(p, op, left, right),
            Expression::Unary { op, operand } => self.unary(p, op, operand),
            Expression::ReadInt => self.literal(p, Type::Int),
            Expression::ReadFloat => self.literal(p, Type::Float),
            Expression::Cast { to, value } => self.cast(p, to, value),
            Expression::InstanceOf { value, class } => self.instance_of(p, value, class),
            Expression::MethodCall {
                receiver,
                method,
                args,
            } => self.method_call(p, receiver, method, args),
            Expression::New { class } => self.new(p, class),
            Expression::This => self.this(p),
            Expression::IntLiteral { .. } => self.literal(p, Type::Int),
            Expression::FloatLiteral { .. } => self.literal(p, Type::Float),
            Expression::StringLiteral { .. } => self.literal(p, Type::String),
            Expression::BooleanLiteral { .. } => self.literal(p, Type::Boolean),
            Expression::NullLiteral => self.literal(p, Type::Null),
            Expression::Selection { object, field } => self.selection(p, object, field),
            Expression::Identifier { symbol } => self.name(p, symbol),
        }
    }
}
