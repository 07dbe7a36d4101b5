//! What stands at a node of a tree: a variant a production.

use crate::operator::{AssignOperator, BinaryOperator, UnaryOperator, UpdateOperator};
use crate::part::{Binding, ConstBinding, Named, Property};
use snap_base::Items;
use snap_text::Units;
use sqlite_items::Boxed;

/// The production of a node, with the numbers of its children, its names and literals.
#[derive(Debug, Drop)]
pub enum Form {
    /// `let Binding (, Binding)* ;`, with one binding at least.
    Let {
        /// In order.
        bindings: Items<Binding>,
    },
    /// `const ConstBinding (, ConstBinding)* ;`, with one binding at least.
    Const {
        /// In order.
        bindings: Items<ConstBinding>,
    },
    /// `function Name ( List(Name) ) { Statement* }` as a statement.
    Function {
        /// The name that is declared.
        name: Boxed<Named>,
        /// The parameters, in order.
        parameters: Items<Named>,
        /// The statements of the body.
        body: Items<u32>,
    },
    /// `{ Statement* }`
    Block {
        /// The statements.
        body: Items<u32>,
    },
    /// `;`
    Empty,
    /// `Expr ;`
    Expression {
        /// The expression.
        value: u32,
    },
    /// `if ( Expr ) Body`
    If {
        /// The condition.
        test: u32,
        /// Where it holds.
        then: u32,
    },
    /// `if ( Expr ) Body else Body`
    IfElse {
        /// The condition.
        test: u32,
        /// Where it holds.
        then: u32,
        /// Where it does not.
        otherwise: u32,
    },
    /// `while ( Expr ) Body`
    While {
        /// The condition.
        test: u32,
        /// The statement that is repeated.
        body: u32,
    },
    /// `for ( [Expr] ; [Expr] ; [Expr] ) Body`
    For {
        /// Before the first turn.
        start: Option<u32>,
        /// The condition before each turn.
        test: Option<u32>,
        /// Behind each turn.
        update: Option<u32>,
        /// The statement that is repeated.
        body: u32,
    },
    /// `for ( let Binding (, Binding)* ; [Expr] ; [Expr] ) Body`
    ForLet {
        /// One at least, in order.
        bindings: Items<Binding>,
        /// The condition before each turn.
        test: Option<u32>,
        /// Behind each turn.
        update: Option<u32>,
        /// The statement that is repeated.
        body: u32,
    },
    /// `for ( (let | const) Name of Expr ) Body`
    ForOf {
        /// Whether it is `const`.
        is_constant: bool,
        /// The name that is declared for each turn.
        name: Named,
        /// What is gone through.
        values: u32,
        /// The statement that is repeated.
        body: u32,
    },
    /// `break ;`
    Break,
    /// `continue ;`
    Continue,
    /// `return [Expr] ;`
    Return {
        /// What is returned, where it is written.
        value: Option<u32>,
    },
    /// `throw Expr ;`
    Throw {
        /// What is thrown.
        value: u32,
    },
    /// `try Block catch Block [finally Block]`
    TryCatch {
        /// What is tried.
        block: u32,
        /// What is done where it throws.
        handler: u32,
        /// What is done at the end in any case.
        finalizer: Option<u32>,
    },
    /// `try Block catch ( Name ) Block [finally Block]`
    TryCatchName {
        /// What is tried.
        block: u32,
        /// The name of what is thrown.
        name: Named,
        /// What is done where it throws.
        handler: u32,
        /// What is done at the end in any case.
        finalizer: Option<u32>,
    },
    /// `try Block finally Block`
    TryFinally {
        /// What is tried.
        block: u32,
        /// What is done at the end in any case.
        finalizer: u32,
    },
    /// `(Name | ( List(Name) )) => Expr`
    ArrowValue {
        /// The parameters, in order.
        parameters: Items<Named>,
        /// What a call gives.
        value: u32,
    },
    /// `(Name | ( List(Name) )) => { Statement* }`
    ArrowBody {
        /// The parameters, in order.
        parameters: Items<Named>,
        /// The statements of the body.
        body: Items<u32>,
    },
    /// `Name AssignOp Expr`
    AssignName {
        /// The name that is assigned.
        name: Named,
        /// How.
        operator: AssignOperator,
        /// The right side.
        value: u32,
    },
    /// An assignment to anything but a name, which is right where that is a member or an index.
    Assign {
        /// The left side.
        target: u32,
        /// How it is assigned.
        operator: AssignOperator,
        /// The right side.
        value: u32,
    },
    /// `Or ? Expr : Expr`
    Conditional {
        /// The condition.
        test: u32,
        /// Where it holds.
        then: u32,
        /// Where it does not.
        otherwise: u32,
    },
    /// Two operands and the operator between them.
    Binary {
        /// The operator.
        operator: BinaryOperator,
        /// The left operand.
        left: u32,
        /// The right operand.
        right: u32,
    },
    /// An operator and its operand, which for `delete` is a member or an index.
    Unary {
        /// The operator.
        operator: UnaryOperator,
        /// The operand.
        operand: u32,
    },
    /// `++` or `--` and a name.
    UpdateName {
        /// The operator.
        operator: UpdateOperator,
        /// Whether the operator stands before the name.
        is_prefix: bool,
        /// The name.
        name: Named,
    },
    /// `++` or `--` and anything but a name, which is right where that is a member or an index.
    Update {
        /// The operator.
        operator: UpdateOperator,
        /// Whether the operator stands before its operand.
        is_prefix: bool,
        /// The operand.
        target: u32,
    },
    /// `Call . AnyWord`
    Member {
        /// The expression before the dot.
        object: u32,
        /// The word behind it.
        key: Units,
    },
    /// `Call [ Expr ]`
    Index {
        /// The expression before the bracket.
        object: u32,
        /// The expression in brackets.
        key: u32,
    },
    /// `Call ( List(Expr) )`
    Call {
        /// What is called.
        callee: u32,
        /// The arguments, in order.
        arguments: Items<u32>,
    },
    /// `new Member [( List(Expr) )]`
    New {
        /// The constructor.
        callee: u32,
        /// The arguments, in order, none where no list is written.
        arguments: Items<u32>,
    },
    /// A name that is read.
    Name {
        /// The name.
        name: Units,
    },
    /// A number, at most 9007199254740991.
    Number {
        /// What it stands for.
        value: u64,
    },
    /// A text.
    Text {
        /// The units that it stands for, each below 256.
        units: Units,
    },
    /// `true` or `false`
    Bool {
        /// Which of the two.
        value: bool,
    },
    /// `null`
    Null,
    /// `undefined`
    Undefined,
    /// `[ List(Expr) [,] ]`
    Array {
        /// The elements, in order.
        elements: Items<u32>,
    },
    /// `{ List(Prop) [,] }`
    Object {
        /// The properties, in order.
        properties: Items<Property>,
    },
    /// `function ( List(Name) ) { Statement* }` as an expression.
    FunctionValue {
        /// The parameters, in order.
        parameters: Items<Named>,
        /// The statements of the body.
        body: Items<u32>,
    },
}
