// The tree of a specification.

ghost use Rattle.std.specs.Prelude.{◌≡◌, map};
ghost use Rattle.syntax_tree.specs.Tree.{kind_in, place_of};
ghost use Rattle.syntax_tree.specs.Counts.{HasFewInside};
ghost use Rattle.syntax_tree.specs.Places.{type_place};
ghost use Rattle.syntax_tree.specs.inner.OneLevel.{aggregate_in, type_of, expr_of, body_of, definition_of, item_of, items_of};

use spec_lexer::natural::Natural;
use std::marker::Model;
use tsl_value::place::Place;
use tsl_value::text::Text;
use vocabulary::dotted::Dotted;
use vocabulary::kind::Kind;

/// The levels of a chain whose operands stand in one list.
#[derive(Clone, Copy, PartialEq, Eq, Debug)]
pub enum Level {
    Disjunction,
    Conjunction,
    Sum,
    Product,
}

#[derive(Clone, Copy, PartialEq, Eq, Debug)]
pub enum Operator {
    Or,
    And,
    Add,
    Subtract,
    Multiply,
    Divide,
    Remainder,
}

#[derive(Clone, Copy, PartialEq, Eq, Debug)]
pub enum Comparison {
    Same,
    Differs,
    AtMost,
    AtLeast,
    Below,
    Above,
}

/// A written type, and the place of its first token.
#[cycle(types)]
#[derive(Drop)]
pub struct TypeName {
    place: Place,
    shape: TypeShape,
}

#[cycle(types)]
#[derive(Drop)]
pub enum TypeShape {
    Unit,
    Int,
    Bool,
    Text,
    Aggregate(Aggregate),
    Option(Box<TypeName>),
    Events(Box<TypeName>),
}

/// An aggregate of the types in its brackets.
#[cycle(types)]
#[derive(Drop)]
pub enum Aggregate {
    /// The type of its keys.
    Set(Box<TypeName>),
    /// The types of its keys and of its entries.
    Map(Box<TypeName>, Box<TypeName>),
    /// The type of its elements.
    Queue(Box<TypeName>),
}

impl Aggregate {
    pub fn kind(&self) -> Kind
        ensures { result ≡ kind_in (aggregate_in self.now) }
    {
        match self {
            Aggregate::Set(_) => Kind::Set,
            Aggregate::Map(_, _) => Kind::Map,
            Aggregate::Queue(_) => Kind::Queue,
        }
    }
}

impl Model for TypeName {
    ghost use Rattle.syntax_tree.specs.Tree.{TypeName as TypeTree};
    ghost use Rattle.syntax_tree.specs.inner.Code.{type_code};

    ghost Value = { TypeTree };

    ghost coded = { type_code };

    ghost use Rattle.syntax_tree.specs.inner.OneLevel.{type_of, size_of_type};

    ghost view = { λ t. type_of t.place t.shape };

    ghost size = { size_of_type };

    ghost use Rattle.std.proofs.Common.{arith};
    ghost use Rattle.syntax_tree.specs.inner.Falls.{type_falls};

    ghost size_decreases = { λ a h. Prim.grind (arith, type_falls a.place a.shape) };
}

#[tactic(auto, using(crate::specs::Places::type_place_again))]
impl TypeName {
    pub fn new(place: Place, shape: TypeShape) -> TypeName
        ensures { result ≡ type_of place shape }
    {
        TypeName { place, shape }
    }

    /// The place of the first token.
    pub fn place(&self) -> Place
        ensures { result ≡ type_place self.now }
    {
        self.place
    }

    pub fn shape(&self) -> &TypeShape
        ensures { type_of (type_place self.now) result.now ≡ self.now }
    {
        &self.shape
    }
}

/// An expression, and the place of its first token; parentheses leave no trace. A chain has the place of its first operand.
#[cycle(tree)]
#[derive(Drop)]
pub struct Expr {
    place: Place,
    node: Node,
}

#[cycle(tree)]
#[derive(Drop)]
pub enum Node {
    /// The condition, the expression where it is true, and the one where it is false.
    If(Box<Expr>, Box<Expr>, Box<Expr>),
    /// The operands of one level, in one list.
    Chain(Level, Box<Expr>, Vec<Link>),
    Compare(Comparison, Box<Expr>, Box<Expr>),
    Negate(Box<Expr>),
    Not(Box<Expr>),
    Number(Natural),
    /// A number with a minus before it.
    Negative(Natural),
    Text(Text),
    Boolean(bool),
    Unit,
    Name(Text),
    Call(Text, Vec<Expr>),
    CallDotted(Dotted, Vec<Expr>),
    Nil(TypeName),
    None(TypeName),
    Empty(Aggregate),
}

/// An operator and the operand after it.
#[cycle(tree)]
#[derive(Drop)]
pub struct Link {
    pub operator: Operator,
    pub operand: Expr,
}

impl Model for Expr {
    ghost use Rattle.syntax_tree.specs.Tree.{Expr as ExprTree};
    ghost use Rattle.syntax_tree.specs.inner.Code.{expr_code};

    ghost Value = { ExprTree };

    ghost coded = { expr_code };

    ghost use Rattle.syntax_tree.specs.inner.OneLevel.{expr_of, size_of};

    ghost view = { λ e. expr_of e.place e.node };

    ghost size = { size_of };

    ghost use Rattle.std.proofs.Common.{arith};
    ghost use Rattle.syntax_tree.specs.inner.Falls.{node_falls};

    ghost size_decreases = { λ a h. Prim.grind (arith, node_falls a.place a.node) };
}

#[tactic(auto, using(crate::specs::inner::OneLevel::place_again))]
impl Expr {
    pub fn new(place: Place, node: Node) -> Expr
        ensures { result ≡ expr_of place node }
    {
        Expr { place, node }
    }

    /// The place of the first token.
    pub fn place(&self) -> Place
        ensures { result ≡ place_of self.now }
    {
        self.place
    }

    pub fn node(&self) -> &Node
        ensures { expr_of (place_of self.now) result.now ≡ self.now }
    {
        &self.node
    }

    pub fn into_node(self) -> Node
        ensures { expr_of (place_of self) result ≡ self }
    {
        self.node
    }
}

/// A parameter of a definition: the place of its name, its name and its type.
#[derive(Drop)]
pub struct Param {
    pub place: Place,
    pub name: Text,
    pub of: TypeName,
}

/// A definition. It begins at its name.
#[cycle(definitions)]
#[derive(Drop)]
pub struct Definition {
    parts: DefinitionParts,
}

#[cycle(definitions)]
#[derive(Drop)]
pub struct DefinitionParts {
    pub place: Place,
    pub name: Text,
    /// None where no parentheses stand.
    pub params: Vec<Param>,
    pub written: Option<TypeName>,
    pub body: Body,
}

#[cycle(definitions)]
#[derive(Drop)]
pub enum Body {
    Plain(Expr),
    /// Definitions and an expression between braces.
    Block(Vec<Definition>, Expr),
}

impl Model for Definition {
    ghost use Rattle.syntax_tree.specs.Tree.{Definition as DefinitionTree};
    ghost use Rattle.syntax_tree.specs.inner.Code.{definition_code};

    ghost Value = { DefinitionTree };

    ghost coded = { definition_code };

    ghost use Rattle.syntax_tree.specs.inner.OneLevel.{body_of, definition_of, size_of_definition};
    ghost use Rattle.syntax_tree.specs.Counts.{HasFewInside};

    ghost view = { λ d. definition_of d.parts };

    ghost invariant = { λ d. HasFewInside (body_of d.parts.body) };

    ghost size = { size_of_definition };

    ghost use Rattle.std.proofs.Common.{arith};
    ghost use Rattle.syntax_tree.specs.inner.Falls.{definition_falls};

    ghost size_decreases = { λ a h. Prim.grind (arith, definition_falls a.parts) };
}

impl Definition {
    pub fn new(parts: DefinitionParts) -> Definition
        requires { HasFewInside (body_of parts.body) }
        ensures { result ≡ definition_of parts }
    {
        Definition { parts }
    }

    pub fn parts(&self) -> &DefinitionParts
        ensures is { definition_of result.now ≡ self.now }
        ensures few { HasFewInside (body_of result.now.body) }
    {
        &self.parts
    }
}

#[derive(Drop)]
pub enum Item {
    /// The place of the word `in`, and the place of the name, the name and its type.
    Input(Place, Place, Text, TypeName),
    /// The place of the word `def`, and the definition.
    Defined(Place, Definition),
    /// The place of the word `out`, and the place of the name and the name.
    Output(Place, Place, Text),
    /// The place of the word `out`, the expression, and the place of the printed name and that name.
    OutputAs(Place, Expr, Place, Text),
}

impl Item {
    ghost use Rattle.syntax_tree.specs.Places.{first_place};

    /// The place of the item's first token.
    pub fn place(&self) -> Place
        ensures { result ≡ first_place (item_of self.now) }
    {
        match self {
            Item::Input(place, _, _, _)
            | Item::Defined(place, _)
            | Item::Output(place, _, _)
            | Item::OutputAs(place, _, _, _) => *place,
        }
    }
}

/// The items of a specification, and where its source ends.
#[derive(Drop)]
pub struct Tree {
    items: Vec<Item>,
    end: Place,
}

impl Tree {
    pub fn new(items: Vec<Item>, end: Place) -> Tree
        ensures { result ≡ record { items = items; end = end } }
    {
        Tree { items, end }
    }

    /// All of them, in the order of the source.
    pub fn items(&self) -> &[Item]
        ensures { map item_of result.now ≡ items_of self.now }
    {
        self.items.as_slice()
    }

    /// The place after the source's last character.
    pub fn end(&self) -> Place
        ensures { result ≡ self.now.end }
    {
        self.end
    }
}
