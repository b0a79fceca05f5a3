use crate::word::Word;
use fx_text::Text;

/// An operator between two expressions.
#[derive(Clone, Copy, Debug, PartialEq, Eq)]
pub enum BinOp {
    /// `++`: one text after another.
    Join,
    /// `+` of integers.
    Plus,
    /// `-` of integers.
    Minus,
    /// `==` of two values of one shape.
    Equal,
    /// `<` of texts by bytes, or of integers.
    Less,
    And,
    Or,
    /// `in`: whether a text is in a set.
    Member,
    /// `union` of sets.
    Union,
    /// `minus`: a set without the elements of another.
    Without,
}

/// An operator before one expression.
#[derive(Clone, Copy, Debug, PartialEq, Eq)]
pub enum UnOp {
    Not,
    /// The set of one text.
    One,
    /// The set of a text's lines, empty ones left out.
    Lines,
    /// The number of bytes of a text, or of elements of a set.
    Size,
    /// The integer that a text spells.
    Int,
    /// The decimal text of an integer.
    Text,
    First,
    Second,
    /// The set of a table's texts.
    Keys,
    /// Whether an optional value is there.
    Present,
}

/// An expression.
#[derive(Debug)]
pub enum Expr {
    Str(Text),
    Int(i64),
    Bool(bool),
    /// The empty set.
    Empty,
    /// A bound name.
    Var(Word),
    Bin(BinOp, Box<Expr>, Box<Expr>),
    Un(UnOp, Box<Expr>),
    /// The second or the third, as the first is true or false.
    Choose(Box<Expr>, Box<Expr>, Box<Expr>),
    /// The elements of a set that match a glob.
    Only(Box<Expr>, Text),
}

/// It is written out, so that its parts are dropped in this crate alone.
impl Drop for Expr {
    fn drop(self) {
        match self {
            Expr::Str(_first) => {}
            Expr::Int(_first) => {}
            Expr::Bool(_first) => {}
            Expr::Var(_first) => {}
            Expr::Bin(_first, _second, _third) => {}
            Expr::Un(_first, _second) => {}
            Expr::Choose(_first, _second, _third) => {}
            Expr::Only(_first, _second) => {}
            Expr::Empty => {}
        }
    }
}
