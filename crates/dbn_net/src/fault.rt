/// What is wrong with a net text. The kinds stand in the order in which they are tested for a declaration.
#[derive(Clone, Copy, Debug, PartialEq, Eq)]
pub enum NetKind {
    /// The text is no list of S-expressions.
    Syntax,
    /// It is none of the declarations.
    Declaration,
    /// A name is too long, a list has too many parts, or there are too many of the kind.
    Limit,
    /// Something is declared twice.
    Duplicate,
    /// Something that is named was not declared before, or a place is of the other kind.
    Unknown,
    /// The number of terms, arguments or values is another one than was declared.
    Arity,
    /// A term, a value or a paired column has another type than its position.
    TypeClash,
    /// A variable is bound by nothing where it stands, or a query variable is not free in the query's formula.
    Unbound,
    /// The safety test does not accept the query or the sentence.
    Unsafe,
    /// A number of tokens is not from 1 to 4,294,967,295.
    Count,
    /// The initial facts do not meet a sentence. This is tested last, when all declarations are good.
    Inconsistent,
}
