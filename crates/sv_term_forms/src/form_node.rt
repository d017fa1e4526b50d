/// What is told of a term, as far as its linear form goes. Terms are named by their numbers.
#[derive(Clone, Copy)]
pub enum FormNode {
    /// A number, negative where the flag says so.
    Literal(bool, u128),
    Sum(usize, usize),
    Difference(usize, usize),
    Product(usize, usize),
    AtMost(usize, usize),
    /// An equation of numbers.
    Equal(usize, usize),
    /// A term that is none of these. A product may be told so where neither side is a literal.
    Other,
}
