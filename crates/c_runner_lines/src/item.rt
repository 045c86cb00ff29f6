use value_core::Text;

/// What a call of `next` finds.
#[derive(Drop)]
pub enum Item {
    /// A line, without its line feed.
    Line(Text),
    /// A line that is not UTF-8.
    Bad,
    /// The end of the input.
    Eof,
    /// A line that ends further along than bytes of input may be used.
    Over,
}
