//! The answer of a poll. Here stands its form alone; who is polled and when stands in the crates above.

/// What a poll found.
#[derive(Debug, PartialEq, Eq, Drop)]
pub enum Poll<T> {
    /// The result is here.
    Ready(T),
    /// The result isn't here yet.
    Pending,
}
