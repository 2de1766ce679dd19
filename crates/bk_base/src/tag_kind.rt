//! The two kinds of handlers.

/// Which of its two forms a handler of failures has: `catch` keeps what it catches as a value,
/// `try` hands it on to a `try_case`.
#[derive(Clone, Copy, Debug, PartialEq, Eq)]
pub enum TagKind {
    Catch,
    Try,
}
