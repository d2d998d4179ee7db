//! What is left of a content that one side has begun (AMQP 0-9-1, section 4.2.6, "Content Framing").
//!
//! A content is a method, then a header with a size, then bodies of that many bytes in all. Whose content it is stands elsewhere.

ghost use Rattle.std.specs.Prelude.{◌≡◌};
ghost use Rattle.lapin_broker.specs.Contents.{of_size as of_size_lem, without_bytes as without_bytes_lem, takes_header as takes_header_lem, takes_body as takes_body_lem, is_idle as is_idle_lem};

/// What is left of a content.
#[derive(Clone, Copy, Debug, PartialEq, Eq)]
pub enum Content {
    /// None is begun.
    Idle,
    /// The method came, and the header is next.
    Begun,
    /// The header came, and bodies of so many bytes are left, at least one.
    Left(u64),
}

impl Content {
    /// What is left once a header came that names this size.
    pub fn of_size(size: u64) -> Content
        ensures { result ≡ of_size_lem size }
    {
        if size == 0 {
            Content::Idle
        } else {
            Content::Left(size)
        }
    }

    /// What is left once a body of so many bytes came.
    pub fn without_bytes(self, size: u64) -> Content
        ensures { result ≡ without_bytes_lem size self }
    {
        match self {
            Content::Left(left) => Content::of_size(left.saturating_sub(size)),
            other => other,
        }
    }

    /// Whether a header of this class may come.
    pub fn takes_header(self, class: u16) -> bool
        ensures { result ≡ takes_header_lem class self }
    {
        match self {
            Content::Begun => class == 60,
            _ => false,
        }
    }

    /// Whether a body of so many bytes may come.
    pub fn takes_body(self, size: u64) -> bool
        ensures { result ≡ takes_body_lem size self }
    {
        match self {
            Content::Left(left) => 0 < size && size <= left,
            _ => false,
        }
    }

    /// Whether none is begun.
    pub fn is_idle(self) -> bool
        ensures { result ≡ is_idle_lem self }
    {
        matches!(self, Content::Idle)
    }
}
