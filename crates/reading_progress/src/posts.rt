//! Whether a client takes its replies.

ghost use Rattle.reading_progress.specs.Posts.{after_reply, after_look, is_left, new_post};
ghost use Rattle.std.specs.Prelude.{◌≡◌};

/// Whether a client takes its replies: they say what it reads, so that is known only as far as they were kept for it.
#[derive(Clone, Copy, Debug, PartialEq, Eq)]
pub struct Post {
    /// How many were lost when the first one came.
    first: Option<u64>,
    /// Whether one was lost since.
    lost: bool,
    /// Since when there may be something to read of which nothing is known.
    since: Option<u64>,
}

impl Post {
    /// No reply came yet.
    pub(crate) fn new() -> Post
        ensures { result ≡ new_post }
    {
        Post {
            first: None,
            lost: false,
            since: None,
        }
    }

    /// A reply came, when so many had been lost.
    pub(crate) fn came(self, lost: u64) -> Post
        ensures { result ≡ after_reply lost self }
    {
        match self.first {
            Some(first) => Post {
                lost: self.lost || lost > first,
                ..self
            },
            None => Post {
                first: Some(lost),
                ..self
            },
        }
    }

    /// As many as there is room for are kept, or not.
    pub(crate) fn seen(self, now: u64, is_full: bool) -> Post
        ensures { result ≡ after_look now is_full self }
    {
        let since = if is_full || self.lost {
            Some(self.since.unwrap_or(now))
        } else {
            None
        };
        Post { since, ..self }
    }

    /// Whether that is so for longer than so many nanoseconds.
    pub(crate) fn is_left(self, now: u64, longest: u64) -> bool
        ensures { result ≡ is_left now longest self }
    {
        match self.since {
            Some(since) => now.saturating_sub(since) > longest,
            None => false,
        }
    }
}
