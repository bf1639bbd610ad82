//! Responses, and what they mean.
/// How many redirects in a row are followed, to any host (RFC 9309, 2.3.1.2).
pub const REDIRECT_LIMIT: u32 = 5;

/// How many seconds a file is used, unless the server can't be reached later (RFC 9309, 2.4).
pub const LIFETIME: u32 = 86_400;

/// What came of a request for a robots.txt file.
#[derive(Clone, Copy, Debug)]
pub struct Response {
    /// The status, or `None` if there was no answer: no address, no connection, no end in time.
    pub status: Option<u32>,
    /// How many redirects in a row led to this request: 0 for the site's own address.
    pub redirects: u32,
    /// Whether it has a `Location` that can be asked.
    pub has_location: bool,
    /// Whether the body came to its end, or up to the `FILE_LIMIT` of `texting_robots`, as no more counts.
    pub is_complete: bool,
}

/// What a crawler does after a response.
#[derive(Clone, Copy, PartialEq, Eq, Debug)]
pub enum Meaning {
    /// The body is the site's file. An empty one allows everything.
    Parse,
    /// The file is at another address. Its rules count for the site whose file was asked for first.
    Follow,
    /// There is no file: the crawler may fetch everything, as by [`crate::allow_all`].
    AllowAll,
    /// The file can't be reached: the crawler keeps the one that it has, or may fetch nothing, as by
    /// [`crate::deny_all`].
    DenyAll,
}

impl Response {
    ghost use Rattle.robots_responses.specs.Responses.{IsMeaningOf};

    /// What the response means.
    pub fn meaning(&self) -> Meaning
        ensures { IsMeaningOf self.now result }
    {
        match self.status {
            Some(206 | 304 | 429) => Meaning::DenyAll,
            Some(200..=299) if self.is_complete => Meaning::Parse,
            Some(300..=399) if self.has_location && self.redirects < REDIRECT_LIMIT =>
                Meaning::Follow,
            Some(300..=399) if self.has_location => Meaning::AllowAll,
            Some(400..=499) => Meaning::AllowAll,
            _ => Meaning::DenyAll,
        }
    }
}
