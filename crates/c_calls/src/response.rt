//! What a response means, as a number.
ghost use Rattle.std.specs.Prelude.{◌≡◌};
ghost use Rattle.c_calls.specs.Response.{SaysMeaning, number_of};

use robots_responses::{Meaning, Response};

fn number_of(meaning: Meaning) -> i32
    ensures { result ≡ number_of meaning }
{
    match meaning {
        Meaning::Parse => 0,
        Meaning::Follow => 1,
        Meaning::AllowAll => 2,
        Meaning::DenyAll => 3,
    }
}

/// The number of what a response means. A status that none has, such as 0, means no answer.
pub fn meaning(status: u32, redirects: u32, has_location: bool, is_complete: bool) -> i32
    ensures { SaysMeaning status redirects has_location is_complete result }
{
    let response = Response {
        status: Some(status),
        redirects,
        has_location,
        is_complete,
    };
    number_of(response.meaning())
}
