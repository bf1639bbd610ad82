//! Theorems about the specification, each written as the contract of an empty function.
ghost use Rattle.std.specs.Prelude.{◌≡◌};
ghost use Rattle.robots_responses.specs.Responses.{IsMeaningOf};
ghost use Rattle.robots_responses.specs.declared.response.{Meaning.Meaning, Response.Response};

/// Each response has one meaning. So the contract of `Response::meaning` determines its result.
pub fn each_response_has_one_meaning()
    ensures { (response : Response) (one other : Meaning) → IsMeaningOf response one
        → IsMeaningOf response other → one ≡ other }
{}
