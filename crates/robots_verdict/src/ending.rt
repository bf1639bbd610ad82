//! The exit status and the message of the process.
ghost use Rattle.std.specs.{Prelude.◌≡◌, Option.option_map};
ghost use Rattle.robots_verdict.specs.Fault.{message_after, status_after};

use crate::fault::Fault;

/// How the process ends.
#[derive(Drop)]
pub struct Exit {
    pub status: u8,
    pub text: Option<&'static str>,
}

/// Status 0 and no message, or those of the error.
pub fn exit_of(outcome: &Result<(), Fault>) -> Exit
    ensures status { result.status ≡ status_after outcome.now }
    ensures text { option_map (λ text. text.now) result.text ≡ message_after outcome.now }
{
    match outcome {
        Ok(()) => Exit {
            status: 0,
            text: None,
        },
        Err(fault) => Exit {
            status: fault.status(),
            text: Some(fault.text()),
        },
    }
}
