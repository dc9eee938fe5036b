ghost use Rattle.std.specs.Prelude.{◌≡◌};
ghost use Rattle.gi_script.specs.Verb.{move_named as move_of, verb_named as verb_of};

use gi_carrier::Move;

/// What is asked of a side.
#[derive(Clone, Copy, Debug, PartialEq, Eq)]
pub enum Verb {
    Contract,
    Notice,
    Submit,
    Close,
    Resend,
    Halt,
    Save,
    Deliver,
    Restart,
    Carry,
}

/// The verb of that text.
#[tactic(auto, unfolding(crate::specs::Verb::verb_named))]
pub fn verb_named(text: &str) -> Option<Verb>
    ensures { result ≡ verb_of text.now }
{
    match text {
        "contract" => Some(Verb::Contract),
        "notice" => Some(Verb::Notice),
        "submit" => Some(Verb::Submit),
        "close" => Some(Verb::Close),
        "resend" => Some(Verb::Resend),
        "halt" => Some(Verb::Halt),
        "save" => Some(Verb::Save),
        "deliver" => Some(Verb::Deliver),
        "restart" => Some(Verb::Restart),
        "carry" => Some(Verb::Carry),
        _ => None,
    }
}

/// The move of that text.
#[tactic(auto, unfolding(crate::specs::Verb::move_named))]
pub fn move_named(text: &str) -> Option<Move>
    ensures { result ≡ move_of text.now }
{
    match text {
        "pass" => Some(Move::Pass),
        "drop" => Some(Move::Drop),
        "repeat" => Some(Move::Repeat),
        "hold" => Some(Move::Hold),
        _ => None,
    }
}
