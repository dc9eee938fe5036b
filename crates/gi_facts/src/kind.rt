ghost use Rattle.std.specs.Prelude.{◌≡◌};
ghost use Rattle.gi_facts.specs.Kind.{kind_text, kind_named};

/// The kinds of facts.
#[derive(Clone, Copy, Debug, PartialEq, Eq)]
pub enum Kind {
    Contract,
    Notice,
    Nomination,
    Closed,
    Met,
}

impl Kind {
    /// The kind's name, as the key `fact` has it.
    pub fn text(self) -> &'static str
        ensures { result.now ≡ kind_text self }
    {
        match self {
            Kind::Contract => "contract",
            Kind::Notice => "notice",
            Kind::Nomination => "nomination",
            Kind::Closed => "closed",
            Kind::Met => "met",
        }
    }
}

/// The kind of that name.
#[tactic(auto, unfolding(crate::specs::Kind::kind_named))]
pub fn kind_named(text: &str) -> Option<Kind>
    ensures { result ≡ kind_named text.now }
{
    match text {
        "contract" => Some(Kind::Contract),
        "notice" => Some(Kind::Notice),
        "nomination" => Some(Kind::Nomination),
        "closed" => Some(Kind::Closed),
        "met" => Some(Kind::Met),
        _ => None,
    }
}
