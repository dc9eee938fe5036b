ghost use Rattle.std.specs.Prelude.{◌≡◌};
ghost use Rattle.gi_messages.specs.Kind.{kind_text, kind_named};

/// The kinds of messages.
#[derive(Clone, Copy, Debug, PartialEq, Eq)]
pub enum Kind {
    Nomint,
    Acknow,
    Nomres,
    Delord,
    Delres,
}

impl Kind {
    /// The kind's name, as the key `kind` has it.
    pub fn text(self) -> &'static str
        ensures { result.now ≡ kind_text self }
    {
        match self {
            Kind::Nomint => "NOMINT",
            Kind::Acknow => "ACKNOW",
            Kind::Nomres => "NOMRES",
            Kind::Delord => "DELORD",
            Kind::Delres => "DELRES",
        }
    }
}

/// The kind of that name.
#[tactic(auto, unfolding(crate::specs::Kind::kind_named))]
pub fn kind_named(text: &str) -> Option<Kind>
    ensures { result ≡ kind_named text.now }
{
    match text {
        "NOMINT" => Some(Kind::Nomint),
        "ACKNOW" => Some(Kind::Acknow),
        "NOMRES" => Some(Kind::Nomres),
        "DELORD" => Some(Kind::Delord),
        "DELRES" => Some(Kind::Delres),
        _ => None,
    }
}
