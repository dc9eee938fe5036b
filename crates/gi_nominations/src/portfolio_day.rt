ghost use Rattle.std.specs.Prelude.{◌≡◌};
ghost use Rattle.gi_nominations.specs.PortfolioDay.{portfolio_day_of};

use gi_day::GasDay;
use gi_messages::Nomint;
use gi_pairs::Code;

/// What a nomination is for: a portfolio and a gas day, ordered by the portfolio's code, then by
/// the day.
#[derive(Clone, Copy, Debug, PartialEq, Eq, PartialOrd, Ord)]
pub struct PortfolioDay {
    /// The portfolio.
    pub portfolio: Code,
    /// The gas day.
    pub day: GasDay,
}

impl PortfolioDay {
    /// What the nomination is for.
    pub fn of(nomint: &Nomint) -> PortfolioDay
        ensures { result ≡ portfolio_day_of nomint.now }
    {
        PortfolioDay {
            portfolio: nomint.portfolio,
            day: nomint.day,
        }
    }
}
