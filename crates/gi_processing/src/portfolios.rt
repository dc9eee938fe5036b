ghost use Rattle.std.specs.Prelude.{◌≡◌, ◌<◌, ◌≤◌, [], false, length};
ghost use Rattle.std.specs.List.{list_any};
ghost use Rattle.std.specs.Str.{bytes_eq};
ghost use Rattle.gi_processing.specs.CapacityLimits.{most_portfolios};
ghost use Rattle.gi_processing.specs.Recording.{is_too_many as is_too_many_of, with_portfolio};

use gi_pairs::Code;
use std::marker::Model;

/// How many portfolios have contracts at a side, over all days.
pub const MOST_PORTFOLIOS: usize = 64;

/// The portfolios that have contracts, each once. They take no memory.
#[derive(Drop)]
pub(crate) struct Portfolios {
    codes: [Code; 64],
    count: usize,
}

impl Model for Portfolios {
    ghost use Rattle.std.specs.Prelude.{List, ℕ, take, ◌≤◌};
    ghost use Rattle.gi_processing.specs.CapacityLimits.{most_portfolios};

    ghost Value = { List (List ℕ) };

    ghost view = { λ p. take p.count p.codes };

    ghost invariant = { λ p. p.count ≤ most_portfolios };
}

impl Portfolios {
    pub(crate) fn new() -> Portfolios
        ensures { result ≡ [] }
    {
        // A code fills the places that no portfolio has yet.
        let filling = Code::read("-").unwrap();
        Portfolios {
            codes: [filling; 64],
            count: 0,
        }
    }

    pub(crate) fn as_slice(&self) -> &[Code]
        ensures value { result.now ≡ self.now }
        ensures few { length result.now ≤ most_portfolios }
    {
        &self.codes[..self.count]
    }

    fn has(&self, portfolio: Code) -> bool
        ensures { result ≡ list_any (bytes_eq portfolio) self.now }
    {
        self.as_slice().iter().any(|other| portfolio == *other)
    }

    pub(crate) fn is_too_many(&self, portfolio: Code) -> bool
        ensures { result ≡ is_too_many_of self.now portfolio }
    {
        !self.has(portfolio) && self.as_slice().len() >= MOST_PORTFOLIOS
    }

    pub(crate) fn add(&mut self, portfolio: Code)
        requires { is_too_many_of self.old portfolio ≡ false }
        ensures { self.new ≡ with_portfolio self.old portfolio }
    {
        if self.has(portfolio) {
            return;
        }
        self.codes[self.count] = portfolio;
        self.count += 1;
    }
}
