ghost use Rattle.std.proofs.Common.{rules};
ghost use Rattle.std.specs.Cmp.Rules.{comparing, hashing};
ghost use Rattle.std.specs.Hash as fed;

use gi_pairs::Code;
use std::hash::{Hash, Hasher};
use std::marker::Model;

/// Who made a submission: a portfolio, or nobody known where the submission cannot be read.
#[derive(Clone, Copy)]
pub(crate) struct Submitter {
    pub code: Option<Code>,
}

impl Model for Submitter {
    ghost use Rattle.std.specs.Prelude.{List, ℕ, Option};

    ghost Value = { Option (List ℕ) };

    ghost view = { λ s. s.code };

    ghost inverse = { λ code. record { code = code } };
}

impl PartialEq for Submitter {
    ghost use Rattle.gi_reports.specs.Refused.{same};

    ghost eq = { same };

    ghost laws = { Prim.search (comparing, rules) };

    fn eq(&self, other: &Submitter) -> bool {
        self.code == other.code
    }
}

impl Eq for Submitter {
    ghost laws = { Prim.search (comparing, rules) };
}

impl Hash for Submitter {
    ghost hash_input = { λ s. fed.option fed.str s };

    ghost respects_eq = { Prim.search (hashing, rules) };

    fn hash<H: Hasher>(&self, state: &mut H) {
        self.code.as_ref().map(|code| code.as_str()).hash(state);
    }
}
