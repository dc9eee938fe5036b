use std::error::Error;
use std::fmt;

/// Why a contract is not recorded.
#[derive(Clone, Copy, Debug, PartialEq, Eq)]
pub enum ContractFault {
    /// The portfolio has no contract on any day, and 64 others have one.
    TooManyPortfolios,
    /// Memory ran out.
    OutOfMemory,
}

impl fmt::Display for ContractFault {
    ghost use Rattle.std.specs.Prelude.{Some};
    ghost use Rattle.gi_processing.specs.FaultText.{contract_fault_text};

    ghost output = { λ fault. Some (contract_fault_text fault) };

    fn fmt<W: fmt::Write>(&self, f: &mut fmt::Formatter<W>) -> fmt::Result {
        f.write_str(match self {
            ContractFault::TooManyPortfolios => "TooManyPortfolios",
            ContractFault::OutOfMemory => "OutOfMemory",
        })
    }
}

impl Error for ContractFault {}
