//! Both operators step by step, carriers between them, scripts of what happens there, and what a desk reports:
//! what the cases about them call.
#![tactic(auto)]

mod carriers;
mod moves;
mod nomination;
mod reports;
mod runs;
mod scripts;
mod simulations;
mod worlds;

pub use carriers::Carriers;
pub use reports::Reports;
pub use scripts::Scripts;
pub use simulations::Simulations;
pub use worlds::Worlds;
