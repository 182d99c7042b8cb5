// The present value of a benefit: discounts, yearly factors, their sum, and the value of an amount.
#![tactic(auto)]

mod cuts;
pub mod discounts;
pub mod pricing;
mod rates;
pub mod valuation;
