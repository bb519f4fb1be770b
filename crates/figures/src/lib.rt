// Check figures: weighted totals of digits, and the rules that have them.
#![tactic(auto)]

mod finding;
mod kind;
mod rules;
mod total;

pub use finding::{Finding, Passed, Problem, decided, form_only};
pub use kind::{Kind, figure_for, lacking, passes, share, sum_of, weights_of};
pub use rules::{abn, gln, mod11, mod97_0208, partita_iva, se_orgnr};
