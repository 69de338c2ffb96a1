//! What is wrong with `.proto` files as sentences with places: faults of runs, violations of rules,
//! and whatever a linter tells.
#![tactic(auto)]

mod checks;
mod context;
mod declared;
mod diagnostic;
mod expected;
mod faults;
mod firsts;
mod fronts;
mod imports;
mod kinds;
mod later;
mod loading;
mod meaning;
mod outline;
mod parts;
mod paths;
mod ranges;
mod reasons;
mod reserved;
mod rules;
mod scan;
mod sources;
mod statements;
mod syntax;
mod texts;
mod wire;

pub use checks::check_diagnostics;
pub use declared::{DeclarationPlaces, declaration_starts};
pub use diagnostic::{Diagnostic, Severity, arrange};
pub use faults::{fault_diagnostic, text_diagnostic};
pub use later::later_diagnostics;
pub use loading::run_code;
pub use meaning::meaning_code;
pub use outline::DeclaredKind;
pub use paths::{path_code, path_sentence};
pub use protobuf_parse_syntax::Place;
pub use reasons::{NoReasons, Reason, Reasons, add_reason};
pub use rules::{RuleLevel, rule_diagnostics, rule_diagnostics_by_trees};
pub use sources::{NamedTree, Source, Sources};
pub use syntax::syntax_code;
pub use texts::text_rule_diagnostics;
pub use wire::{wire_code, wire_sentence};
