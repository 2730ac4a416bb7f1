// Typed lines: cutting one into fields, and reading the fields that every program shares. docs/RULES.md, "Typed lines", has the form.
#![tactic(auto)]

pub mod fields;
pub mod line;
