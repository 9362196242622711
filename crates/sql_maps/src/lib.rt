//! SQL tables as maps from keys to rows: definitions and lemmas for contracts that use such maps.
#![tactic(auto)]
