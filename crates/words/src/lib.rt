// Words: lists of bytes with their ends and borders. This crate has definitions and theorems only, for words of any length.
#![tactic(auto)]
