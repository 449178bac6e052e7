// Many codes at once: their starts as the states of one automaton (Aho and Corasick's), the longest start that a text ends with, failure links, and the codes
// that end at each byte. This crate has definitions and theorems, for any list of words.
#![tactic(auto)]
