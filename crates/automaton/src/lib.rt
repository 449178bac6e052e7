// Simon's automaton as Hancart describes it ("Des bornes exactes de la complexité des algorithmes séquentiels de recherche d'un motif"): what one byte does.
// Its arrows, ceilings and theorems are in specs/ and proofs/, for words of any length.
#![tactic(auto)]

// An arrow (a transition of the automaton) that is followed: a backward one with its target, the forward one, or none.
#[derive(Clone, Copy)]
pub enum Arrow {
    Back(u32),
    Forward,
    Nothing,
}

// A step (one byte read): the new state, the number of labels compared, and the arrow followed.
#[derive(Clone, Copy)]
pub struct Step {
    pub state: u32,
    pub cost: u32,
    pub arrow: Arrow,
}
