#![tactic(auto)]

// What the tables of an accepted job hold, and demand 3 of its calls. Definitions and their laws. No code.
