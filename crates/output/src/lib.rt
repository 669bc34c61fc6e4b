#![tactic(auto)]

// What the desk program prints (document 01, "The desk program"), and demand 3 of the printed lines. No code.
