// The book that a memory stands for, and the one memory of each book. They stand in specs/; there is no code.
#![tactic(auto)]
