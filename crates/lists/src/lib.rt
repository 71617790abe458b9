// Lists: laws that several crates cite. They stand in specs/; there is no code.
#![tactic(auto)]
