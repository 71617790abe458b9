// The model of the book written as tables: definitions and theorems under specs/.
#![tactic(auto)]
