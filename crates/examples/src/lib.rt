// Examples of the model, computed: document 01's printed day and marked examples, a history in which something happens, two mornings that differ
// in a default, and split tickets. They stand under specs/.
#![tactic(auto)]
