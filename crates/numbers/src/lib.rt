#![tactic(auto)]

// Numbers as bytes: groups of seven bits, one number and several of them. Definitions and laws stand under specs/; `decoding` reads
// such numbers and `encoding` writes them.
