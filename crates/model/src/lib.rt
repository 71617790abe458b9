#![tactic(auto)]

// The model of the book: its definitions stand under specs/, its theorems under proofs/ and in the files of specs/ named ..Laws.
