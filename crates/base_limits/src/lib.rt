// The limits of document 01 and its units of money, in specs/. There is no code.
#![tactic(auto)]
