// Definitions and laws that every layer shares; there is no code here.
#![tactic(auto)]
