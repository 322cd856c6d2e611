// What is asked of a state that a run is to go on from, in definitions and laws; there is no code here yet.
#![tactic(auto)]
