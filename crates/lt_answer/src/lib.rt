//! What a call on the outside answers, against what is right of it: the words of contracts, how verdicts on outcomes are built from rules and from
//! each other, which of them leave one refusal, and how steps follow one another. Nothing here is run.
#![tactic(auto)]
