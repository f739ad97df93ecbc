#![tactic(auto)]
// The theorem over every list of calls of the lane. It has no code: what it says is in `specs`, of the functions of `lane`.
