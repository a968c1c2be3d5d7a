// A whole call on the lent table and catalogue: refusals 1 to 5 before all others, and the step that each of the three
// calls takes (01, "What the base serves" and "Refusal numbers, in order of test"). Definitions and laws; no function.
#![tactic(auto)]
