// A file of recorded calls, served line by line: what each line does to the table, the catalogue and the output (01,
// "What the base serves": the small program; README, "Replaying recorded calls"). Definitions and laws; no function.
#![tactic(auto)]
