// Plain words about tests, options, parts of lists and lists that rise, each said once. No section of 01 is stated
// here: the other books say theirs in these words. Definitions and laws; no function.
#![tactic(auto)]
