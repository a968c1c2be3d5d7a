// Opening a query on a seat: refusals 7, 14 and 16, the lowest free handle, and the cursor that is opened (01, "What
// the base serves", and the lines of those numbers in the refusal table). Definitions and laws; no function.
#![tactic(auto)]
