// The promises of every call and of any calls from all seats: refusals, what accepted calls do, the rows a cursor has
// carried, what a seat's answers depend on (01, "Refusal numbers, in order of test", "Rows", "How much each statement
// must say"), with M1 to M12 ("Numbers to check against"). Definitions and theorems; no function.
#![tactic(auto)]
