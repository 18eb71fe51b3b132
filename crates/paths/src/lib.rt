// Theory only: definitions in specs/ and laws in proofs/ on chains, their number, the step rule and the latest of the best. No code.
#![tactic(auto)]
