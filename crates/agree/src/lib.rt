// The rule per position and the conditions co1 to co3 ask the same of a block: laws, no running code.
#![tactic(auto)]
