// How an order grows: one run is forced; the conditions co1 to co3 ask of each stage what the rule per position asks. Laws, no running code.
#![tactic(auto)]
