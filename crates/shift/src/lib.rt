// The shift method keeps its triangles: laws, no running code.
#![tactic(auto)]
